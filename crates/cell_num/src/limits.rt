//! How much of each kind there may be, and the sizes that everything goes by.

/// Namespaces, `k` among them.
pub const MAX_NAMESPACES: u32 = 256;

/// Present cells, the old and the new ones of a swap counted together.
pub const MAX_CELLS: u32 = 1024;

/// Cells are numbered from 1 on, and no number is used again.
pub const MAX_CELL_NUMBER: u32 = 65535;

/// Live tasks.
pub const MAX_TASKS: u32 = 64;

/// Tasks are numbered from 1 on, and no number is used again.
pub const MAX_TASK_NUMBER: u32 = 65535;

/// Names in the folder.
pub const MAX_NAMES: u32 = 65536;

/// Object files.
pub const MAX_FILES: u32 = 1024;

/// The bytes of an object file.
pub const MAX_FILE_BYTES: u32 = 1048576;

/// The bytes of all object files together.
pub const MAX_ALL_BYTES: u64 = 67108864;

/// The bytes of the script.
pub const MAX_SCRIPT_BYTES: u32 = 1048576;

/// The bytes of a file with a dump of the machine.
pub const MAX_DUMP_BYTES: u32 = 67108864;

/// The bytes of a page.
pub const PAGE_SIZE: u64 = 4096;

/// The pages of the stack of a task, and of that of a swap's routines.
pub const STACK_PAGES: u32 = 4;

/// The bytes of such a stack.
pub const STACK_SIZE: u64 = 16384;

/// The bytes of a loaded section.
pub const MAX_SECTION_BYTES: u64 = 16777216;

/// The bytes of a section that the assembler has stored in the file.
pub const MAX_STORED_BYTES: u64 = 1048576;

/// The bytes of a source of the assembler.
pub const MAX_SOURCE_BYTES: u32 = 1048576;

/// The pages that a memory has at least.
pub const MIN_PAGES: u32 = 16;

/// The pages that a memory has at most.
pub const MAX_PAGES: u32 = 4096;

/// The lowest address that a memory may begin at.
pub const MIN_BASE: u64 = 0x1000;

/// The highest address that a memory may begin at.
pub const MAX_BASE: u64 = 0x7ff_ffff_f000;
