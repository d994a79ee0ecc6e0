//! The numbers of the object file format, by the names that the standard gives them. gABI, "ELF
//! Header", "Sections", "Symbol Table", "Relocation"; EM_RISCV is of the RISC-V ELF specification.

/// 7F 'E' 'L' 'F', for 64 bits, little endian, of the current version.
pub const IDENTIFICATION: [u8; 7] = [0x7F, 0x45, 0x4C, 0x46, 2, 1, 1];

/// How many bytes the ELF header has, and a section header.
pub const HEADER_LEN: u64 = 64;

/// How many bytes a symbol has, and a relocation entry with addend.
pub const ROW_LEN: u64 = 24;

/// The longest name that a GLOBAL may have, in bytes.
pub const LONGEST_NAME: usize = 1024;

pub const ET_REL: u16 = 1;

pub const EM_RISCV: u16 = 243;

pub const EV_CURRENT: u32 = 1;

pub const SHT_NULL: u32 = 0;

pub const SHT_PROGBITS: u32 = 1;

pub const SHT_SYMTAB: u32 = 2;

pub const SHT_STRTAB: u32 = 3;

pub const SHT_RELA: u32 = 4;

pub const SHT_NOTE: u32 = 7;

pub const SHT_NOBITS: u32 = 8;

pub const SHT_REL: u32 = 9;

pub const SHT_GROUP: u32 = 17;

pub const SHF_WRITE: u64 = 1;

pub const SHF_ALLOC: u64 = 2;

pub const SHF_EXECINSTR: u64 = 4;

pub const SHF_MERGE: u64 = 0x10;

pub const SHF_STRINGS: u64 = 0x20;

pub const SHF_INFO_LINK: u64 = 0x40;

pub const SHN_UNDEF: u16 = 0;

pub const SHN_ABS: u16 = 0xFFF1;

pub const STB_LOCAL: u8 = 0;

pub const STB_GLOBAL: u8 = 1;

pub const STB_WEAK: u8 = 2;

pub const STT_NOTYPE: u8 = 0;

pub const STT_OBJECT: u8 = 1;

pub const STT_FUNC: u8 = 2;

pub const STT_SECTION: u8 = 3;

pub const STT_FILE: u8 = 4;
