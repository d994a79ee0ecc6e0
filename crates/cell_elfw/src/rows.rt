//! The ELF header, a symbol and a relocation entry as bytes.

ghost use Rattle.std.specs.Prelude.{◌≡◌, ◌++◌, ◌<◌, OnOk};
ghost use Rattle.cell_object.specs.Rows.{header_bytes, bind_number as number_of_bind, sort_number as number_of_sort, home_number as number_of_home, kind_number as number_of_kind, symbol_bytes, entry_bytes};

use crate::number::put_fields;
use cell_num::{RelKind, kind_row};
use cell_object::elf::{
    EM_RISCV, ET_REL, EV_CURRENT, HEADER_LEN, IDENTIFICATION, SHN_ABS, SHN_UNDEF, STB_GLOBAL,
    STB_LOCAL, STB_WEAK, STT_FILE, STT_FUNC, STT_NOTYPE, STT_OBJECT, STT_SECTION,
};
use cell_object::{Bind, Entry, Home, Sort, Symbol};
use std::alloc::AllocError;

/// The bytes of e_ident behind the identification.
const UNUSED: [u8; 9] = [0; 9];

/// Where the section headers stand, how many there are, and the number of the section of their names.
#[derive(Clone, Copy)]
pub struct Directory {
    pub shoff: u64,
    pub shnum: u64,
    pub shstrndx: u64,
}

/// Appends the ELF header of a relocatable file for RISC-V.
#[tactic(auto, unfolding(cell_object::specs::Rows::header_bytes))]
pub fn put_header(directory: Directory, into: &mut Vec<u8>) -> Result<(), AllocError>
    ensures { OnOk result (into.new.items ≡ into.old.items ++ header_bytes directory.shoff directory.shnum directory.shstrndx) }
{
    into.extend_from_slice(&IDENTIFICATION)?;
    into.extend_from_slice(&UNUSED)?;
    let fields = [
        (ET_REL as u64, 2),
        (EM_RISCV as u64, 2),
        (EV_CURRENT as u64, 4),
        (0, 8),
        (0, 8),
        (directory.shoff, 8),
        (0, 4),
        (HEADER_LEN, 2),
        (0, 2),
        (0, 2),
        (HEADER_LEN, 2),
        (directory.shnum, 2),
        (directory.shstrndx, 2),
    ];
    put_fields(&fields, into)
}

fn bind_number(bind: Bind) -> u64
    ensures number { result ≡ number_of_bind bind }
    ensures few { result < 3 }
{
    match bind {
        Bind::Local => STB_LOCAL as u64,
        Bind::Global => STB_GLOBAL as u64,
        Bind::Weak => STB_WEAK as u64,
    }
}

fn sort_number(sort: Sort) -> u64
    ensures number { result ≡ number_of_sort sort }
    ensures few { result < 5 }
{
    match sort {
        Sort::NoType => STT_NOTYPE as u64,
        Sort::Object => STT_OBJECT as u64,
        Sort::Func => STT_FUNC as u64,
        Sort::Section => STT_SECTION as u64,
        Sort::File => STT_FILE as u64,
    }
}

fn home_number(symtab: u64, home: Home) -> u64
    ensures { result ≡ number_of_home symtab home }
{
    match home {
        Home::Undef => SHN_UNDEF as u64,
        Home::Abs => SHN_ABS as u64,
        Home::Inside(number) => u64::from(number),
        Home::Elsewhere => symtab,
    }
}

/// Appends a symbol whose name stands at a place of the string table.
#[tactic(auto, unfolding(cell_object::specs::Rows::symbol_bytes))]
pub fn put_symbol(
    symtab: u64,
    name: u64,
    symbol: &Symbol,
    into: &mut Vec<u8>,
) -> Result<(), AllocError>
    ensures { OnOk result (into.new.items ≡ into.old.items ++ symbol_bytes symtab name symbol.now) }
{
    let info = 16 * bind_number(symbol.bind) + sort_number(symbol.sort);
    let fields = [
        (name, 4),
        (info, 1),
        (0, 1),
        (home_number(symtab, symbol.home), 2),
        (symbol.value, 8),
        (symbol.size, 8),
    ];
    put_fields(&fields, into)
}

#[tactic(auto, unfolding(cell_object::specs::Rows::kind_number))]
fn kind_number(kind: RelKind) -> u64
    ensures { result ≡ number_of_kind kind }
{
    u64::from(kind_row(kind).number)
}

/// Appends a relocation entry.
#[tactic(auto, unfolding(cell_object::specs::Rows::entry_bytes))]
pub fn put_entry(entry: &Entry, into: &mut Vec<u8>) -> Result<(), AllocError>
    ensures { OnOk result (into.new.items ≡ into.old.items ++ entry_bytes entry.now) }
{
    let fields = [
        (u64::from(entry.offset), 8),
        (kind_number(entry.kind), 4),
        (u64::from(entry.symbol), 4),
        (entry.addend.cast_unsigned(), 8),
    ];
    put_fields(&fields, into)
}
