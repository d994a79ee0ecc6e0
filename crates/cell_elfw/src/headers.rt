//! The section headers. gABI, "Sections"

ghost use Rattle.std.specs.Prelude.{◌≡◌, ◌<◌, ◌++◌, OnOk};
ghost use Rattle.cell_object.specs.ImageParts.{content as content_of, strtab_number as strtab_number_of};
ghost use Rattle.cell_object.specs.Image.{section_row as section_row_of, section_flags as flags_of, fill_type as type_of_fill, rela_row as rela_row_of, strings_row as strings_row_of, symtab_row_at, null_row as the_null_row};
ghost use Rattle.cell_object.specs.Rows.{section_row_bytes};

use crate::number::put_fields;
use crate::symbols::local_count;
use cell_object::elf::{
    ROW_LEN, SHF_ALLOC, SHF_EXECINSTR, SHF_INFO_LINK, SHF_WRITE, SHT_NOBITS, SHT_NOTE,
    SHT_PROGBITS, SHT_RELA, SHT_STRTAB, SHT_SYMTAB,
};
use cell_object::{Fill, Object, Section};
use std::alloc::AllocError;

/// Where the name of a section and its bytes stand, and how many bytes there are.
#[derive(Clone, Copy)]
pub struct Place {
    pub name: u64,
    pub offset: u64,
    pub size: u64,
}

/// The bytes of a section that stand in the file.
pub fn content(section: &Section) -> &[u8]
    ensures { result.now ≡ content_of section.now }
{
    match section.fill {
        Fill::Prog | Fill::Note => section.bytes.as_slice(),
        Fill::Zero => &[],
    }
}

fn fill_type(fill: Fill) -> u64
    ensures { result ≡ type_of_fill fill }
{
    match fill {
        Fill::Prog => SHT_PROGBITS as u64,
        Fill::Note => SHT_NOTE as u64,
        Fill::Zero => SHT_NOBITS as u64,
    }
}

fn section_flags(section: &Section) -> u64
    ensures { result ≡ flags_of section.now }
{
    let write = if section.write { SHF_WRITE } else { 0 };
    let exec = if section.exec { SHF_EXECINSTR } else { 0 };
    SHF_ALLOC + write + exec
}

/// The number of the section of the symbols' names.
fn strtab_number(object: &Object) -> u64
    ensures { result ≡ strtab_number_of object.now }
{
    object.sections.as_slice().len() as u64 + 2
}

/// Appends section header 0.
#[tactic(auto, unfolding(cell_object::specs::Rows::section_row_bytes))]
pub fn put_null_row(into: &mut Vec<u8>) -> Result<(), AllocError>
    ensures { OnOk result (into.new.items ≡ into.old.items ++ section_row_bytes the_null_row) }
{
    let fields = [
        (0, 4),
        (0, 4),
        (0, 8),
        (0, 8),
        (0, 8),
        (0, 8),
        (0, 4),
        (0, 4),
        (0, 8),
        (0, 8),
    ];
    put_fields(&fields, into)
}

/// Appends the header of a section of the object.
#[tactic(auto, unfolding(cell_object::specs::Rows::section_row_bytes))]
pub fn put_section_row(
    name: u64,
    offset: u64,
    section: &Section,
    into: &mut Vec<u8>,
) -> Result<(), AllocError>
    ensures { OnOk result (into.new.items ≡ into.old.items ++ section_row_bytes (section_row_of name offset section.now)) }
{
    let kind = fill_type(section.fill);
    let flags = section_flags(section);
    let fields = [
        (name, 4),
        (kind, 4),
        (flags, 8),
        (0, 8),
        (offset, 8),
        (section.size as u64, 8),
        (0, 4),
        (0, 4),
        (section.align as u64, 8),
        (0, 8),
    ];
    put_fields(&fields, into)
}

/// Appends the header of the relocations of the section with a number.
#[tactic(auto, unfolding(cell_object::specs::Rows::section_row_bytes))]
pub fn put_rela_row(
    symtab: u64,
    place: &Place,
    number: u64,
    into: &mut Vec<u8>,
) -> Result<(), AllocError>
    ensures { OnOk result (into.new.items ≡ into.old.items ++ section_row_bytes (rela_row_of symtab place.now.name place.now.offset place.now.size number)) }
{
    let fields = [
        (place.name, 4),
        (SHT_RELA as u64, 4),
        (SHF_INFO_LINK, 8),
        (0, 8),
        (place.offset, 8),
        (place.size, 8),
        (symtab, 4),
        (number, 4),
        (8, 8),
        (ROW_LEN, 8),
    ];
    put_fields(&fields, into)
}

/// Appends the header of the symbols, whose names stand in the section after theirs.
#[tactic(auto, unfolding(cell_object::specs::Rows::section_row_bytes))]
pub fn put_symtab_row(object: &Object, place: &Place, into: &mut Vec<u8>) -> Result<(), AllocError>
    ensures { OnOk result (into.new.items ≡ into.old.items ++ section_row_bytes (symtab_row_at object.now place.now.name place.now.offset place.now.size)) }
{
    let strtab = strtab_number(object);
    let info = local_count(object.symbols.as_slice()) as u64 + 1;
    let fields = [
        (place.name, 4),
        (SHT_SYMTAB as u64, 4),
        (0, 8),
        (0, 8),
        (place.offset, 8),
        (place.size, 8),
        (strtab, 4),
        (info, 4),
        (8, 8),
        (ROW_LEN, 8),
    ];
    put_fields(&fields, into)
}

/// Appends the header of a string table.
#[tactic(auto, unfolding(cell_object::specs::Rows::section_row_bytes))]
pub fn put_strings_row(place: &Place, into: &mut Vec<u8>) -> Result<(), AllocError>
    ensures { OnOk result (into.new.items ≡ into.old.items ++ section_row_bytes (strings_row_of place.now.name place.now.offset place.now.size)) }
{
    let fields = [
        (place.name, 4),
        (SHT_STRTAB as u64, 4),
        (0, 8),
        (0, 8),
        (place.offset, 8),
        (place.size, 8),
        (0, 4),
        (0, 4),
        (1, 8),
        (0, 8),
    ];
    put_fields(&fields, into)
}
