//! The whole writer.

ghost use Rattle.std.specs.Prelude.{◌≡◌, ◌≤◌, ◌/◌, ◌++◌, length, drop, IfOk};
ghost use Rattle.cell_object.specs.Reads.{reads};
ghost use Rattle.cell_object.specs.Image.{image as image_of, null_row, symtab_row_at, strings_row};
ghost use Rattle.cell_object.specs.Rows.{header_bytes, section_row_bytes};
ghost use Rattle.cell_elfw.specs.Written.{IsReadAgain};

use crate::WriteFail;
use crate::draft::{Draft, TableNames};
use crate::headers::{Place, put_null_row, put_strings_row, put_symtab_row};
use crate::parts::put_part;
use crate::room::room;
use crate::rows::{Directory, put_header};
use crate::strings::put_string;
use crate::symbols::SymbolTables;
use crate::tables::by_section;
use cell_elf::{ReadFail, reads_as};
use cell_num::Shared;
use cell_object::Object;
use cell_object::elf::HEADER_LEN;
use std::alloc::{AllocError, Global};

/// Writes an object as the image that is read as it again: an ELF file with the object's sections in
/// their order, the symbols, and one table of relocations for each section that has entries.
pub fn write_object(alloc: Global, object: &Object) -> Result<Shared, WriteFail>
    ensures image { IfOk result (λ file. file ≡ image_of object.now) }
    ensures read { IsReadAgain object.now result (reads (image_of object.now)) }
{
    let file = Shared::from_vec(alloc, image(alloc, object)?)?;
    match reads_as(alloc, &file, object) {
        Ok(true) => Ok(file),
        Ok(false) => Err(WriteFail::Unwritable { rule: 0 }),
        Err(ReadFail::BadObject { rule, .. }) => Err(WriteFail::Unwritable { rule }),
        Err(ReadFail::OutOfMemory) => Err(WriteFail::OutOfMemory),
    }
}

/// Where the three tables stand.
#[derive(Clone, Copy)]
struct TablePlaces {
    symtab: Place,
    strtab: Place,
    shstrtab: Place,
}

/// The image of an object.
fn image(alloc: Global, object: &Object) -> Result<Vec<u8>, AllocError>
    ensures { IfOk result (λ file. file.items ≡ image_of object.now) }
{
    let sections = object.sections.as_slice();
    let symtab = sections.len() as u64 + 1;
    let symbols = SymbolTables::of(alloc, symtab, object.symbols.as_slice())?;
    let tables = by_section(alloc, sections.len(), object.entries.as_slice())?;
    let mut draft = Draft::of_sections(alloc, room(object, &symbols), sections)?;
    let names = TableNames::put(&mut draft.names)?;
    let symtab_offset = put_part(&symbols.symbols, &mut draft.file)?;
    draft.add_tables(object, &tables)?;
    let strtab_offset = put_part(&symbols.strings, &mut draft.file)?;
    let shstrtab_offset = put_part(&draft.names, &mut draft.file)?;
    let places = TablePlaces {
        symtab: Place {
            name: names.symtab,
            offset: symtab_offset,
            size: symbols.symbols.len() as u64,
        },
        strtab: Place {
            name: names.strtab,
            offset: strtab_offset,
            size: symbols.strings.len() as u64,
        },
        shstrtab: Place {
            name: names.shstrtab,
            offset: shstrtab_offset,
            size: draft.names.len() as u64,
        },
    };
    let headers = headers(alloc, &draft, object, &places)?;
    finished(draft.file, &headers, symtab + 2)
}

/// The section headers in their order.
fn headers(
    alloc: Global,
    draft: &Draft,
    object: &Object,
    places: &TablePlaces,
) -> Result<Vec<u8>, AllocError>
    ensures { IfOk result (λ headers. let p = places.now in headers.items ≡ section_row_bytes null_row ++ (draft.now.own_rows.items ++ (section_row_bytes (symtab_row_at object.now p.symtab.name p.symtab.offset p.symtab.size) ++ (section_row_bytes (strings_row p.strtab.name p.strtab.offset
        p.strtab.size) ++ (section_row_bytes (strings_row p.shstrtab.name p.shstrtab.offset p.shstrtab.size) ++ draft.now.table_rows.items))))) }
{
    let mut headers = Vec::new(alloc);
    put_null_row(&mut headers)?;
    headers.extend_from_slice(&draft.own_rows)?;
    put_symtab_row(object, &places.symtab, &mut headers)?;
    put_strings_row(&places.strtab, &mut headers)?;
    put_strings_row(&places.shstrtab, &mut headers)?;
    headers.extend_from_slice(&draft.table_rows)?;
    Ok(headers)
}

/// The file with its section headers behind it, and with its ELF header in place of the room for it.
fn finished(mut file: Vec<u8>, headers: &[u8], shstrndx: u64) -> Result<Vec<u8>, AllocError>
    requires { 64 ≤ length file.items }
    ensures { IfOk result (λ whole. whole.items ≡ header_bytes (length file.items) (length headers.now / 64) shstrndx ++ (drop 64 file.items ++ headers.now)) }
{
    let directory = Directory {
        shoff: file.len() as u64,
        shnum: headers.len() as u64 / HEADER_LEN,
        shstrndx,
    };
    let mut header = Vec::new(*file.allocator());
    put_header(directory, &mut header)?;
    file.extend_from_slice(headers)?;
    put_in_front(&header, &mut file);
    Ok(file)
}

/// Writes bytes over those that a file begins with.
fn put_in_front(front: &[u8], file: &mut [u8])
    requires { length front.now ≤ length file.old }
    ensures { file.new ≡ front.now ++ drop (length front.now) file.old }
{
    file[..front.len()].copy_from_slice(front);
}
