//! How many bytes an image has.

ghost use Rattle.std.specs.Prelude.{◌≤◌, ◌^◌, ◌-◌, length, min};
ghost use Rattle.std.specs.List.{sum_by};
ghost use Rattle.cell_object.specs.ImageParts.{content as content_of};

use crate::headers::content;
use crate::symbols::SymbolTables;
use cell_object::elf::ROW_LEN;
use cell_object::{Object, Section};

/// As many bytes as the ELF header, the headers and names of the three tables, and what fills up
/// their parts have together, or more.
const FIXED: usize = 512;

/// As many bytes as the headers of a section and of its relocations have, with the ends of their
/// names and what fills up their parts, or more.
const BESIDE: usize = 160;

/// As many bytes as the image of an object with these tables of its symbols has, or a few more: so
/// the file never moves while it grows. The contents of all sections fit into it.
pub fn room(object: &Object, symbols: &SymbolTables) -> usize
    ensures { min (sum_by (λ s. length (content_of s)) object.now.sections) (2 ^ 64 - 1) ≤ result }
{
    let entries = object.entries.as_slice().len();
    let mut room = entries
        .saturating_mul(ROW_LEN as usize)
        .saturating_add(symbols.symbols.len())
        .saturating_add(symbols.strings.len())
        .saturating_add(FIXED);
    for section in object.sections.as_slice() {
        room = room.saturating_add(section_room(section));
    }
    room
}

/// The same for the content, the headers and the name of a section.
fn section_room(section: &Section) -> usize
    ensures { length (content_of section.now) ≤ result }
{
    let name = section.name.as_slice().len();
    content(section)
        .len()
        .saturating_add(name)
        .saturating_add(name)
        .saturating_add(BESIDE)
}
