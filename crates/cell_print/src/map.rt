//! Lines of a map.

ghost use Rattle.std.specs.Prelude.{◌≡◌, ◌++◌, OnOk};
ghost use Rattle.std.specs.List.{flat_map};
ghost use Rattle.cell_print.specs.Lines.{permission_word, section_line, cell_line, cell_lines, Extends};

use crate::Piece::{Dec, Hex, Name, Standing, Text};
use crate::put_line;
use cell_world::{MapCell, MapSection};
use std::alloc::AllocError;

/// Appends the lines of cells.
pub fn put_cells(cells: &[MapCell], into: &mut Vec<u8>) -> Result<(), AllocError>
    ensures ok { OnOk result (into.new.items ≡ into.old.items ++ flat_map cell_lines cells.now) }
    ensures extends { Extends into.old.items into.new.items }
{
    for cell in cells {
        put_cell(cell, into)?;
    }
    Ok(())
}

/// Appends the line of a cell and those of its sections.
fn put_cell(cell: &MapCell, into: &mut Vec<u8>) -> Result<(), AllocError>
    ensures ok { OnOk result (into.new.items ≡ into.old.items ++ cell_lines cell.now) }
    ensures extends { Extends into.old.items into.new.items }
{
    put_cell_line(cell, into)?;
    put_sections(cell.sections.as_slice(), into)
}

fn put_cell_line(cell: &MapCell, into: &mut Vec<u8>) -> Result<(), AllocError>
    ensures ok { OnOk result (into.new.items ≡ into.old.items ++ cell_line cell.now) }
    ensures extends { Extends into.old.items into.new.items }
{
    put_line(
        &[
            Text(b"  #"),
            Dec(cell.cell.0),
            Text(b" "),
            Name(&cell.ns),
            Text(b"/"),
            Name(&cell.stem),
            Text(b" "),
            Standing(cell.group),
            Text(b" "),
            Name(&cell.file),
        ],
        into,
    )
}

fn put_sections(sections: &[MapSection], into: &mut Vec<u8>) -> Result<(), AllocError>
    ensures ok { OnOk result (into.new.items ≡ into.old.items ++ flat_map section_line sections.now) }
    ensures extends { Extends into.old.items into.new.items }
{
    for section in sections {
        put_section(*section, into)?;
    }
    Ok(())
}

fn put_section(section: MapSection, into: &mut Vec<u8>) -> Result<(), AllocError>
    ensures ok { OnOk result (into.new.items ≡ into.old.items ++ section_line section) }
    ensures extends { Extends into.old.items into.new.items }
{
    put_line(
        &[
            Text(b"    "),
            Dec(u32::from(section.section)),
            Text(b" "),
            Text(permission_word(section)),
            Text(b" "),
            Hex(section.start),
            Text(b" "),
            Dec(section.size),
        ],
        into,
    )
}

fn permission_word(section: MapSection) -> &'static [u8]
    ensures { result.now ≡ permission_word section }
{
    if section.exec {
        b"rx"
    } else if section.write {
        b"rw"
    } else {
        b"ro"
    }
}
