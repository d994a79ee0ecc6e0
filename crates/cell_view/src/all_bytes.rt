//! What all sections hold, in a dump.

ghost use Rattle.std.specs.Prelude.{◌≡◌, ◌<◌, ◌^◌, ◌++◌, IfOk, OnOk, flat_map, length};
ghost use Rattle.cell_num.specs.Lists.{In};
ghost use Rattle.cell_world.specs.declared.state.NewCell.{NewCell as SomeCell};
ghost use Rattle.cell_world.specs.declared.line.DumpLine.TheVariants.{Content};
ghost use Rattle.cell_world.specs.DumpLines.{content_lines, held_in, section_lines};
ghost use Rattle.cell_machine.specs.Machine.{IsSound, world_of};
ghost use Rattle.cell_placed.specs.Low.{IsLow};
ghost use Rattle.cell_view.specs.Whole.{content_shown};

use crate::section::held;
use cell_machine::Machine;
use cell_mem::Memory;
use cell_num::Bytes;
use cell_object::Section;
use cell_placed::start_of;
use cell_world::{DumpLine, NewCell, Part};
use std::alloc::{AllocError, Global};

fn content_line(alloc: Global, at: Part, addr: u64, bytes: &[u8]) -> Result<DumpLine, AllocError>
    ensures { IfOk result (λ line. line ≡ Content at addr bytes.now) }
{
    Ok(DumpLine::Content {
        at,
        addr,
        bytes: Bytes::from_vec(bytes.to_vec(alloc)?),
    })
}

/// Adds lines of 64 bytes each, of which the last may be shorter.
fn add_content(
    alloc: Global,
    at: Part,
    start: u64,
    bytes: &[u8],
    lines: &mut Vec<DumpLine>,
) -> Result<(), AllocError>
    requires low { start < 2 ^ 63 }
    requires few { length bytes.now < 2 ^ 32 }
    ensures { OnOk result (lines.new.items ≡ lines.old.items ++ content_lines at start bytes.now) }
{
    let mut addr = start;
    let mut rest = bytes;
    while !rest.is_empty() {
        let (front, later) = rest.split_at(rest.len().min(64));
        lines.push(content_line(alloc, at, addr, front)?)?;
        addr += 64;
        rest = later;
    }
    Ok(())
}

/// Adds what a section of the cell holds.
fn add_section(
    alloc: Global,
    memory: &Memory,
    cell: &NewCell,
    section: &Section,
    lines: &mut Vec<DumpLine>,
) -> Result<(), AllocError>
    requires { IsLow cell.now }
    ensures { OnOk result (lines.new.items ≡ lines.old.items ++ content_shown memory.now.regions cell.now section.now) }
{
    let number = section.number;
    let start = start_of(cell, number);
    let at = Part {
        cell: u64::from(cell.id.0),
        section: u64::from(number),
    };
    let bytes = held(memory, start, section.size);
    add_content(alloc, at, start, bytes, lines)
}

/// Adds what the sections of the cell hold.
fn add_sections(
    alloc: Global,
    memory: &Memory,
    cell: &NewCell,
    lines: &mut Vec<DumpLine>,
) -> Result<(), AllocError>
    requires { IsLow cell.now }
    ensures { OnOk result (lines.new.items ≡ lines.old.items ++ flat_map (content_shown memory.now.regions cell.now) cell.now.object.sections) }
{
    for section in cell.object.sections.as_slice() {
        add_section(alloc, memory, cell, section, lines)?;
    }
    Ok(())
}

/// Adds what the sections of each of the cells hold.
fn add_sections_of_cells(
    alloc: Global,
    memory: &Memory,
    cells: &[NewCell],
    lines: &mut Vec<DumpLine>,
) -> Result<(), AllocError>
    requires { (c : SomeCell) → In c cells.now → IsLow c }
    ensures { OnOk result (lines.new.items ≡ lines.old.items ++ flat_map (λ c. flat_map (content_shown memory.now.regions c) c.object.sections) cells.now) }
{
    for cell in cells {
        add_sections(alloc, memory, cell, lines)?;
    }
    Ok(())
}

/// Adds what the sections of all cells hold.
pub fn add_contents(
    alloc: Global,
    machine: &Machine,
    lines: &mut Vec<DumpLine>,
) -> Result<(), AllocError>
    requires { IsSound machine.now }
    ensures { OnOk result (lines.new.items ≡ lines.old.items ++ flat_map (λ c. flat_map (section_lines (held_in (world_of machine.now)) c) c.object.sections) (world_of machine.now).cells) }
{
    add_sections_of_cells(alloc, &machine.memory, &machine.cells, lines)
}
