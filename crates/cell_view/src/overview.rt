//! All cells with their sections.

ghost use Rattle.std.specs.Prelude.{◌≡◌, IfOk, IsTrue, map, nat_lt};
ghost use Rattle.cell_num.specs.Lists.{each_pair, In};
ghost use Rattle.cell_world.specs.Commands.MapCommand.{map_cell as shown_cell, next_map};
ghost use Rattle.cell_world.specs.World.{Cell};
ghost use Rattle.cell_machine.specs.Machine.{IsSound, world_of};
ghost use Rattle.cell_world.specs.Following.{Follows};
ghost use Rattle.cell_view.specs.Shows.{section_shown};
ghost use Rattle.cell_machine.specs.Does.{answer_in};

use cell_machine::Machine;
use cell_num::Listed;
use cell_object::Section;
use cell_placed::start_of;
use cell_world::{Fail, MapCell, MapSection, NewCell, Reply};
use std::alloc::{AllocError, Global};

fn map_section(cell: &NewCell, section: &Section) -> MapSection
    requires { IsTrue (each_pair (λ a b. nat_lt a.section b.section) cell.now.places) }
    ensures { result ≡ section_shown cell.now section.now }
{
    MapSection {
        section: section.number,
        write: section.write,
        exec: section.exec,
        start: start_of(cell, section.number),
        size: section.size,
    }
}

fn map_sections(alloc: Global, cell: &NewCell) -> Result<Vec<MapSection>, AllocError>
    requires { IsTrue (each_pair (λ a b. nat_lt a.section b.section) cell.now.places) }
    ensures { IfOk result (λ sections. sections.items ≡ map (section_shown cell.now) cell.now.object.sections) }
{
    let mut sections = Vec::new(alloc);
    for section in cell.object.sections.as_slice() {
        sections.push(map_section(cell, section))?;
    }
    Ok(sections)
}

fn map_cell(alloc: Global, machine: &Machine, cell: &NewCell) -> Result<MapCell, AllocError>
    requires sound { IsSound machine.now }
    requires there { In cell.now machine.now.cells.items }
    ensures { IfOk result (λ shown. (c : Cell) → In c (world_of machine.now).cells → c.placed ≡ cell.now → shown ≡ shown_cell (world_of machine.now) c) }
{
    Ok(MapCell {
        cell: cell.id,
        ns: machine.spaces.ns_name(cell.ns).copy(alloc)?,
        stem: cell.stem.copy(alloc)?,
        file: cell.file.copy(alloc)?,
        group: machine.group(cell),
        sections: Listed::from_vec(map_sections(alloc, cell)?),
    })
}

fn map_cells(alloc: Global, machine: &Machine) -> Result<Vec<MapCell>, AllocError>
    requires { IsSound machine.now }
    ensures { IfOk result (λ shown. shown.items ≡ map (shown_cell (world_of machine.now)) (world_of machine.now).cells) }
{
    let mut shown = Vec::new(alloc);
    let cells = machine.cells.as_slice();
    for index in 0..cells.len() {
        shown.push(map_cell(alloc, machine, &cells[index])?)?;
    }
    Ok(shown)
}

/// Shows all cells, in the order of their numbers.
pub fn map(alloc: Global, machine: &Machine) -> Result<Reply, Fail>
    requires { IsSound machine.now }
    ensures { Follows (answer_in (world_of machine.now)) result (next_map (world_of machine.now)) }
{
    let cells = Listed::from_vec(map_cells(alloc, machine)?);
    Ok(Reply::Map { cells })
}
