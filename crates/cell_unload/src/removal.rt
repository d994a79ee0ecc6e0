//! The removal of cells. It takes no memory and can't fail.

ghost use Rattle.std.specs.Prelude.{◌≡◌, ◌==◌, All, IsTrue, false, filter, map, nat_lt, not};
ghost use Rattle.std.specs.List.{list_any};
ghost use Rattle.cell_graph.specs.Removal.{is_outside_use, is_used_outside, links_without, sections_without};
ghost use Rattle.cell_machine.specs.Machine.{IsSound, world_of};
ghost use Rattle.cell_machine.specs.Staged.{all_attached};
ghost use Rattle.cell_num.specs.Lists.{each_pair, holds};
ghost use Rattle.cell_space.specs.Spaces.{HasCell};
ghost use Rattle.cell_world.specs.Answer.{numbers_of};
ghost use Rattle.cell_unload.specs.Removed.{CanGo, IsRemoved, IsTaken};
ghost use Rattle.cell_unload.specs.Unmapped.{CanLeave, IsTabled, lost_starts, without_regions};

use crate::regions::unmap_cell;
use cell_graph::Graph;
use cell_machine::Machine;
use cell_mem::Memory;
use cell_num::CellId;
use cell_place::Space;
use cell_space::Spaces;
use cell_world::NewCell;

fn is_listed(cells: &[CellId], cell: CellId) -> bool
    ensures { result ≡ list_any (λ c. c.0 == cell.0) cells.now }
{
    cells.iter().any(|other| other.0 == cell.0)
}

/// Unmaps the regions of those of the cells that are listed.
fn unmap_cells(present: &[NewCell], memory: &mut Memory, space: &mut Space, cells: &[CellId])
    requires places { All (λ c. IsTrue (each_pair (λ a b. nat_lt a.section b.section) c.places)) present.now }
    requires tabled { IsTabled memory.old space.old }
    requires there { CanLeave memory.old (lost_starts (all_attached present.now) (map (λ c. c.0) cells.now)) }
    ensures memory { memory.new ≡ without_regions memory.old (lost_starts (all_attached present.now) (map (λ c. c.0) cells.now)) }
    ensures tabled { IsTabled memory.new space.new }
{
    for place in 0..present.len() {
        let cell = &present[place];
        if is_listed(cells, cell.id) {
            unmap_cell(memory, space, cell);
        }
    }
}

/// Takes the names of the cells away.
fn drop_cells(spaces: &mut Spaces, cells: &[CellId])
    requires present { All (λ c. HasCell spaces.old c.0) cells.now }
    requires rising { IsTrue (each_pair nat_lt (map (λ c. c.0) cells.now)) }
    ensures cells { spaces.new.cells ≡ filter (λ c. not (holds (map (λ d. d.0) cells.now) c.cell.0)) spaces.old.cells }
    ensures same_namespaces { spaces.new.namespaces ≡ spaces.old.namespaces }
{
    for place in 0..cells.len() {
        spaces.drop_cell(cells[place]);
    }
}

/// Takes the sections and the links of the cells away. No other cell has a link into them.
fn remove_links(graph: &mut Graph, cells: &[CellId])
    requires { is_used_outside cells.now graph.old.rows ≡ false }
    ensures rows { graph.new.rows ≡ links_without cells.now graph.old.rows }
    ensures sections { graph.new.sections ≡ sections_without cells.now graph.old.sections }
{
    match graph.remove_cells(cells) {
        Ok(()) => {}
        Err(_) => unreachable!(),
    }
}

/// Takes the cells themselves away.
fn leave_others(present: &mut Vec<NewCell>, cells: &[CellId])
    ensures { present.new.items ≡ filter (λ c. not (holds (map (λ d. d.0) cells.now) c.id.0)) present.old.items }
{
    present.retain(|cell| !is_listed(cells, cell.id));
}

/// Takes the cells out of a list.
fn leave_numbers(numbers: &mut Vec<CellId>, cells: &[CellId])
    ensures { numbers.new.items ≡ filter (λ c. not (holds (map (λ d. d.0) cells.now) c.0)) numbers.old.items }
{
    numbers.retain(|cell| !is_listed(cells, *cell));
}

/// Takes the cells with their names, links, sections, regions and pages away.
pub fn take_away(machine: &mut Machine, cells: &[CellId])
    requires { CanGo machine.old cells.now }
    ensures { IsTaken machine.old cells.now machine.new }
{
    // The regions stand apart, so none that stays loses a seal.
    machine.memory.laid_out();
    unmap_cells(
        &machine.cells,
        &mut machine.memory,
        &mut machine.space,
        cells,
    );
    drop_cells(&mut machine.spaces, cells);
    remove_links(&mut machine.graph, cells);
    leave_others(&mut machine.cells, cells);
    leave_numbers(&mut machine.soft, cells);
}

/// Removes the cells from a machine that is coherent and is so without them.
pub fn remove(machine: &mut Machine, cells: &[CellId])
    requires sound { IsSound machine.old }
    requires rising { IsTrue (each_pair nat_lt (map (λ c. c.0) cells.now)) }
    requires present { All (λ c. IsTrue (holds (numbers_of (world_of machine.old).cells) c.0)) cells.now }
    requires unused { list_any (is_outside_use cells.now) machine.old.graph.rows ≡ false }
    ensures { IsRemoved machine.old cells.now machine.new }
{
    take_away(machine, cells);
}
