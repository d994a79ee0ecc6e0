//! The holder of a cell.

ghost use Rattle.std.specs.Prelude.{◌≡◌, ◌==◌, ◌&&◌, ℕ, List, map, not};
ghost use Rattle.cell_world.specs.Kept.{holder_in, holding_task, kept_in, reaches};
ghost use Rattle.cell_hold.specs.Reached.{claimant, first_reaching, linked, rooted, task_holds};
ghost use Rattle.cell_hold.specs.Roots.{holding_by};

use crate::bytes::stack_of;
use crate::leads::reaches;
use crate::places::Places;
use crate::roots::{Root, TaskView};
use crate::sections::Sections;
use crate::words::{numbers_lead, word_leads, words_lead};
use cell_graph::Graph;
use cell_mem::Memory;
use cell_num::{CellId, Holder};

/// Whether a task began in the cell or has a word in it.
fn task_holds(memory: &Memory, places: &Sections, task: &TaskView, cell: CellId) -> bool
    ensures { result ≡ task_holds memory.now places.now task.now cell.0 }
{
    if task.root.0 == cell.0 || word_leads(places, task.pc, cell) {
        return true;
    }
    let numbers = &task.x[1..];
    if numbers_lead(places, numbers, cell) {
        return true;
    }
    let bytes = stack_of(memory, task);
    words_lead(places, bytes, cell)
}

/// The task that holds the cell by this root.
fn held_by(memory: &Memory, places: &Sections, root: &Root, cell: CellId) -> Option<u32>
    ensures { result ≡ claimant memory.now places.now root.now cell.0 }
{
    match root {
        Root::Task(task) if task_holds(memory, places, task.get(), cell) => Some(task.get().task),
        Root::Word(task, word) if word_leads(places, *word, cell) => Some(*task),
        _ => None,
    }
}

/// The first task that holds the cell.
fn holding_task(memory: &Memory, places: &Sections, roots: &[Root], cell: CellId) -> Option<Holder>
    ensures { result ≡ holding_task (rooted memory.now places.now roots.now) cell.0 }
{
    for root in roots {
        match held_by(memory, places, root, cell) {
            Some(task) => return Some(Holder::Task(task)),
            None => {}
        }
    }
    None
}

/// Whether another cell reaches the cell.
fn is_holder(graph: &Graph, memory: &Memory, places: &Sections, other: CellId, cell: CellId) -> bool
    ensures { result ≡ (not (other.0 == cell.0) && reaches (linked graph.now memory.now places.now) other.0 cell.0) }
{
    other.0 != cell.0 && reaches(graph, memory, places, other, cell)
}

/// The first other of the cells that reaches the cell.
fn holding_cell(
    graph: &Graph,
    memory: &Memory,
    places: &Sections,
    cells: &[CellId],
    cell: CellId,
) -> Option<Holder>
    ensures { result ≡ first_reaching (linked graph.now memory.now places.now) (map (λ c. c.0) cells.now) cell.0 }
{
    for other in cells {
        if is_holder(graph, memory, places, *other, cell) {
            return Some(Holder::Cell(*other));
        }
    }
    None
}

/// The holder of a cell, among sections by their cells and addresses.
fn find_holder(
    graph: &Graph,
    memory: &Memory,
    places: &Sections,
    roots: &[Root],
    kept: &[CellId],
    cell: CellId,
) -> Option<Holder>
    ensures { (cells : List ℕ) → map (λ c. c.0) kept.now ≡ kept_in (holding_by cells graph.now memory.now places.now roots.now) → result ≡ holder_in (holding_by cells graph.now memory.now places.now roots.now) cell.0 }
{
    match holding_task(memory, places, roots, cell) {
        Some(task) => Some(task),
        None => holding_cell(graph, memory, places, kept, cell),
    }
}

/// What keeps a cell: the first task, in the order of the roots, that began in it or has a word in
/// it, or else the lowest of the kept cells, other than the cell itself, that reaches it. None
/// where nothing does. `kept` has the kept cells, ascending. This takes no memory.
pub fn holder_of(
    graph: &Graph,
    memory: &Memory,
    places: &Places,
    roots: &[Root],
    kept: &[CellId],
    cell: CellId,
) -> Option<Holder>
    ensures { (cells : List ℕ) → map (λ c. c.0) kept.now ≡ kept_in (holding_by cells graph.now memory.now places.now roots.now) → result ≡ holder_in (holding_by cells graph.now memory.now places.now roots.now) cell.0 }
{
    find_holder(graph, memory, &places.sections, roots, kept, cell)
}
