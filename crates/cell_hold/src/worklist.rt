//! The kept cells.

ghost use Rattle.std.specs.Prelude.{◌≡◌, ◌≤◌, ℕ, List, [], length, map, take, vec_capacity};
ghost use Rattle.cell_world.specs.Kept.{kept_in};
ghost use Rattle.cell_hold.specs.Adds.{Spreads};
ghost use Rattle.cell_hold.specs.Places.{HasTargets};
ghost use Rattle.cell_hold.specs.Reached.{reaches_anew, reaches_on};
ghost use Rattle.cell_hold.specs.Roots.{AreCells, HasRoom, holding_by};

use crate::direct::{add_attached, add_held};
use crate::found::Found;
use crate::others::Others;
use crate::places::Places;
use crate::reached::{Near, Reading};
use crate::roots::Root;
use crate::sections::Sections;
use crate::used::add_used;
use cell_graph::Graph;
use cell_mem::Memory;
use cell_num::CellId;
use std::mem;

/// Adds what the cells reach, and what these reach, and so on: the list itself has those whose turn is still
/// to come. The links of the first so many are known.
fn spread(reading: &Reading<'_>, known: usize, into: &mut Found)
    requires { known ≤ length into.old.items }
    ensures spread { Spreads (reaches_on reading.now.graph.now reading.now.memory.now reading.now.places.now reading.now.others.now.items) (reaches_anew reading.now.graph.now reading.now.memory.now reading.now.places.now reading.now.others.now.items (take known into.old.items)) into.old.room into.old.room into.old.items into.new.items }
    ensures room { into.new.room ≡ into.old.room }
{
    let mut near = Near::start();
    for next in 0..into.room() {
        if next >= into.len() {
            return;
        }
        let cell = into.at(next);
        near = reading.add_reached(cell, next < known, near, into);
    }
}

/// The kept cells, ascending, in a list that is empty before; and the marks again. Whatever leads to an attached
/// cell is passed over: `others` gets the sections of all others, and of the attached cells' links those into
/// these are looked for from there.
fn list_kept(
    graph: &Graph,
    memory: &Memory,
    places: &Sections,
    others: &mut Others,
    roots: &[Root],
    cells: Vec<CellId>,
    marks: Vec<bool>,
) -> (Vec<CellId>, Vec<bool>)
    requires targets { HasTargets graph.now places.now }
    requires empty { cells.items ≡ [] }
    requires room { HasRoom places.now roots.now (vec_capacity cells) }
    requires others { length places.now ≤ others.old.room }
    ensures kept { (cells : List ℕ) → AreCells cells places.now roots.now → map (λ c. c.0) result.0.items ≡ kept_in (holding_by cells graph.now memory.now places.now roots.now) }
    ensures room { vec_capacity result.0 ≡ vec_capacity cells }
    ensures others { others.old.room ≤ others.new.room }
{
    let mut found = Found::none(cells, marks);
    add_attached(roots, &mut found);
    let attached = found.len();
    others.take(places.all(), &found);
    add_held(memory, others, roots, &mut found);
    add_used(graph, others, &mut found);
    let reading = Reading {
        graph,
        memory,
        places,
        others,
    };
    spread(&reading, attached, &mut found);
    let (mut kept, marks) = found.into_parts();
    kept.sort_unstable_by_key(|cell| cell.0);
    (kept, marks)
}

/// Puts the kept cells into `into`, ascending: those that the roots hold, and what these reach by
/// links and by aligned words of writable sections. A task counts with its root cell and its words,
/// of which those of the stack are read from the memory; both ends of a section count. `places` has
/// all sections that are present. This takes no memory.
pub fn kept(
    graph: &Graph,
    memory: &Memory,
    places: &mut Places,
    roots: &[Root],
    into: &mut Vec<CellId>,
)
    requires targets { HasTargets graph.now places.old }
    requires empty { into.old.items ≡ [] }
    requires room { HasRoom places.old roots.now (vec_capacity into.old) }
    ensures kept { (cells : List ℕ) → AreCells cells places.old roots.now → map (λ c. c.0) into.new.items ≡ kept_in (holding_by cells graph.now memory.now places.old roots.now) }
    ensures room { vec_capacity into.new ≡ vec_capacity into.old }
    ensures places { places.new ≡ places.old }
{
    let alloc = *into.allocator();
    let cells = mem::replace(into, Vec::new(alloc));
    let marks = mem::replace(&mut places.marks, Vec::new(alloc));
    let (cells, marks) = list_kept(
        graph,
        memory,
        &places.sections,
        &mut places.others,
        roots,
        cells,
        marks,
    );
    places.marks = marks;
    *into = cells;
}
