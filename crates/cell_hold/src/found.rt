//! A list of cells that has each of them once, in room that the caller made.

ghost use Rattle.std.specs.Prelude.{◌≡◌, ◌<◌, ◌==◌, [], true, length, slice_index_or, slice_set, vec_capacity};
ghost use Rattle.cell_hold.specs.Adds.{Adds, has_cell};

use cell_num::CellId;
use std::marker::Model;

/// The cells in their order, and a mark for each low number: whether its cell is among them. So
/// only cells of high numbers are looked for in the list.
#[derive(Drop)]
pub struct Found {
    cells: Vec<CellId>,
    marks: Vec<bool>,
}

impl Model for Found {
    ghost use Rattle.std.specs.Prelude.{vec_capacity};
    ghost use Rattle.cell_hold.specs.Adds.{AreMarked, Roomy};

    ghost Value = { Roomy };

    ghost view = { λ f. record { items = f.cells.items; room = vec_capacity f.cells } };

    ghost invariant = { λ f. AreMarked f.cells.items f.marks.items };
}

/// Whether the cell is in the list.
fn is_listed(cells: &[CellId], cell: CellId) -> bool
    ensures { result ≡ has_cell cells.now cell.0 }
{
    for place in (0..cells.len()).rev() {
        if cells[place].0 == cell.0 {
            return true;
        }
    }
    false
}

/// Marks the cell, if there is a mark for its number.
fn mark(marks: &mut [bool], cell: CellId)
    ensures { marks.new ≡ slice_set marks.old cell.0 true }
{
    let place = cell.0 as usize;
    if place < marks.len() {
        marks[place] = true;
    }
}

impl Found {
    /// None so far, to come into a list that is empty. The marks may be any before.
    pub fn none(cells: Vec<CellId>, mut marks: Vec<bool>) -> Found
        requires { cells.items ≡ [] }
        ensures items { result.items ≡ [] }
        ensures room { result.room ≡ vec_capacity cells }
    {
        marks.fill(false);
        Found { cells, marks }
    }

    /// The list, and the marks.
    pub fn into_parts(self) -> (Vec<CellId>, Vec<bool>)
        ensures items { result.0.items ≡ self.items }
        ensures room { vec_capacity result.0 ≡ self.room }
    {
        (self.cells, self.marks)
    }

    pub fn len(&self) -> usize
        ensures { result ≡ length self.now.items }
    {
        self.cells.len()
    }

    /// For how many cells there is room.
    pub fn room(&self) -> usize
        ensures { result ≡ self.now.room }
    {
        self.cells.capacity()
    }

    /// The cell at this place of the list.
    pub fn at(&self, place: usize) -> CellId
        requires { place < length self.now.items }
        ensures { result ≡ slice_index_or self.now.items place result }
    {
        self.cells[place]
    }

    /// Whether the cell is among them.
    pub fn has(&self, cell: CellId) -> bool
        ensures { result ≡ has_cell self.now.items cell.0 }
    {
        let place = cell.0 as usize;
        if place < self.marks.len() {
            return self.marks[place];
        }
        is_listed(&self.cells, cell)
    }

    /// Adds a cell, unless it is there. There is room for all that are ever added: a full list has them.
    pub fn add(&mut self, cell: CellId)
        ensures added { Adds (λ c. cell.0 == c) self.old.room self.old.items self.new.items }
        ensures room { self.new.room ≡ self.old.room }
    {
        if self.has(cell) {
            return;
        }
        if self.cells.len() >= self.cells.capacity() {
            return;
        }
        self.cells.push_reserved(cell);
        mark(&mut self.marks, cell);
    }
}
