//! Some cells by their numbers.

ghost use Rattle.std.specs.Prelude.{◌≡◌, ◌==◌, ◌<◌, ℕ, IfOk, length, map};
ghost use Rattle.std.specs.List.{list_any};
ghost use Rattle.cell_graph.specs.Users.{is_marked};
ghost use Rattle.cell_num.specs.Lists.{holds};

use crate::marks::is_marked;
use cell_graph::mark;
use cell_num::CellId;
use std::alloc::{AllocError, Global};

/// Among so many cells one is looked for sooner than among marks.
const FEW: usize = 4;

/// Some cells by their numbers, which are marked where they are many.
#[derive(Drop)]
pub struct Old<'a> {
    pub cells: &'a [CellId],
    marks: Vec<bool>,
    ghost are: { 4 < length cells.now → (q : ℕ) → is_marked marks.items q ≡ list_any (λ c. c.0 == q) cells.now },
}

/// Marks of these cells.
fn marks_of(alloc: Global, cells: &[CellId]) -> Result<Vec<bool>, AllocError>
    ensures { IfOk result (λ marks. (q : ℕ) → is_marked marks.items q ≡ list_any (λ c. c.0 == q) cells.now) }
{
    let mut marks = Vec::new(alloc);
    for index in 0..cells.len() {
        mark(&mut marks, cells[index])?;
    }
    Ok(marks)
}

/// The same, where they are many.
fn marks_of_many(alloc: Global, cells: &[CellId]) -> Result<Vec<bool>, AllocError>
    ensures { IfOk result (λ marks. 4 < length cells.now → (q : ℕ) → is_marked marks.items q ≡ list_any (λ c. c.0 == q) cells.now) }
{
    if cells.len() <= FEW {
        return Ok(Vec::new(alloc));
    }
    marks_of(alloc, cells)
}

fn is_among(cells: &[CellId], cell: CellId) -> bool
    ensures { result ≡ list_any (λ c. c.0 == cell.0) cells.now }
{
    cells.iter().any(|other| other.0 == cell.0)
}

impl<'a> Old<'a> {
    pub fn of(alloc: Global, cells: &'a [CellId]) -> Result<Old<'a>, AllocError>
        ensures { IfOk result (λ old. old.cells.now ≡ cells.now) }
    {
        let marks = marks_of_many(alloc, cells)?;
        Ok(Old { cells, marks })
    }

    #[tactic(auto, using(crate::proofs::Lists::any_map))]
    pub fn has(&self, cell: CellId) -> bool
        ensures { result ≡ holds (map (λ c. c.0) self.now.cells.now) cell.0 }
    {
        if self.cells.len() <= FEW {
            return is_among(self.cells, cell);
        }
        is_marked(&self.marks, cell)
    }
}
