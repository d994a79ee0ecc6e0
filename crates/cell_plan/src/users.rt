//! The cells that a change may change.

ghost use Rattle.std.specs.Prelude.{◌≡◌, ◌++◌, ◌∷◌, [], ℕ, IfOk, OnOk, filter, map};
ghost use Rattle.cell_graph.specs.Users.{is_marked};
ghost use Rattle.cell_plan.specs.Marked.{has_mark};
ghost use Rattle.cell_plan.specs.Users.{leads_among, may_change as may_change_by};

use crate::marks::is_marked;
use crate::old::Old;
use cell_graph::Graph;
use cell_num::CellId;
use cell_world::NewCell;
use std::alloc::{AllocError, Global};

/// Marks the cells with a link into one of some cells, by their numbers.
fn mark_users(alloc: Global, graph: &Graph, old: &Old) -> Result<Vec<bool>, AllocError>
    ensures { IfOk result (λ marks. (n : ℕ) → is_marked marks.items n ≡ leads_among (map (λ c. c.0) old.now.cells.now) graph.now.rows n) }
{
    let mut marks = Vec::new(alloc);
    let mut near = 0;
    for index in 0..old.cells.len() {
        near = graph.mark_users_of(old.cells[index], near, &mut marks)?;
    }
    Ok(marks)
}

/// Marks of cells that use others, and some cells themselves.
#[derive(Drop)]
struct Marks<'a> {
    of_old: Vec<bool>,
    of_soft: Vec<bool>,
    soft: &'a Old<'a>,
}

impl<'a> Marks<'a> {
    /// Whether the cell is one of them.
    fn has(&self, cell: CellId) -> bool
        ensures { result ≡ has_mark self.now cell.0 }
    {
        is_marked(&self.of_old, cell) || is_marked(&self.of_soft, cell) || self.soft.has(cell)
    }
}

/// Adds the cell, where it is marked.
fn add_marked<'a>(
    users: &mut Vec<&'a NewCell>,
    marks: &Marks,
    cell: &'a NewCell,
) -> Result<(), AllocError>
    ensures { OnOk result (map (λ c. c.now) users.new.items ≡ map (λ c. c.now) users.old.items ++ filter (λ c. has_mark marks.now c.id.0) (cell.now ∷ [])) }
{
    if marks.has(cell.id) {
        users.push(cell)?;
    }
    Ok(())
}

/// Those of the cells that are marked.
fn marked<'a>(
    alloc: Global,
    cells: &'a [NewCell],
    marks: &Marks,
) -> Result<Vec<&'a NewCell>, AllocError>
    ensures { IfOk result (λ users. map (λ c. c.now) users.items ≡ filter (λ c. has_mark marks.now c.id.0) cells.now) }
{
    let mut users = Vec::new(alloc);
    for index in 0..cells.len() {
        add_marked(&mut users, marks, &cells[index])?;
    }
    Ok(users)
}

/// The present cells that may change, in their order: those with a link into an old cell, those with one
/// into a cell that has a WEAK symbol, since it may yield a name, and the latter themselves. It goes over
/// these links alone, and once over the cells.
pub fn may_change<'a>(
    alloc: Global,
    present: &'a [NewCell],
    graph: &Graph,
    old: &Old,
    soft: &Old,
) -> Result<Vec<&'a NewCell>, AllocError>
    ensures { IfOk result (λ users. map (λ c. c.now) users.items ≡ filter (may_change_by (map (λ c. c.0) old.now.cells.now) (map (λ c. c.0) soft.now.cells.now) graph.now.rows) present.now) }
{
    let marks = Marks {
        of_old: mark_users(alloc, graph, old)?,
        of_soft: mark_users(alloc, graph, soft)?,
        soft,
    };
    let users = marked(alloc, present, &marks)?;
    Ok(users)
}
