//! Look-ups that try an index first.

ghost use Rattle.std.specs.Prelude.{◌≡◌, ◌≤◌, IsTrue, length, nat_le, nat_lt};
ghost use Rattle.cell_graph.specs.Lists.{IsCellRange, RowsRise};
ghost use Rattle.cell_graph.specs.Order.{IsCut};

use crate::order::{RowPlace, row_cell_start};
use cell_num::CellId;

/// Where to look first: behind the last link that was moved, and at the targets that it had.
#[derive(Clone, Copy, Debug, PartialEq, Eq)]
pub struct Near {
    pub row: usize,
    pub old: usize,
    pub new: usize,
}

impl Near {
    /// At the start of the lists.
    pub fn start() -> Near
        ensures { result ≡ record { row = 0; old = 0; new = 0 } }
    {
        Near {
            row: 0,
            old: 0,
            new: 0,
        }
    }
}

/// Whether the links before the index have users of lower cells, and those from it on don't.
fn is_cell_start(list: &[RowPlace], index: usize, cell: CellId) -> bool
    requires { RowsRise list.now }
    ensures within { IsTrue result → index ≤ length list.now }
    ensures cut { IsTrue result → IsCut (λ r. nat_lt r.user.cell.0 cell.0) list.now index }
{
    if index > list.len() {
        return false;
    }
    if index > 0 && list[index - 1].user.cell.0 >= cell.0 {
        return false;
    }
    index == list.len() || list[index].user.cell.0 >= cell.0
}

/// How many links have users of lower cells.
fn cell_start_near(list: &[RowPlace], near: usize, cell: CellId) -> usize
    requires { RowsRise list.now }
    ensures within { result ≤ length list.now }
    ensures cut { IsCut (λ r. nat_lt r.user.cell.0 cell.0) list.now result }
{
    if is_cell_start(list, near, cell) {
        return near;
    }
    row_cell_start(list, cell)
}

/// How many links have users of this cell or lower ones, which are counted one by one.
fn count_up_to(list: &[RowPlace], cell: CellId) -> usize
    requires { RowsRise list.now }
    ensures within { result ≤ length list.now }
    ensures cut { IsCut (λ r. nat_le r.user.cell.0 cell.0) list.now result }
{
    for index in 0..list.len() {
        if list[index].user.cell.0 > cell.0 {
            return index;
        }
    }
    list.len()
}

/// The links that the list names with users of the cell, and the index behind them.
pub fn cell_rows_near(list: &[RowPlace], near: usize, cell: CellId) -> (&[RowPlace], usize)
    requires { RowsRise list.now }
    ensures { IsCellRange list.now cell.0 result.0.now }
{
    let start = cell_start_near(list, near, cell);
    let rest = &list[start..];
    let count = count_up_to(rest, cell);
    (&rest[..count], start + count)
}
