//! Changing the list of cells.

ghost use Rattle.std.specs.Prelude.{◌≡◌, ◌<◌, ◌≤◌, ◌+◌, OnErr, OnOk, length, nat_lt, vec_capacity, vec_len};
ghost use Rattle.std.specs.List.{position_or_len};
ghost use Rattle.cell_space.specs.Named.{LacksName, is_higher, put_into, with_cell, with_name, with_state, without};
ghost use Rattle.cell_space.specs.Rising.{IsRising};

use crate::cell::SpaceCell;
use crate::lookup::cells_before;
use cell_world::Standing;
use std::alloc::{AllocError, Global};

/// Where a cell of a number is to stand: before the first of a higher number.
fn place_for(cells: &[SpaceCell], number: u32) -> usize
    requires { IsRising cells.now }
    ensures place { result ≡ position_or_len (is_higher number) cells.now }
    ensures inside { result ≤ length cells.now }
{
    cells.partition_point(
        |cell: &SpaceCell| -> bool
            ensures { result ≡ nat_lt cell.now.cell.0 (number + 1) }
        { cell.cell.0 <= number },
    )
}

/// Puts a cell into a state, where it has the number.
fn put_into(cell: &mut SpaceCell, number: u32, state: Standing)
    ensures { cell.new ≡ put_into state number cell.old }
{
    if cell.is_numbered(number) {
        cell.state = state;
    }
}

/// Puts the cell of a number into a state.
pub fn set_state(cells: &mut Vec<SpaceCell>, number: u32, state: Standing)
    ensures items { cells.new.items ≡ with_state state number cells.old.items }
    ensures len { vec_len cells.new ≡ vec_len cells.old }
    ensures capacity { vec_capacity cells.new ≡ vec_capacity cells.old }
{
    for cell in cells.iter_mut() {
        put_into(cell, number, state);
    }
}

/// Adds a name to the cell of a number, which lacks it.
pub fn add_name(
    cells: &mut Vec<SpaceCell>,
    alloc: Global,
    number: u32,
    name: &[u8],
    symbol: u32,
) -> Result<(), AllocError>
    requires rising { IsRising cells.old.items }
    requires lacks { LacksName cells.old.items number name.now }
    ensures added { OnOk result (cells.new.items ≡ with_name number (record { name = name.now; symbol = symbol }) cells.old.items) }
    ensures unchanged { OnErr result (cells.new.items ≡ cells.old.items) }
{
    let place = cells_before(cells, number);
    cells[place].add_name(alloc, name, symbol)
}

/// Adds a cell to cells that have room, before those of higher numbers; this takes no memory.
pub fn insert_cell(cells: &mut Vec<SpaceCell>, cell: SpaceCell)
    requires rising { IsRising cells.old.items }
    requires room { vec_len cells.old < vec_capacity cells.old }
    ensures items { cells.new.items ≡ with_cell cell cells.old.items }
    ensures len { vec_len cells.new ≡ vec_len cells.old + 1 }
    ensures capacity { vec_capacity cells.old ≤ vec_capacity cells.new }
{
    let place = place_for(cells, cell.cell.0);
    let _ = cells.insert(place, cell);
}

/// Takes the cell of a number away.
pub fn remove_cell(cells: &mut Vec<SpaceCell>, number: u32)
    ensures items { cells.new.items ≡ without number cells.old.items }
    ensures len { vec_len cells.new ≤ vec_len cells.old }
    ensures capacity { vec_capacity cells.new ≡ vec_capacity cells.old }
{
    cells.retain(|cell| !cell.is_numbered(number));
}
