//! The routines of a swap, once its new cells have places.

ghost use Rattle.std.specs.Prelude.{◌≡◌, ◌<◌, ◌^◌, All, IfOk, IsTrue, map, nat_lt};
ghost use Rattle.cell_num.specs.Lists.{each_pair};
ghost use Rattle.cell_placed.specs.Low.{IsLow};
ghost use Rattle.cell_routines.specs.Begins.{begin_as};
ghost use Rattle.cell_routines.specs.Placed.{entry_among, routines_among};

use crate::entries::Begin;
use cell_placed::{cell_numbered, start_of};
use cell_world::{NewCell, Routine};
use std::alloc::{AllocError, Global};

/// The address of a place; 0 where no cell has that number.
fn entry_at(cells: &[NewCell], begin: &Begin) -> u64
    requires order { IsTrue (each_pair (λ a b. nat_lt a.id.0 b.id.0) cells.now) }
    requires low { All IsLow cells.now }
    requires offset { begin.now.offset < 2 ^ 32 }
    ensures { result ≡ entry_among cells.now (begin_as begin.now) }
{
    match cell_numbered(cells, begin.cell.0) {
        Some(cell) => start_of(cell, begin.section) + begin.offset,
        None => 0,
    }
}

/// The place of a routine among the words, of which memory has no room for 2^32.
fn number_of(place: usize) -> Result<u32, AllocError>
    ensures { IfOk result (λ number. number ≡ place) }
{
    match u32::try_from(place) {
        Ok(number) => Ok(number),
        Err(_) => Err(AllocError),
    }
}

/// The routines that begin there, numbered by their places in the list, now that the cells have places.
pub fn routines_at(
    alloc: Global,
    cells: &[NewCell],
    begins: &[Begin],
) -> Result<Vec<Routine>, AllocError>
    requires order { IsTrue (each_pair (λ a b. nat_lt a.id.0 b.id.0) cells.now) }
    requires low { All IsLow cells.now }
    requires offsets { All (λ b. b.offset < 2 ^ 32) begins.now }
    ensures { IfOk result (λ routines. routines.items ≡ routines_among cells.now (map begin_as begins.now)) }
{
    let mut routines = Vec::new(alloc);
    for (place, begin) in begins.iter().enumerate() {
        routines.push(Routine {
            name: number_of(place)?,
            entry: entry_at(cells, begin),
        })?;
    }
    Ok(routines)
}
