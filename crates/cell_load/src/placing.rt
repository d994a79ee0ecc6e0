//! New cells in the lowest free runs of a space.

ghost use Rattle.std.specs.Prelude.{All};
ghost use Rattle.cell_object.specs.Sound.{IsSoundObject};
ghost use Rattle.cell_load.specs.Places.{PlaceFails, Stands};

use cell_layout::{PlaceFail, TakenRuns, place_cells};
use cell_place::Space;
use cell_world::{Fail, NewCell, Refusal};
use std::alloc::Global;

/// Why the cells have no places: E11, or want of memory.
fn place_failed(fail: PlaceFail) -> Fail
    ensures { PlaceFails fail result }
{
    match fail {
        PlaceFail::NoRoom(none) => Fail::Refused(Refusal::Exhausted {
            wanted: none.wanted,
            largest: none.largest,
        }),
        PlaceFail::OutOfMemory => Fail::OutOfMemory,
    }
}

/// Puts the cells in their places, and finds one more run behind theirs, of `extra` pages, unless these
/// are none. The answer is a copy of the space with the runs of the cells. After an error the cells are
/// as before.
pub fn place(
    alloc: Global,
    space: &Space,
    cells: &mut [NewCell],
    extra: u32,
) -> Result<(Space, TakenRuns), Fail>
    requires { All (λ c. IsSoundObject c.object) cells.old }
    ensures { Stands space.now cells.old extra result cells.new }
{
    let mut copy = space.copy(alloc)?;
    match place_cells(alloc, &mut copy, cells, extra) {
        Ok(taken) => Ok((copy, taken)),
        Err(fail) => Err(place_failed(fail)),
    }
}
