//! New cells in the lowest free runs, and a run behind them.

ghost use Rattle.std.specs.Prelude.{◌≡◌, ◌≤◌, All, length};
ghost use Rattle.cell_object.specs.Sound.{IsSoundObject};
ghost use Rattle.cell_layout.specs.Many.{PlacesAll, with_places};

use crate::placement::PlaceFail;
use crate::placements::{Placements, place_each};
use crate::starts::find_extra;
use cell_num::Listed;
use cell_place::Space;
use cell_world::{NewCell, Region, SecPlace};
use std::alloc::Global;

/// What was taken: the regions of new cells, whose fields are not written yet. And where an extra run
/// starts, if there is one.
#[derive(Drop)]
pub struct TakenRuns {
    pub regions: Vec<Region>,
    pub extra: Option<u64>,
}

/// Puts each cell in its places.
fn settle(cells: &mut [NewCell], places: Vec<Listed<SecPlace>>)
    requires { length places.items ≤ length cells.old }
    ensures { cells.new ≡ with_places places.items cells.old }
{
    let mut next = 0;
    for places in places {
        let cell = &mut cells[next];
        cell.places = places;
        next += 1;
    }
}

/// Takes the runs of the cells' classes in the space, cell by cell, and puts the cells in their places.
/// Behind them it finds an extra run of so many pages, unless these are none. After an error the cells
/// are as before, and the space has some of the runs.
pub fn place_cells(
    alloc: Global,
    space: &mut Space,
    cells: &mut [NewCell],
    extra: u32,
) -> Result<TakenRuns, PlaceFail>
    requires { All (λ c. IsSoundObject c.object) cells.old }
    ensures { PlacesAll space.old cells.old extra result space.new cells.new }
{
    let Placements { places, regions } = place_each(alloc, space, cells)?;
    let extra = find_extra(space, extra)?;
    settle(cells, places);
    Ok(TakenRuns { regions, extra })
}
