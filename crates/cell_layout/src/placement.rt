//! A new cell in the lowest free runs.

ghost use Rattle.std.specs.Prelude.{◌≡◌, ◌<◌, ◌^◌};
ghost use Rattle.cell_object.specs.Sound.{IsSoundObject};
ghost use Rattle.cell_layout.specs.Placing.{Places};
ghost use Rattle.cell_layout.specs.declared.placement.PlaceFail.TheVariants.{NoRoom, OutOfMemory};

use crate::layout::lay_out;
use crate::places::places;
use crate::regions::regions;
use crate::starts::take_runs;
use cell_num::Listed;
use cell_object::Object;
use cell_place::{NoRun, Space};
use cell_world::{Region, SecPlace};
use std::alloc::{AllocError, Global};

/// Where a new cell's sections stand, and its regions, whose fields are not written yet.
#[derive(Drop)]
pub struct Placement {
    pub places: Listed<SecPlace>,
    pub regions: Vec<Region>,
}

/// Why a new cell has no place.
#[derive(Clone, Copy, Debug, PartialEq, Eq)]
pub enum PlaceFail {
    /// No free run is long enough for one of its classes.
    NoRoom(NoRun),
    OutOfMemory,
}

impl From<AllocError> for PlaceFail {
    ghost from_gives = { λ _ e. e ≡ OutOfMemory };

    fn from(_error: AllocError) -> PlaceFail {
        PlaceFail::OutOfMemory
    }
}

impl From<NoRun> for PlaceFail {
    ghost from_gives = { λ none e. e ≡ NoRoom none };

    fn from(none: NoRun) -> PlaceFail {
        PlaceFail::NoRoom(none)
    }
}

/// Takes the runs of the cell's classes in the space, and lays its sections out in them.
pub fn place(alloc: Global, space: &mut Space, object: &Object) -> Result<Placement, PlaceFail>
    requires { IsSoundObject object.now }
    ensures { Places space.old object.now result space.new }
{
    let layout = lay_out(alloc, object.sections.as_slice())?;
    let starts = take_runs(space, &layout.ends)?;
    let places = places(alloc, &starts, object, &layout.offsets)?;
    let regions = regions(alloc, &starts, object)?;
    Ok(Placement {
        places: Listed::from_vec(places),
        regions,
    })
}
