//! Where new cells come to stand, one after another, before anything in them is changed.

ghost use Rattle.std.specs.Prelude.{◌≡◌, ◌++◌, ◌∷◌, [], All, OnOk};
ghost use Rattle.cell_object.specs.Sound.{IsSoundObject};
ghost use Rattle.cell_layout.specs.Many.{FindsAll};

use crate::placement::{PlaceFail, Placement, place};
use cell_num::Listed;
use cell_place::Space;
use cell_world::{NewCell, Region, SecPlace};
use std::alloc::{AllocError, Global};

/// Where the sections of each cell stand, and the regions of all, whose fields are not written yet.
#[derive(Drop)]
pub struct Placements {
    pub places: Vec<Listed<SecPlace>>,
    pub regions: Vec<Region>,
}

impl Placements {
    /// Of no cell yet.
    fn new(alloc: Global) -> Placements
        ensures places { result.places.items ≡ [] }
        ensures regions { result.regions.items ≡ [] }
    {
        Placements {
            places: Vec::new(alloc),
            regions: Vec::new(alloc),
        }
    }

    /// Adds those of one more cell.
    fn add(&mut self, placement: Placement) -> Result<(), AllocError>
        ensures places { OnOk result (self.new.places.items ≡ self.old.places.items ++ placement.places ∷ []) }
        ensures regions { OnOk result (self.new.regions.items ≡ self.old.regions.items ++ placement.regions.items) }
    {
        let Placement { places, regions } = placement;
        append(&mut self.regions, regions)?;
        self.places.push(places)?;
        Ok(())
    }
}

/// Moves the regions behind the others.
fn append(into: &mut Vec<Region>, regions: Vec<Region>) -> Result<(), AllocError>
    ensures { OnOk result (into.new.items ≡ into.old.items ++ regions.items) }
{
    for region in regions {
        into.push(region)?;
    }
    Ok(())
}

/// Takes the runs of the cells' classes in the space, cell by cell, and lays the sections out in
/// them. After an error the space has some of the runs.
pub fn place_each(
    alloc: Global,
    space: &mut Space,
    cells: &[NewCell],
) -> Result<Placements, PlaceFail>
    requires { All (λ c. IsSoundObject c.object) cells.now }
    ensures { FindsAll space.old cells.now result space.new }
{
    let mut placements = Placements::new(alloc);
    for cell in cells {
        let placement = place(alloc, space, &cell.object)?;
        placements.add(placement)?;
    }
    Ok(placements)
}
