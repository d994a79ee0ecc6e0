//! What a load is gathered from.

ghost use Rattle.std.specs.Prelude.{◌≡◌, ◌<◌, ◌≤◌, ◌+◌, All, length};
ghost use Rattle.cell_gather.specs.Appending.{room_now};
ghost use Rattle.cell_num.specs.Limits.{max_cells, max_file_bytes};
ghost use Rattle.cell_world.specs.Following.{Follows};
ghost use Rattle.cell_gather.specs.Growing.{new_of, IsGrowing};

use crate::Gathered;
use crate::room::Room;
use cell_depot::Depot;
use cell_space::{Ahead, Spaces};
use cell_world::Fail;
use std::alloc::Global;

/// The files, the present cells, how many they are, and the number of the next cell.
#[derive(Drop)]
pub struct Load<'a> {
    pub depot: &'a Depot,
    pub spaces: &'a Spaces,
    pub present: u32,
    pub next: u32,
    ghost counted: { present ≡ length spaces.now.cells },
    ghost given: { All (λ c. c.cell.0 < next) spaces.now.cells },
    ghost small: { All (λ f. length f.bytes ≤ max_file_bytes) depot.now },
}

impl<'a> Load<'a> {
    /// No new cells.
    pub fn start(&self, alloc: Global) -> Gathered<'a>
        ensures growing { IsGrowing self.now.spaces.now self.now.next result }
        ensures empty { length (new_of result) ≡ 0 }
    {
        Gathered {
            cells: Vec::new(alloc),
            ahead: Ahead::of(alloc, self.spaces),
        }
    }

    /// Sees that there may be one more cell, where so many are new, else E4.
    pub fn check_room(&self, fresh: usize) -> Result<(), Fail>
        requires { fresh ≤ max_cells }
        ensures { Follows (λ _. tt) result (room_now (length self.now.spaces.now.cells + fresh) (self.now.next + fresh)) }
    {
        let room = Room {
            spaces: self.spaces,
            present: self.present,
            next: self.next,
        };
        room.check(fresh)
    }
}
