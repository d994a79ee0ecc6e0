//! Room for one more cell.

ghost use Rattle.std.specs.Prelude.{◌≡◌, ◌<◌, ◌≤◌, ◌+◌, All, length};
ghost use Rattle.cell_gather.specs.Appending.{room_now};
ghost use Rattle.cell_num.specs.Limits.{max_cells};
ghost use Rattle.cell_world.specs.Following.{Follows};

use cell_num::{MAX_CELL_NUMBER, MAX_CELLS};
use cell_space::Spaces;
use cell_world::{Fail, Many, Refusal};

/// The present cells, how many they are, and the number of the next cell.
#[derive(Drop)]
pub struct Room<'a> {
    pub spaces: &'a Spaces,
    pub present: u32,
    pub next: u32,
    ghost counted: { present ≡ length spaces.now.cells },
    ghost given: { All (λ c. c.cell.0 < next) spaces.now.cells },
}

impl<'a> Room<'a> {
    /// Sees that there may be one more cell, where so many are new, else E4.
    pub fn check(&self, fresh: usize) -> Result<(), Fail>
        requires { fresh ≤ max_cells }
        ensures { Follows (λ _. tt) result (room_now (length self.now.spaces.now.cells + fresh) (self.now.next + fresh)) }
    {
        if self.present as usize + fresh >= MAX_CELLS as usize {
            return Err(Fail::Refused(Refusal::TooMany {
                kind: Many::Cells,
                limit: MAX_CELLS,
            }));
        }
        if self.next as usize + fresh > MAX_CELL_NUMBER as usize {
            return Err(Fail::Refused(Refusal::TooMany {
                kind: Many::CellNumbers,
                limit: MAX_CELL_NUMBER,
            }));
        }
        Ok(())
    }
}
