//! The address of the field that an entry is at.

ghost use Rattle.std.specs.Prelude.{◌≡◌, ◌<◌, ◌+◌, ◌^◌};
ghost use Rattle.cell_world.specs.Linked.Field.{place_of as place};
ghost use Rattle.cell_placed.specs.Low.{IsLow};

use cell_object::Entry;
use cell_placed::start_of;
use cell_world::NewCell;

pub fn place_of(cell: &NewCell, entry: &Entry) -> u64
    requires { IsLow cell.now }
    ensures place { result ≡ place cell.now entry.now }
    ensures low { result < 2 ^ 63 + 2 ^ 32 }
{
    let offset = entry.offset;
    start_of(cell, entry.section) + u64::from(offset)
}
