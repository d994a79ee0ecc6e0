//! The cells of the machine that a dump describes.

ghost use Rattle.std.specs.Prelude.{◌≡◌, ◌≤◌, ◌<◌, ◌*◌, ◌^◌, ℕ, List, All, length, map};
ghost use Rattle.cell_world.specs.Gather.{source_of};
ghost use Rattle.cell_num.specs.Limits.{max_file_bytes, page_size};
ghost use Rattle.cell_audit.specs.Described.{space_of};
ghost use Rattle.cell_audit.specs.Dumps.{Row, lines_of};
ghost use Rattle.cell_audit.specs.Written.{AreWritten};
ghost use Rattle.cell_described.specs.Describes.{Describes};

use crate::cell::{Bounds, DescribedCell};
use crate::fail::DescribeFail;
use crate::finding::{Found, find_objects};
use crate::placing::place_cells;
use cell_audit::WrittenCell;
use cell_depot::Depot;
use cell_object::Object;
use std::alloc::Global;

/// The cells of a dump, in the order of their numbers, and the objects that they have, one for each
/// file that a cell names.
#[derive(Drop)]
pub struct Described {
    pub cells: Vec<DescribedCell>,
    pub objects: Vec<Object>,
}

/// The cells as they were written, with their objects and the places of their sections: or the first
/// fault. First comes a cell whose file isn't there or breaks a rule of object files. Then comes the
/// first line that places what can't stand there: a cell whose places aren't of its object's sections
/// in order; a section at no multiple of its alignment, not wholly in the space, or with a byte of an
/// earlier one; an alias that isn't on a GLOBAL that the object defines.
pub fn describe(
    alloc: Global,
    bounds: Bounds,
    cells: Vec<WrittenCell>,
    depot: &Depot,
) -> Result<Described, DescribeFail>
    requires space { page_size * bounds.pages < 2 ^ 64 }
    requires small { All (λ f. length f.bytes ≤ max_file_bytes) depot.now }
    // whatever else the dump's rows are
    ensures { (file : List ℕ) (rows : List Row) → AreWritten file rows cells.items → space_of (lines_of rows) ≡ (bounds.base, bounds.pages) →
        Describes (map source_of depot.now) file rows result }
{
    let Found { cells, objects } = find_objects(alloc, cells, depot)?;
    let cells = place_cells(alloc, bounds, &objects, cells)?;
    Ok(Described { cells, objects })
}
