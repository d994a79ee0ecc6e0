//! The cells of a load.

ghost use Rattle.std.specs.Prelude.{◌≡◌, ◌<◌, ◌≤◌, All, IfOk, length};
ghost use Rattle.std.specs.Option.{ForSome};
ghost use Rattle.cell_num.specs.Limits.{max_file_bytes};
ghost use Rattle.cell_space.specs.Spaces.{HasDetached};
ghost use Rattle.cell_gather.specs.Gathering.{Gathers};
ghost use Rattle.cell_gather.specs.Growing.{IsGrowing};

use crate::Want;
use crate::load::Load;
use cell_depot::Depot;
use cell_space::{Ahead, Spaces};
use cell_world::{Fail, NewCell};
use std::alloc::Global;

/// New cells, which have no places yet, and the spaces as they would be with them.
#[derive(Drop)]
pub struct Gathered<'a> {
    pub cells: Vec<NewCell>,
    pub ahead: Ahead<'a>,
}

/// Appends the wanted cells in order. Then, while a new cell needs a name that nobody provides, appends
/// the one file of the name's crate in the nearest depot of that cell's chain that has one. `present`
/// is the number of present cells, `next` the number of the next cell.
///
/// Refusals, of which the first that holds is answered: too many cells or cell numbers, a file that is
/// no object, a stem or a name that is taken, several files of one crate, and a name that nobody
/// provides and no file brings.
pub fn gather<'a>(
    alloc: Global,
    depot: &'a Depot,
    spaces: &'a Spaces,
    present: u32,
    next: u32,
    wants: &[Want],
    reexport: bool,
) -> Result<Gathered<'a>, Fail>
    requires present { present ≡ length spaces.now.cells }
    requires given { All (λ c. c.cell.0 < next) spaces.now.cells }
    requires there { All (λ want. want.ns < length spaces.now.namespaces) wants.now }
    requires old { All (λ want. ForSome want.replaces (λ id. HasDetached spaces.now id.0)) wants.now }
    requires small { All (λ f. length f.bytes ≤ max_file_bytes) depot.now }
    ensures gathered { Gathers depot.now spaces.now next wants.now reexport result }
    ensures growing { IfOk result (λ g. IsGrowing spaces.now next g) }
{
    let load = Load {
        depot,
        spaces,
        present,
        next,
    };
    let mut gathered = load.start(alloc);
    load.append_all(alloc, &mut gathered, wants)?;
    load.rename(alloc, &mut gathered, wants, reexport)?;
    load.bring(alloc, &mut gathered)?;
    Ok(gathered)
}
