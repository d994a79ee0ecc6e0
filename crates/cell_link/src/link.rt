//! All fields of a cell.

ghost use Rattle.std.specs.Prelude.{◌≡◌, ◌<◌, ◌^◌, All, length};
ghost use Rattle.cell_link.specs.Linked.{IsLinked};

use crate::fields::{Linker, apply_entries};
use crate::{FieldValue, LinkFail};
use cell_num::Listed;
use cell_world::{NewCell, Target};
use std::alloc::Global;

/// What the fields of a cell hold, in the order of their first entries, where each entry has the
/// target of its place in `targets`.
pub fn link_cell(
    alloc: Global,
    cell: &NewCell,
    targets: &[Target],
) -> Result<Listed<FieldValue>, LinkFail>
    requires each { length targets.now ≡ length cell.now.object.entries }
    requires few { length cell.now.object.entries < 2 ^ 32 }
    requires low { All (λ p. p.start < 2 ^ 63) cell.now.places }
    ensures { IsLinked cell.now targets.now result }
{
    let linker = Linker::of(alloc, cell, targets)?;
    let fields = apply_entries(alloc, &linker)?;
    let values = fields.values(alloc, &linker.numbers.places)?;
    Ok(Listed::from_vec(values))
}
