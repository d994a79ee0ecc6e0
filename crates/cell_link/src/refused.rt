//! The fields of a cell, or the refusal of the entry that doesn't fit.

ghost use Rattle.std.specs.Prelude.{◌≡◌, ◌<◌, ◌^◌, All, Err, Some, length, option_map, slice_get};
ghost use Rattle.cell_link.specs.Linked.{IsLinked as IsLinkedBy};
ghost use Rattle.cell_link.specs.LinksBy.{LinksBy, entry_overflow};

use crate::fail::LinkFail;
use crate::link::link_cell;
use crate::value::FieldValue;
use cell_num::Listed;
use cell_world::{Fail, NewCell, Refusal, Target};
use std::alloc::Global;

/// E12: the number of the entry at that place is outside its kind's range.
fn overflow(cell: &NewCell, entry: u32) -> Refusal
    requires { entry < length cell.now.object.entries }
    ensures { option_map (entry_overflow cell.now) (slice_get cell.now.object.entries entry) ≡ Some result }
{
    let entry = cell.object.entries.as_slice()[entry as usize];
    Refusal::Overflow {
        cell: cell.id,
        section: entry.section,
        offset: entry.offset,
        kind: entry.kind,
    }
}

/// Why the cell is not linked.
fn link_failed(cell: &NewCell, targets: &[Target], fail: LinkFail) -> Fail
    requires { IsLinkedBy cell.now targets.now (Err fail) }
    ensures { LinksBy cell.now targets.now (Err result) }
{
    match fail {
        LinkFail::Overflow { entry } => Fail::Refused(overflow(cell, entry)),
        LinkFail::OutOfMemory => Fail::OutOfMemory,
    }
}

/// The values of a cell's fields, in the order of their first entries, where each entry has the
/// target of its place in `targets`. The first entry that doesn't fit is refused.
pub fn link_fields(
    alloc: Global,
    cell: &NewCell,
    targets: &[Target],
) -> Result<Listed<FieldValue>, Fail>
    requires each { length targets.now ≡ length cell.now.object.entries }
    requires few { length cell.now.object.entries < 2 ^ 32 }
    requires low { All (λ p. p.start < 2 ^ 63) cell.now.places }
    ensures { LinksBy cell.now targets.now result }
{
    match link_cell(alloc, cell, targets) {
        Ok(fields) => Ok(fields),
        Err(fail) => Err(link_failed(cell, targets, fail)),
    }
}
