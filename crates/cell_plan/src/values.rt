//! What the fields of a cell hold where each entry is a field of its own.

ghost use Rattle.std.specs.Prelude.{◌≡◌, ◌<◌, ◌^◌, All, IfOk, IfSome, None, length, map, true, option_map};
ghost use Rattle.cell_world.specs.Linked.Field.{misfit_of};
ghost use Rattle.cell_link.specs.Linked.{bound_in, value_at};
ghost use Rattle.cell_link.specs.LinksBy.{LinksBy};
ghost use Rattle.cell_plan.specs.Rising.{rises};

use cell_link::{FieldValue, field_value, link_fields};
use cell_num::Listed;
use cell_world::{Fail, NewCell, Target};
use std::alloc::{AllocError, Global};

/// So many entries are gone over for each of them sooner than a table of the cell is made.
const FEW: usize = 8;

/// What the fields hold, or none where an entry doesn't fit, in the room of a list. The table is gone
/// over for each entry.
fn scanned(
    mut values: Vec<FieldValue>,
    cell: &NewCell,
    targets: &[Target],
) -> Result<Option<Vec<FieldValue>>, AllocError>
    requires each { length targets.now ≡ length cell.now.object.entries }
    requires few { length cell.now.object.entries < 2 ^ 32 }
    requires low { All (λ p. p.start < 2 ^ 63) cell.now.places }
    ensures fit { IfOk result (λ found. IfSome found (λ values. misfit_of cell.now (bound_in cell.now targets.now) ≡ None)) }
    ensures values { IfOk result (λ found. IfSome found (λ values. values.items ≡ map (value_at cell.now targets.now) cell.now.object.entries)) }
{
    let count = cell.object.entries.as_slice().len();
    values.clear();
    for index in 0..count {
        match field_value(cell, targets, index as u32) {
            Ok(value) => values.push(value)?,
            Err(_) => return Ok(None),
        }
    }
    Ok(Some(values))
}

/// The values of the fields, in table order, where it can be in the room of a list. The first entry that
/// doesn't fit is refused.
pub fn values_of(
    alloc: Global,
    room: Vec<FieldValue>,
    cell: &NewCell,
    targets: &[Target],
) -> Result<Listed<FieldValue>, Fail>
    requires rises { rises 0 cell.now.object.entries ≡ true }
    requires each { length targets.now ≡ length cell.now.object.entries }
    requires few { length cell.now.object.entries < 2 ^ 32 }
    requires low { All (λ p. p.start < 2 ^ 63) cell.now.places }
    ensures { LinksBy cell.now targets.now result }
{
    if cell.object.entries.as_slice().len() <= FEW {
        if let Some(values) = scanned(room, cell, targets)? {
            return Ok(Listed::from_vec(values));
        }
    }
    link_fields(alloc, cell, targets)
}
