//! The fields that change in one cell.

ghost use Rattle.std.specs.Prelude.{◌≡◌, ◌++◌, [], ◌∷◌, IfOk, OnOk, cond, length, map, filter};
ghost use Rattle.std.specs.BTreeSet.{contains};
ghost use Rattle.cell_object.specs.declared.object.Entry.{Entry as SomeEntry};
ghost use Rattle.cell_link.specs.declared.value.FieldValue.{FieldValue as Value};
ghost use Rattle.cell_link.specs.Applied.{spot_of};
ghost use Rattle.cell_link.specs.Tables.{spot_cmp};
ghost use Rattle.cell_world.specs.Linked.Field.{fields_of};
ghost use Rattle.cell_plan.specs.Changes.{change_by};
ghost use Rattle.cell_plan.specs.Steps.{is_marked_spot};

use crate::firsts::first_entries;
use crate::spots::spots_of;
use cell_link::{FieldValue, spot};
use cell_object::{Entry, Object};
use std::alloc::{AllocError, Global};
use std::collections::BTreeSet;

/// A field that changes, by its first entry, and what it holds by then.
#[derive(Clone, Copy, Debug, PartialEq, Eq)]
pub struct Change {
    pub field: Entry,
    pub value: FieldValue,
}

/// Adds a field with its value, where it is at one of the places.
fn add_change(
    changes: &mut Vec<Change>,
    field: &Entry,
    value: &FieldValue,
    spots: &BTreeSet<(u16, u64)>,
) -> Result<(), AllocError>
    ensures { OnOk result (changes.new.items ≡ changes.old.items ++ cond (contains spot_cmp spots.now (spot_of field.now)) (record { field = field.now; value = value.now } ∷ []) []) }
{
    if spots.contains(&spot(field)) {
        changes.push(Change {
            field: *field,
            value: *value,
        })?;
    }
    Ok(())
}

/// Those of the fields that are at some of the places.
fn fields_at(
    alloc: Global,
    firsts: &[Entry],
    values: &[FieldValue],
    spots: &BTreeSet<(u16, u64)>,
) -> Result<Vec<Change>, AllocError>
    requires { length values.now ≡ length firsts.now }
    ensures { (value : SomeEntry → Value) → values.now ≡ map value firsts.now → IfOk result (λ changes. changes.items ≡ map (change_by value) (filter (λ f. contains spot_cmp spots.now (spot_of f)) firsts.now)) }
{
    let mut changes = Vec::new(alloc);
    for index in 0..firsts.len() {
        add_change(&mut changes, &firsts[index], &values[index], spots)?;
    }
    Ok(changes)
}

/// The fields of a cell that change, in table order, each with what it holds by then: those an entry of which
/// is marked.
pub fn marked_fields(
    alloc: Global,
    object: &Object,
    values: &[FieldValue],
    marks: &[bool],
) -> Result<Vec<Change>, AllocError>
    requires values { length values.now ≡ length (fields_of object.now) }
    requires marks { length marks.now ≡ length object.now.entries }
    ensures { (value : SomeEntry → Value) → values.now ≡ map value (fields_of object.now) →
        IfOk result (λ changes. changes.items ≡ map (change_by value) (filter (λ f. is_marked_spot object.now.entries marks.now (spot_of f)) (fields_of object.now))) }
{
    let firsts = first_entries(alloc, object)?;
    let spots = spots_of(alloc, object.entries.as_slice(), marks)?;
    fields_at(alloc, &firsts, values, &spots)
}
