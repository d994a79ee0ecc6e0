//! The fields of a described cell.

ghost use Rattle.std.specs.Prelude.{◌≡◌, ◌<◌, IfOk, length};
ghost use Rattle.cell_described.specs.Faults.{object_at};
ghost use Rattle.cell_link.specs.Linked.{IsLinked};
ghost use Rattle.cell_relinked.specs.Fit.{IsFit, placed_in};

use cell_described::DescribedCell;
use cell_link::{FieldValue, LinkFail, link_cell};
use cell_num::{Listed, Name};
use cell_object::Object;
use cell_world::{NewCell, SecPlace, Target};
use std::alloc::{AllocError, Global};
use std::mem;

fn no_object(alloc: Global) -> Object {
    Object {
        sections: Listed::from_vec(Vec::new(alloc)),
        symbols: Listed::from_vec(Vec::new(alloc)),
        entries: Listed::from_vec(Vec::new(alloc)),
    }
}

fn copy_places(alloc: Global, places: &[SecPlace]) -> Result<Listed<SecPlace>, AllocError>
    ensures { IfOk result (λ copy. copy ≡ places.now) }
{
    let mut copy = Vec::with_capacity(alloc, places.len())?;
    for place in places {
        copy.push(*place)?;
    }
    Ok(Listed::from_vec(copy))
}

/// What the fields of the cell hold, where each entry has the target of its place in `targets`. Its
/// object is moved into the cell that is linked, and back.
pub fn link_described(
    alloc: Global,
    objects: &mut Vec<Object>,
    cell: &DescribedCell,
    targets: &[Target],
) -> Result<Listed<FieldValue>, LinkFail>
    requires fit { IsFit objects.old.items cell.now }
    requires each { length targets.now ≡ length (object_at objects.old.items cell.now.object).entries }
    ensures same { objects.new.items ≡ objects.old.items }
    ensures linked { IsLinked (placed_in objects.old.items cell.now) targets.now result }
{
    let stem = Name::of(alloc, &[])?;
    let file = Name::of(alloc, &[])?;
    let places = copy_places(alloc, cell.places.as_slice())?;
    let object = mem::replace(&mut objects[cell.object], no_object(alloc));
    let placed = NewCell {
        id: cell.id,
        ns: cell.ns,
        stem,
        file,
        object,
        places,
    };
    let fields = link_cell(alloc, &placed, targets);
    let NewCell { object, .. } = placed;
    objects[cell.object] = object;
    fields
}
