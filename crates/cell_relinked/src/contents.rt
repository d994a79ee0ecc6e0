//! What the sections of a cell hold once it is linked anew.

ghost use Rattle.std.specs.Prelude.{◌≡◌, ◌+◌, ◌<◌, ◌^◌, All, IfOk, IsTrue, None, length, map, nat_lt};
ghost use Rattle.cell_num.specs.Lists.{In, each_pair};
ghost use Rattle.cell_object.specs.declared.object.Section.{Section as SomeSection};
ghost use Rattle.cell_audit.specs.Linking.{unlinked_in};
ghost use Rattle.cell_described.specs.Faults.{object_at};
ghost use Rattle.cell_link.specs.Linked.{field_values, first_unfit};
ghost use Rattle.cell_world.specs.Linked.Field.{fields_of};
ghost use Rattle.cell_relinked.specs.Contents.{first_bytes, relinked};
ghost use Rattle.cell_relinked.specs.Fit.{IsFit, placed_in, start_among};
ghost use Rattle.cell_relinked.specs.Indexed.{IsIndexed};
ghost use Rattle.cell_relinked.specs.Linking.{seen_by, world_in};

use crate::firsts::first_entries;
use crate::ground::Ground;
use crate::link::link_described;
use crate::places::start_in;
use crate::section_bytes::first_bytes;
use crate::unlinked::find_entries;
use crate::writing::{Fields, write_fields};
use cell_audit::Told;
use cell_described::DescribedCell;
use cell_link::LinkFail;
use cell_num::Listed;
use cell_object::{Object, Section};
use cell_world::{SecPlace, Target};
use std::alloc::{AllocError, Global};

/// What the sections hold before fields are written.
fn first_contents(
    alloc: Global,
    told: &Told,
    places: &[SecPlace],
    sections: &[Section],
) -> Result<Vec<Listed<u8>>, AllocError>
    requires ordered { IsTrue (each_pair (λ a b. nat_lt a.section b.section) places.now) }
    requires low { (s : SomeSection) → In s sections.now → start_among places.now s.number + s.size < 2 ^ 64 }
    ensures { IfOk result (λ contents. contents.items ≡ map (λ s. first_bytes told.now (start_among places.now s.number) s) sections.now) }
{
    let mut contents = Vec::with_capacity(alloc, sections.len())?;
    for index in 0..sections.len() {
        let section = &sections[index];
        let start = start_in(places, section.number);
        contents.push(Listed::from_vec(first_bytes(alloc, told, section, start)?))?;
    }
    Ok(contents)
}

/// The fields of a cell whose entries all fit.
fn find_fields(
    alloc: Global,
    objects: &mut Vec<Object>,
    cell: &DescribedCell,
    targets: &[Target],
) -> Result<Fields, AllocError>
    requires fit { IsFit objects.old.items cell.now }
    requires each { length targets.now ≡ length (object_at objects.old.items cell.now.object).entries }
    requires fits { first_unfit (placed_in objects.old.items cell.now) targets.now ≡ None }
    ensures same { objects.new.items ≡ objects.old.items }
    ensures firsts { IfOk result (λ fields. fields.firsts.items ≡ fields_of (object_at objects.old.items cell.now.object)) }
    ensures values { IfOk result (λ fields. fields.values ≡ field_values (placed_in objects.old.items cell.now) targets.now) }
{
    match link_described(alloc, objects, cell, targets) {
        Ok(values) => Ok(Fields {
            firsts: first_entries(alloc, &objects[cell.object])?,
            values,
        }),
        Err(LinkFail::Overflow { .. }) => unreachable!(),
        Err(LinkFail::OutOfMemory) => Err(AllocError),
    }
}

/// What the sections of the cell hold once it is linked anew, in the order of its object's sections.
pub fn relinked_contents(
    alloc: Global,
    ground: &Ground,
    objects: &mut Vec<Object>,
    cell: &DescribedCell,
) -> Result<Vec<Listed<u8>>, AllocError>
    requires whole { All (IsFit objects.old.items) ground.now.cells.now }
    requires indexed { IsIndexed ground.now objects.old.items }
    requires fit { IsFit objects.old.items cell.now }
    requires linked { unlinked_in (world_in ground.now objects.old.items) (seen_by ground.now objects.old.items cell.now) ≡ None }
    ensures same { objects.new.items ≡ objects.old.items }
    ensures contents { IfOk result (λ contents. contents.items ≡ map (relinked (world_in ground.now objects.old.items) (seen_by ground.now objects.old.items cell.now) ground.now.told.now) (object_at objects.old.items cell.now.object).sections) }
{
    let entries = find_entries(alloc, ground, objects, cell)?;
    let fields = find_fields(alloc, objects, cell, &entries.targets)?;
    let sections = objects[cell.object].sections.as_slice();
    let mut contents = first_contents(alloc, ground.told, cell.places.as_slice(), sections)?;
    write_fields(&mut contents, sections, &fields);
    Ok(contents)
}
