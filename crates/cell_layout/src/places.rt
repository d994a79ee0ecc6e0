//! Where the sections of a new cell stand.

ghost use Rattle.std.specs.Prelude.{◌≡◌, ◌<◌, ◌^◌, IfOk};
ghost use Rattle.cell_object.specs.declared.object.Section.{Section as SomeSection};
ghost use Rattle.cell_world.specs.Placed.Layout.{places_in, place_in};
ghost use Rattle.cell_num.specs.Lists.{In};
ghost use Rattle.cell_layout.specs.Layout.{offset_place, offsets_of};

use cell_object::{Object, Section};
use cell_world::{Class, SecPlace, Starts};
use std::alloc::{AllocError, Global};

/// Where a section stands that has an offset in its class.
fn place(starts: &Starts, object: &Object, section: &Section, offset: SecPlace) -> SecPlace
    requires offset { offset ≡ offset_place object.now.sections section.now }
    requires low { (place_in starts.now object.now section.now).start < 2 ^ 63 }
    ensures { result ≡ place_in starts.now object.now section.now }
{
    SecPlace {
        section: offset.section,
        start: starts.get(Class::of(section)) + offset.start,
    }
}

/// Where the sections stand that have these offsets in their classes.
pub fn places(
    alloc: Global,
    starts: &Starts,
    object: &Object,
    offsets: &[SecPlace],
) -> Result<Vec<SecPlace>, AllocError>
    requires offsets { offsets.now ≡ offsets_of object.now.sections }
    requires low { (s : SomeSection) → In s object.now.sections → (place_in starts.now object.now s).start < 2 ^ 63 }
    ensures { IfOk result (λ places. places.items ≡ places_in starts.now object.now) }
{
    let mut places = Vec::new(alloc);
    let sections = object.sections.as_slice();
    for index in 0..sections.len() {
        places.push(place(starts, object, &sections[index], offsets[index]))?;
    }
    Ok(places)
}
