//! The regions of a new cell, before its fields are written.

ghost use Rattle.std.specs.Prelude.{◌≡◌, ◌++◌, OnOk, IfOk};
ghost use Rattle.std.specs.List.{list_any};
ghost use Rattle.cell_world.specs.Placed.Layout.{is_in_class};
ghost use Rattle.cell_lemmas.specs.Loads.{run_region, regions_at};
ghost use Rattle.cell_layout.specs.Layout.{in_class};

use crate::image::image;
use cell_num::Listed;
use cell_object::{Object, Section};
use cell_world::{Class, Region, Starts};
use std::alloc::{AllocError, Global};

/// Whether a section is of the class.
fn has_class(sections: &[Section], class: Class) -> bool
    ensures { result ≡ list_any (is_in_class class) sections.now }
{
    for section in sections {
        if class.has(section) {
            return true;
        }
    }
    false
}

/// Adds the region of a class that has a section.
fn add_region(
    alloc: Global,
    regions: &mut Vec<Region>,
    class: Class,
    start: u64,
    sections: &[Section],
) -> Result<(), AllocError>
    ensures { OnOk result (regions.new.items ≡ regions.old.items ++ run_region start class (in_class class sections.now)) }
{
    if has_class(sections, class) {
        regions.push(Region {
            start,
            permission: class.permission(),
            bytes: Listed::from_vec(image(alloc, class, sections)?),
        })?;
    }
    Ok(())
}

/// The regions of the classes, one for each that has a section.
pub fn regions(alloc: Global, starts: &Starts, object: &Object) -> Result<Vec<Region>, AllocError>
    ensures { IfOk result (λ regions. regions.items ≡ regions_at starts.now object.now) }
{
    let mut regions = Vec::new(alloc);
    let sections = object.sections.as_slice();
    add_region(alloc, &mut regions, Class::Text, starts.text, sections)?;
    add_region(
        alloc,
        &mut regions,
        Class::ReadOnly,
        starts.read_only,
        sections,
    )?;
    add_region(
        alloc,
        &mut regions,
        Class::Writable,
        starts.writable,
        sections,
    )?;
    Ok(regions)
}
