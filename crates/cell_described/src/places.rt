//! Where the sections of a cell stand.

ghost use Rattle.std.specs.Prelude.{◌≡◌, ◌==◌, IfOk, None, length, map, true};
ghost use Rattle.cell_described.specs.Faults.{has_sections, place_fault, place_seen, taken_after};

use crate::taken::Taken;
use cell_audit::WrittenPlace;
use cell_num::Listed;
use cell_object::Section;
use cell_world::SecPlace;
use std::alloc::{AllocError, Global};

fn is_numbered(section: &Section, number: u64) -> bool
    ensures { result ≡ (number == section.now.number) }
{
    let own = section.number;
    number == u64::from(own)
}

/// Whether the places are of these sections, in order.
pub fn has_sections(places: &[WrittenPlace], sections: &[Section]) -> bool
    ensures { result ≡ has_sections sections.now places.now }
{
    if places.len() != sections.len() {
        return false;
    }
    for (index, place) in places.iter().enumerate() {
        if !is_numbered(&sections[index], place.section) {
            return false;
        }
    }
    true
}

/// The line of the first section that can't stand where it is placed. Those before it are taken.
pub fn place_fault(taken: &mut Taken, sections: &[Section], places: &[WrittenPlace]) -> Option<u32>
    requires { length sections.now ≡ length places.now }
    ensures fault { result ≡ place_fault taken.old sections.now places.now }
    ensures taken { result ≡ None → taken.new ≡ taken_after taken.old sections.now places.now }
{
    for (index, place) in places.iter().enumerate() {
        let section = &sections[index];
        if !taken.fits(section, place.start) {
            return Some(place.line);
        }
        taken.take(section, place.start);
    }
    None
}

/// The places as those of the sections.
pub fn section_places(
    alloc: Global,
    sections: &[Section],
    places: &[WrittenPlace],
) -> Result<Listed<SecPlace>, AllocError>
    requires { has_sections sections.now places.now ≡ true }
    ensures { IfOk result (λ seen. seen ≡ map place_seen places.now) }
{
    let mut seen = Vec::with_capacity(alloc, places.len())?;
    for (index, place) in places.iter().enumerate() {
        let section = sections[index].number;
        let start = place.start;
        seen.push(SecPlace { section, start })?;
    }
    Ok(Listed::from_vec(seen))
}
