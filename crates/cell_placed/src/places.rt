//! Where the sections of a cell stand.

ghost use Rattle.std.specs.Prelude.{IsTrue, nat_lt, ◌≡◌, ◌==◌, find, option_map};
ghost use Rattle.cell_num.specs.Lists.{each_pair};
ghost use Rattle.cell_world.specs.Linked.Target.{start_of as start_in};
ghost use Rattle.cell_world.specs.Before.{AreBefore};
ghost use Rattle.cell_placed.specs.Keys.{section_in};

use cell_world::{NewCell, SecPlace};

/// How many of the places, which are in the order of their sections, are of an earlier section.
fn places_before(places: &[SecPlace], section: u16) -> usize
    requires { IsTrue (each_pair (λ a b. nat_lt a.section b.section) places.now) }
    ensures { AreBefore section_in section places.now result }
{
    places.partition_point(
        |place: &SecPlace| -> bool
            ensures { result ≡ nat_lt place.now.section section }
        { place.section < section },
    )
}

/// The place of a section, among places in the order of their sections.
fn place_of(places: &[SecPlace], section: u16) -> Option<&SecPlace>
    requires { IsTrue (each_pair (λ a b. nat_lt a.section b.section) places.now) }
    ensures { option_map (λ place. place.now) result ≡ find (λ place. place.section == section) places.now }
{
    let place = places.get(places_before(places, section))?;
    if place.section != section {
        return None;
    }
    Some(place)
}

/// The start of a section of the cell; 0 where it has no such section.
pub fn start_of(cell: &NewCell, section: u16) -> u64
    requires { IsTrue (each_pair (λ a b. nat_lt a.section b.section) cell.now.places) }
    ensures { result ≡ start_in cell.now section }
{
    match place_of(cell.places.as_slice(), section) {
        Some(place) => place.start,
        None => 0,
    }
}
