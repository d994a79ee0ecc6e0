//! Where the sections of a cell stand.

ghost use Rattle.std.specs.Prelude.{IsTrue, nat_lt, ◌≡◌, ◌==◌, find, option_map};
ghost use Rattle.cell_num.specs.Lists.{each_pair};
ghost use Rattle.cell_world.specs.Before.{AreBefore};
ghost use Rattle.cell_placed.specs.Keys.{section_in};
ghost use Rattle.cell_relinked.specs.Fit.{start_among};

use cell_world::SecPlace;

/// How many of the places, which are in the order of their sections, are of an earlier section.
fn places_before(places: &[SecPlace], section: u16) -> usize
    requires { IsTrue (each_pair (λ a b. nat_lt a.section b.section) places.now) }
    ensures { AreBefore section_in section places.now result }
{
    places.partition_point(
        |place: &SecPlace| -> bool
            ensures { result ≡ nat_lt place.now.section section }
        { place.section < section },
    )
}

/// The place of a section, among places in the order of their sections.
fn place_of(places: &[SecPlace], section: u16) -> Option<&SecPlace>
    requires { IsTrue (each_pair (λ a b. nat_lt a.section b.section) places.now) }
    ensures { option_map (λ place. place.now) result ≡ find (λ place. place.section == section) places.now }
{
    let place = places.get(places_before(places, section))?;
    if place.section != section {
        return None;
    }
    Some(place)
}

/// The start of a section; 0 where there is no such section.
pub fn start_in(places: &[SecPlace], section: u16) -> u64
    requires { IsTrue (each_pair (λ a b. nat_lt a.section b.section) places.now) }
    ensures { result ≡ start_among places.now section }
{
    match place_of(places, section) {
        Some(place) => place.start,
        None => 0,
    }
}
