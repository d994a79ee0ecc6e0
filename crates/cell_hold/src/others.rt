//! The sections of cells that aren't found yet.

ghost use Rattle.std.specs.Prelude.{◌≡◌, ◌≤◌, ◌<◌, ◌+◌, ◌++◌, ◌∷◌, ◌&&◌, [], Bool, IfOk, filter, length, not, true, vec_capacity};
ghost use Rattle.std.specs.List.{list_any};
ghost use Rattle.cell_world.specs.declared.state.Placed.{Placed as PlacedAt};
ghost use Rattle.cell_hold.specs.Adds.{has_cell};
ghost use Rattle.cell_hold.specs.Spans.{is_within, OnlyNear};
ghost use Rattle.cell_hold.specs.Spots.{places_of};

use crate::found::Found;
use crate::spots::{Near, Spot, near_word, put_reaches, sort_by_start};
use cell_world::Placed;
use std::alloc::{AllocError, Global};
use std::marker::Model;

/// Sections to be found by addresses, in room that is made before. Contracts see them, and how many there is
/// room for.
#[derive(Drop)]
pub struct Others {
    sorted: Vec<Placed>,
    spots: Vec<Spot>,
}

impl Model for Others {
    ghost use Rattle.std.specs.Prelude.{min, vec_capacity};
    ghost use Rattle.cell_hold.specs.Spots.{AreSpots, OtherSections, places_of};

    ghost Value = { OtherSections };

    ghost view = { λ o. record { items = places_of o.spots.items; room = min (vec_capacity o.sorted) (vec_capacity o.spots) } };

    ghost invariant = { λ o. AreSpots o.spots.items };
}

/// Adds the section, unless its cell is found.
fn put_unless_found(sorted: &mut Vec<Placed>, place: &Placed, found: &Found)
    requires { length sorted.old.items < vec_capacity sorted.old }
    ensures items { sorted.new.items ≡ sorted.old.items ++ filter (λ s. not (has_cell found.now.items s.key.cell.0)) (place.now ∷ []) }
    ensures few { length sorted.new.items ≤ length sorted.old.items + 1 }
    ensures room { vec_capacity sorted.old ≤ vec_capacity sorted.new }
{
    if found.has(place.key.cell) {
        return;
    }
    sorted.push_reserved(*place);
}

/// Puts those of the sections whose cells aren't found into a list with room for all, in place of what
/// it has.
fn put_unfound(sorted: &mut Vec<Placed>, places: &[Placed], found: &Found)
    requires { length places.now ≤ vec_capacity sorted.old }
    ensures items { sorted.new.items ≡ filter (λ s. not (has_cell found.now.items s.key.cell.0)) places.now }
    ensures few { length sorted.new.items ≤ length places.now }
    ensures room { vec_capacity sorted.old ≤ vec_capacity sorted.new }
{
    sorted.clear();
    for index in 0..places.len() {
        put_unless_found(sorted, &places[index], found);
    }
}

impl Others {
    /// None, and room for so many.
    pub fn with_room(alloc: Global, count: usize) -> Result<Others, AllocError>
        ensures { IfOk result (λ others. count ≤ others.room) }
    {
        Ok(Others {
            sorted: Vec::with_capacity(alloc, count)?,
            spots: Vec::with_capacity(alloc, count)?,
        })
    }

    /// Takes those of the sections whose cells aren't found, in place of what it has. This takes no memory.
    pub fn take(&mut self, places: &[Placed], found: &Found)
        requires { length places.now ≤ self.old.room }
        ensures others { (p : PlacedAt → Bool) → list_any p self.new.items ≡ list_any (λ s. not (has_cell found.now.items s.key.cell.0) && p s) places.now }
        ensures room { self.old.room ≤ self.new.room }
    {
        put_unfound(&mut self.sorted, places, found);
        sort_by_start(&mut self.sorted);
        put_reaches(&mut self.spots, &self.sorted);
    }

    /// The sections with their reaches.
    pub fn spots(&self) -> &[Spot]
        ensures { places_of result.now ≡ self.now.items }
    {
        &self.spots
    }

    /// The sections near a word.
    pub fn near(&self, word: u64) -> Near<'_>
        ensures here { is_within result.span word ≡ true }
        ensures only { OnlyNear result.span result.spots.now self.now.items }
    {
        near_word(&self.spots, word)
    }
}
