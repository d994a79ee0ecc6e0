//! The cells that words lie in.

ghost use Rattle.std.specs.Prelude.{◌≡◌, ◌≤◌, ◌==◌, length, true};
ghost use Rattle.std.specs.List.{list_all, list_any};
ghost use Rattle.cell_world.specs.Kept.{is_inside};
ghost use Rattle.cell_world.specs.Running.Words.{words_in};
ghost use Rattle.cell_hold.specs.Adds.{Adds};
ghost use Rattle.cell_hold.specs.Places.{is_at, is_cells_at};
ghost use Rattle.cell_hold.specs.Reached.{touches};
ghost use Rattle.cell_hold.specs.Spans.{IsPast, IsSettled};

use crate::bytes::{after, first_word};
use crate::found::Found;
use crate::others::Others;
use crate::sections::Sections;
use crate::spots::{Span, Spot};
use cell_num::CellId;
use cell_world::Placed;

/// Whether the word lies in the section, both ends included.
fn is_at(place: &Placed, word: u64) -> bool
    ensures { result ≡ is_at word place.now }
{
    place.start <= word && word - place.start <= u64::from(place.size)
}

/// Whether the word lies in all of these sections.
fn are_at(spots: &[Spot], word: u64) -> bool
    ensures { result ≡ list_all (λ r. is_at word r.place) spots.now }
{
    spots.iter().all(
        |spot: &Spot| -> bool
            ensures { result ≡ is_at word spot.now.place }
        { is_at(&spot.place, word) },
    )
}

/// Adds the section's cell, if the word lies in the section.
fn add_if_at(place: &Placed, word: u64, into: &mut Found)
    ensures added { Adds (λ c. is_inside c word place.now) into.old.room into.old.items into.new.items }
    ensures room { into.new.room ≡ into.old.room }
{
    if !is_at(place, word) {
        return;
    }
    into.add(place.key.cell);
}

/// Adds the cells of those of the sections that the word lies in.
fn add_at(spots: &[Spot], word: u64, into: &mut Found)
    ensures added { Adds (λ c. list_any (λ r. is_inside c word r.place) spots.now) into.old.room into.old.items into.new.items }
    ensures room { into.new.room ≡ into.old.room }
{
    for spot in spots {
        add_if_at(&spot.place, word, into);
    }
}

/// Adds the cells that a word lies in. The answer are words that needn't be looked at any more: all
/// cells that they lie in are added.
fn add_found(others: &Others, word: u64, into: &mut Found) -> Span
    ensures added { Adds (λ c. is_cells_at c word others.now.items) into.old.room into.old.items into.new.items }
    ensures settled { IsSettled others.now.items result into.old.room into.new.items }
    ensures room { into.new.room ≡ into.old.room }
{
    let near = others.near(word);
    add_at(near.spots, word, into);
    if are_at(near.spots, word) {
        return near.span;
    }
    Span::none()
}

/// Adds the cells that a word lies in.
pub fn add_word(others: &Others, word: u64, into: &mut Found)
    ensures added { Adds (λ c. is_cells_at c word others.now.items) into.old.room into.old.items into.new.items }
    ensures room { into.new.room ≡ into.old.room }
{
    let _ = add_found(others, word, into);
}

/// The bytes from the first word on that isn't one of these.
fn unsettled(bytes: &[u8], settled: Span) -> &[u8]
    ensures past { IsPast settled bytes.now result.now }
    ensures shorter { length result.now ≤ length bytes.now }
{
    let mut rest = bytes;
    while rest.len() >= 8 {
        let word = first_word(rest);
        if !settled.has(word) {
            return rest;
        }
        rest = after(rest, 8);
    }
    rest
}

/// Adds the cells that the whole words of these bytes lie in.
pub fn add_words(others: &Others, bytes: &[u8], into: &mut Found)
    ensures added { Adds (touches others.now.items (words_in bytes.now)) into.old.room into.old.items into.new.items }
    ensures room { into.new.room ≡ into.old.room }
{
    let mut rest = bytes;
    while rest.len() >= 8 {
        let word = first_word(rest);
        let settled = add_found(others, word, into);
        rest = unsettled(after(rest, 8), settled);
    }
}

/// Adds the cells that these numbers, as words, lie in.
pub fn add_numbers(others: &Others, words: &[u64], into: &mut Found)
    ensures added { Adds (touches others.now.items words.now) into.old.room into.old.items into.new.items }
    ensures room { into.new.room ≡ into.old.room }
{
    for word in words {
        add_word(others, *word, into);
    }
}

/// Whether the word lies in one of the sections.
fn is_in_one(places: &[Placed], word: u64) -> bool
    ensures { result ≡ list_any (is_at word) places.now }
{
    places.iter().any(
        |place: &Placed| -> bool
            ensures { result ≡ is_at word place.now }
        { is_at(place, word) },
    )
}

/// Whether the word lies in a section of the cell.
pub fn word_leads(places: &Sections, word: u64, cell: CellId) -> bool
    ensures { result ≡ is_cells_at cell.0 word places.now }
{
    is_in_one(places.own(cell), word)
}

/// Whether one of the whole words of these bytes lies in a section of the cell.
pub fn words_lead(places: &Sections, bytes: &[u8], cell: CellId) -> bool
    ensures { result ≡ touches places.now (words_in bytes.now) cell.0 }
{
    let own = places.own(cell);
    let mut rest = bytes;
    while rest.len() >= 8 {
        let word = first_word(rest);
        if is_in_one(own, word) {
            return true;
        }
        rest = after(rest, 8);
    }
    false
}

/// Whether one of these numbers, as a word, lies in a section of the cell.
pub fn numbers_lead(places: &Sections, words: &[u64], cell: CellId) -> bool
    ensures { result ≡ touches places.now words.now cell.0 }
{
    for word in words {
        if word_leads(places, *word, cell) {
            return true;
        }
    }
    false
}
