//! Sections in the order of their starts, and the words near them.

ghost use Rattle.std.specs.Prelude.{◌≡◌, ◌≤◌, ℕ, ◌+◌, ◌^◌, ◌<◌, [], true, false, nat_le, length, slice_index_or, vec_capacity};
ghost use Rattle.std.specs.List.Sorted.{IsNonDecreasingBy, IsPartitionPoint, IsPermutation};
ghost use Rattle.cell_hold.specs.declared.spots.Spot.{Spot as SpotOf};
ghost use Rattle.cell_hold.specs.Spans.{is_above, is_below, is_within, OnlyNear};
ghost use Rattle.cell_hold.specs.Spots.{AreSpots, Covers, places_of};

use cell_world::Placed;

/// A section, and how far it and all before it reach.
#[derive(Clone, Copy, Debug, PartialEq, Eq)]
pub struct Spot {
    pub place: Placed,
    /// The greatest end so far; the highest word, where an end is beyond it.
    pub reach: u64,
}

/// The words between two bounds, both left out.
#[derive(Clone, Copy, Debug, PartialEq, Eq)]
pub struct Span {
    pub above: Option<u64>,
    pub below: Option<u64>,
}

/// Sections that start at a word or below it and reach it, and the words that lie in no others.
#[derive(Clone, Copy)]
pub struct Near<'a> {
    pub spots: &'a [Spot],
    pub span: Span,
}

impl Span {
    /// No word.
    pub fn none() -> Span
        ensures { (w : ℕ) → w < 2 ^ 64 → is_within result w ≡ false }
    {
        Span {
            above: Some(u64::MAX),
            below: None,
        }
    }

    /// Whether the word is one of them.
    pub fn has(self, word: u64) -> bool
        ensures { result ≡ is_within self word }
    {
        is_above(self.above, word) && is_below(self.below, word)
    }
}

fn is_above(bound: Option<u64>, word: u64) -> bool
    ensures { result ≡ is_above bound word }
{
    match bound {
        Some(bound) => bound < word,
        None => true,
    }
}

fn is_below(bound: Option<u64>, word: u64) -> bool
    ensures { result ≡ is_below bound word }
{
    match bound {
        Some(bound) => word < bound,
        None => true,
    }
}

/// Puts the sections in the order of their starts, and of those with one start the shorter first.
pub fn sort_by_start(places: &mut Vec<Placed>)
    ensures same { IsPermutation places.old.items places.new.items }
    ensures rising { IsNonDecreasingBy (λ s. s.start) places.new.items }
    ensures room { vec_capacity places.new ≡ vec_capacity places.old }
{
    places.sort_unstable_by_key(|place| (place.start, place.size));
}

/// The end of a section, or the highest word where the end is beyond it.
fn end_of(place: &Placed) -> u64
    ensures { Covers result place.now }
{
    place
        .start
        .checked_add(u64::from(place.size))
        .unwrap_or(u64::MAX)
}

/// Puts the sections with their reaches into a list with room for them, in place of what it has.
pub fn put_reaches(spots: &mut Vec<Spot>, sorted: &[Placed])
    requires rising { IsNonDecreasingBy (λ s. s.start) sorted.now }
    requires room { length sorted.now ≤ vec_capacity spots.old }
    ensures places { places_of spots.new.items ≡ sorted.now }
    ensures spots { AreSpots spots.new.items }
    ensures room { vec_capacity spots.old ≤ vec_capacity spots.new }
{
    spots.clear();
    let mut reach = 0;
    for place in sorted {
        reach = end_of(place).max(reach);
        spots.push_reserved(Spot {
            place: *place,
            reach,
        });
    }
}

/// How many sections start at the word or below it.
fn count_begun(spots: &[Spot], word: u64) -> usize
    requires { IsNonDecreasingBy (λ r. r.place.start) spots.now }
    ensures bound { result ≤ length spots.now }
    ensures begun { IsPartitionPoint (λ r. nat_le r.place.start word ≡ true) (λ r. nat_le r.place.start word ≡ false) spots.now result }
{
    spots.partition_point(|spot| spot.place.start <= word)
}

/// How many of the first so many there are without those at the end that reach the word.
fn count_passed(spots: &[Spot], begun: usize, word: u64) -> usize
    requires rise { IsNonDecreasingBy (λ r. r.reach) spots.now }
    requires within { begun ≤ length spots.now }
    ensures bound { result ≤ begun }
    ensures passed { (k : ℕ) (d : SpotOf) → k < result → (slice_index_or spots.now k d).reach < word }
{
    for place in (0..begun).rev() {
        if spots[place].reach < word {
            return place + 1;
        }
    }
    0
}

/// How far so many reach; none where they are none.
fn reach_of(spots: &[Spot], count: usize) -> Option<u64>
    requires within { count ≤ length spots.now }
    requires rise { IsNonDecreasingBy (λ r. r.reach) spots.now }
    ensures all { (w : ℕ) → is_above result w ≡ true → (k : ℕ) (d : SpotOf) → k < count → (slice_index_or spots.now k d).reach < w }
    ensures last { (w : ℕ) → ((k : ℕ) (d : SpotOf) → k < count → (slice_index_or spots.now k d).reach < w) → is_above result w ≡ true }
{
    if count == 0 {
        return None;
    }
    Some(spots[count - 1].reach)
}

/// Where those after so many start; none where there are no more.
fn start_of(spots: &[Spot], count: usize) -> Option<u64>
    requires { IsNonDecreasingBy (λ r. r.place.start) spots.now }
    ensures all { (w : ℕ) → is_below result w ≡ true → (k : ℕ) (d : SpotOf) → count ≤ k → k < length spots.now → w < (slice_index_or spots.now k d).place.start }
    ensures first { (w : ℕ) → ((k : ℕ) (d : SpotOf) → count ≤ k → k < length spots.now → w < (slice_index_or spots.now k d).place.start) → is_below result w ≡ true }
{
    if count >= spots.len() {
        return None;
    }
    Some(spots[count].place.start)
}

/// The sections near a word.
pub fn near_word(spots: &[Spot], word: u64) -> Near<'_>
    requires { AreSpots spots.now }
    ensures here { is_within result.span word ≡ true }
    ensures only { OnlyNear result.span result.spots.now (places_of spots.now) }
{
    let begun = count_begun(spots, word);
    let passed = count_passed(spots, begun, word);
    Near {
        spots: &spots[passed..begun],
        span: Span {
            above: reach_of(spots, passed),
            below: start_of(spots, begun),
        },
    }
}
