//! Sections, by their cells.

ghost use Rattle.std.specs.Prelude.{◌≡◌, ◌≤◌, ◌==◌, ◌&&◌, true, false, All, Bool, IfOk, IsTrue, filter, length, nat_le, nat_lt};
ghost use Rattle.std.specs.List.{list_any};
ghost use Rattle.std.specs.List.Sorted.{IsNonDecreasingBy, IsPartitionPoint, IsPermutation};
ghost use Rattle.cell_world.specs.declared.state.Placed.{Placed as PlacedAt};

use cell_num::CellId;
use cell_world::Placed;
use std::alloc::{AllocError, Global};
use std::marker::Model;

/// Sections, to be found by their cells. Contracts see them as they were given.
#[derive(Drop)]
pub struct Sections {
    list: Vec<Placed>,
    by_cell: Vec<Placed>,
}

impl Model for Sections {
    ghost use Rattle.std.specs.Prelude.{List};
    ghost use Rattle.cell_world.specs.declared.state.Placed.{Placed as PlacedAt};
    ghost use Rattle.cell_hold.specs.Spots.{IsIndexed};

    ghost Value = { List PlacedAt };

    ghost view = { λ p. p.list.items };

    ghost invariant = { λ p. IsIndexed p.list.items p.by_cell.items };
}

/// The sections by their cells.
fn by_cell(alloc: Global, places: &[Placed]) -> Result<Vec<Placed>, AllocError>
    ensures same { IfOk result (λ sorted. IsPermutation places.now sorted.items) }
    ensures rising { IfOk result (λ sorted. IsNonDecreasingBy (λ s. s.key.cell.0) sorted.items) }
{
    let mut sorted = Vec::from_slice(alloc, places)?;
    sorted.sort_unstable_by_key(|place| place.key.cell.0);
    Ok(sorted)
}

/// How many sections are of lower cells.
fn count_lower(places: &[Placed], cell: CellId) -> usize
    requires { IsNonDecreasingBy (λ s. s.key.cell.0) places.now }
    ensures bound { result ≤ length places.now }
    ensures lower { IsPartitionPoint (λ s. nat_lt s.key.cell.0 cell.0 ≡ true) (λ s. nat_lt s.key.cell.0 cell.0 ≡ false) places.now result }
{
    places.partition_point(|place| place.key.cell.0 < cell.0)
}

/// How many sections are of this cell or lower ones.
fn count_up_to(places: &[Placed], cell: CellId) -> usize
    requires { IsNonDecreasingBy (λ s. s.key.cell.0) places.now }
    ensures bound { result ≤ length places.now }
    ensures up_to { IsPartitionPoint (λ s. nat_le s.key.cell.0 cell.0 ≡ true) (λ s. nat_le s.key.cell.0 cell.0 ≡ false) places.now result }
{
    places.partition_point(|place| place.key.cell.0 <= cell.0)
}

/// The sections of a cell, among sections by their cells.
fn sections_of(places: &[Placed], cell: CellId) -> &[Placed]
    requires { IsNonDecreasingBy (λ s. s.key.cell.0) places.now }
    ensures { result.now ≡ filter (λ s. s.key.cell.0 == cell.0) places.now }
{
    let end = count_up_to(places, cell);
    let start = count_lower(places, cell);
    &places[start..end]
}

/// Whether the sections before the index are of lower cells, and those from it on aren't.
fn is_start(places: &[Placed], index: usize, cell: CellId) -> bool
    requires { IsNonDecreasingBy (λ s. s.key.cell.0) places.now }
    ensures bound { IsTrue result → index ≤ length places.now }
    ensures lower { IsTrue result → IsPartitionPoint (λ s. nat_lt s.key.cell.0 cell.0 ≡ true) (λ s. nat_lt s.key.cell.0 cell.0 ≡ false) places.now index }
{
    if index > places.len() {
        return false;
    }
    if index > 0 && places[index - 1].key.cell.0 >= cell.0 {
        return false;
    }
    index == places.len() || places[index].key.cell.0 >= cell.0
}

/// How many sections are of lower cells.
fn count_lower_near(places: &[Placed], near: usize, cell: CellId) -> usize
    requires { IsNonDecreasingBy (λ s. s.key.cell.0) places.now }
    ensures bound { result ≤ length places.now }
    ensures lower { IsPartitionPoint (λ s. nat_lt s.key.cell.0 cell.0 ≡ true) (λ s. nat_lt s.key.cell.0 cell.0 ≡ false) places.now result }
{
    if is_start(places, near, cell) {
        return near;
    }
    count_lower(places, cell)
}

/// How many sections are of this cell or lower ones, where so many are of lower ones. Those of the cell
/// are counted one by one.
fn count_from(places: &[Placed], start: usize, cell: CellId) -> usize
    requires rising { IsNonDecreasingBy (λ s. s.key.cell.0) places.now }
    requires bound { start ≤ length places.now }
    requires lower { IsPartitionPoint (λ s. nat_lt s.key.cell.0 cell.0 ≡ true) (λ s. nat_lt s.key.cell.0 cell.0 ≡ false) places.now start }
    ensures bound { result ≤ length places.now }
    ensures up_to { IsPartitionPoint (λ s. nat_le s.key.cell.0 cell.0 ≡ true) (λ s. nat_le s.key.cell.0 cell.0 ≡ false) places.now result }
{
    for index in start..places.len() {
        if places[index].key.cell.0 > cell.0 {
            return index;
        }
    }
    places.len()
}

/// The sections of a cell, among sections by their cells, and the index behind them. They are looked
/// for at an index first.
fn sections_near(places: &[Placed], near: usize, cell: CellId) -> (&[Placed], usize)
    requires { IsNonDecreasingBy (λ s. s.key.cell.0) places.now }
    ensures { result.0.now ≡ filter (λ s. s.key.cell.0 == cell.0) places.now }
{
    let start = count_lower_near(places, near, cell);
    let end = count_from(places, start, cell);
    (&places[start..end], end)
}

/// The number of the last cell; 0 where there is none.
fn highest_of(places: &[Placed]) -> u32
    requires { IsNonDecreasingBy (λ s. s.key.cell.0) places.now }
    ensures { All (λ s. s.key.cell.0 ≤ result) places.now }
{
    if places.is_empty() {
        return 0;
    }
    places[places.len() - 1].key.cell.0
}

impl Sections {
    /// Takes the sections in any order. They may overlap.
    pub fn of(alloc: Global, list: Vec<Placed>) -> Result<Sections, AllocError>
        ensures { IfOk result (λ sections. sections ≡ list.items) }
    {
        let by_cell = by_cell(alloc, &list)?;
        Ok(Sections { list, by_cell })
    }

    /// The sections as they were given.
    pub fn all(&self) -> &[Placed]
        ensures { result.now ≡ self.now }
    {
        &self.list
    }

    /// The highest number of a cell; 0 where there is none.
    pub fn highest(&self) -> u32
        ensures { All (λ s. s.key.cell.0 ≤ result) self.now }
    {
        highest_of(&self.by_cell)
    }

    /// The sections of a cell.
    pub fn own(&self, cell: CellId) -> &[Placed]
        ensures { (p : PlacedAt → Bool) → list_any p result.now ≡ list_any (λ s. s.key.cell.0 == cell.0 && p s) self.now }
    {
        sections_of(&self.by_cell, cell)
    }

    /// The same, with the index behind them in the list by cells. They are looked for at an index first.
    pub fn own_near(&self, cell: CellId, near: usize) -> (&[Placed], usize)
        ensures { (p : PlacedAt → Bool) → list_any p result.0.now ≡ list_any (λ s. s.key.cell.0 == cell.0 && p s) self.now }
    {
        sections_near(&self.by_cell, near, cell)
    }
}
