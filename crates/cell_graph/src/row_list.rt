//! The list of the links.

ghost use Rattle.std.specs.Prelude.{◌≡◌, ◌+◌, ◌<◌, ◌≤◌, ◌∷◌, [], IsTrue, OnOk, drop, filter, length, not, slice_index_or};
ghost use Rattle.std.specs.List.{insert};
ghost use Rattle.slab.specs.Slab.{get};
ghost use Rattle.cell_graph.specs.Gaps.{AreAbove, IsGap, around};
ghost use Rattle.cell_graph.specs.Lists.{IsCellRange, IsRowAt, RowsRise, has_row};
ghost use Rattle.cell_graph.specs.Order.{IsCut, below_row};
ghost use Rattle.cell_graph.specs.Removal.{is_listed};
ghost use Rattle.cell_graph.specs.Standing.{standing};
ghost use Rattle.cell_graph.specs.declared.order.RowPlace.{RowPlace};

use crate::gap::Gap;
use crate::near::cell_rows_near;
use crate::order::{RowPlace, row_cell_end, row_cell_start, row_cut};
use crate::removal::is_listed;
use crate::rows::Rows;
use crate::steps::Steps;
use crate::walks::CellRows;
use cell_num::{CellId, SecKey};
use std::alloc::{AllocError, Global};
use std::marker::Model;
use std::sync::ledger::Ledger;

/// The links in order, each with its place in their arena. To look at one by its index is a step, so
/// that nobody goes over them uncounted; the search for one looks at few, and is none.
#[derive(Drop)]
pub struct RowList {
    list: Vec<RowPlace>,
}

impl Model for RowList {
    ghost use Rattle.std.specs.Prelude.{◌-◌, vec_capacity, vec_len};
    ghost use Rattle.cell_graph.specs.RowPlaces.{RowPlaces};

    ghost Value = { RowPlaces };

    ghost view = { λ r. record { items = r.list.items; spare = vec_capacity r.list - vec_len r.list } };
}

impl RowList {
    pub fn new(alloc: Global) -> RowList
        ensures { result.items ≡ [] }
    {
        RowList {
            list: Vec::new(alloc),
        }
    }

    /// Makes room for so many more.
    pub fn reserve(&mut self, more: usize) -> Result<(), AllocError>
        ensures room { OnOk result (more ≤ self.new.spare) }
        ensures spare { self.old.spare ≤ self.new.spare }
        ensures items { self.new.items ≡ self.old.items }
    {
        self.list.reserve(more)
    }

    /// How many there are.
    pub fn len(&self) -> usize
        ensures { result ≡ length self.now.items }
    {
        self.list.len()
    }

    /// The link at an index. It is one step.
    pub fn at<L: Ledger>(&self, index: usize, steps: &mut Steps<L>) -> RowPlace
        requires { index < length self.now.items }
        ensures place { (d : RowPlace) → result ≡ slice_index_or self.now.items index d }
        ensures step { steps.new ≡ steps.old + 1 }
    {
        steps.tick();
        self.list[index]
    }

    /// The index of a link that is there. It is looked for at an index first.
    pub fn index_near(&self, near: usize, user: SecKey, entry: u32) -> usize
        requires rise { RowsRise self.now.items }
        requires bound { IsTrue (has_row self.now.items user entry) }
        ensures named { IsRowAt self.now.items result user entry }
        ensures bounded { result < usize.MAX }
    {
        row_index_near(&self.list, near, user, entry)
    }

    /// How many come before a link.
    pub fn cut(&self, user: SecKey, entry: u32) -> usize
        requires { RowsRise self.now.items }
        ensures { IsCut (λ r. below_row r.user r.entry user entry) self.now.items result }
    {
        row_cut(&self.list, user, entry)
    }

    /// The links with users of the cell.
    pub fn of_cell(&self, cell: CellId) -> CellRows<'_>
        requires { RowsRise self.now.items }
        ensures { IsCellRange self.now.items cell.0 result }
    {
        CellRows::of(cell_rows(&self.list, cell))
    }

    /// The same, with the index behind them. They are looked for at an index first, and gone over, which
    /// is one step each.
    pub fn of_cell_near<L: Ledger>(
        &self,
        near: usize,
        cell: CellId,
        steps: &mut Steps<L>,
    ) -> (CellRows<'_>, usize)
        requires { RowsRise self.now.items }
        ensures range { IsCellRange self.now.items cell.0 result.0 }
        ensures steps { steps.new ≡ steps.old + length result.0 }
    {
        let (list, next) = cell_rows_near(&self.list, near, cell);
        steps.ticks(list.len());
        (CellRows::of(list), next)
    }

    /// Adds one at an index. Takes no memory. Each link that moves on by one is one step.
    pub fn insert<L: Ledger>(&mut self, index: usize, at: RowPlace, steps: &mut Steps<L>)
        requires room { 0 < self.old.spare }
        requires within { index ≤ length self.old.items }
        ensures items { self.new.items ≡ insert self.old.items index at }
        ensures spare { self.old.spare ≤ self.new.spare + 1 }
        ensures steps { steps.new + index ≡ steps.old + length self.old.items }
    {
        steps.ticks(self.list.len() - index);
        let _ = self.list.insert(index, at);
    }

    /// Opens a gap behind all links, which is in the list from then on. Takes no memory. Each place of it is
    /// one step.
    pub fn open_gap<L: Ledger>(&mut self, size: usize, steps: &mut Steps<L>) -> Gap
        requires { size ≤ self.old.spare }
        ensures gap { IsGap result self.new.items }
        ensures items { around result self.new.items ≡ self.old.items }
        ensures front { result.front ≡ length self.old.items }
        ensures size { result.back ≡ result.front + size }
        ensures end { result.back ≡ length self.new.items }
        ensures spare { self.old.spare ≤ self.new.spare + size }
        ensures steps { steps.new ≡ steps.old + size }
    {
        let _ = self.list.capacity();
        let front = self.list.len();
        let back = front + size;
        steps.ticks(size);
        let _ = self.list.resize(back, RowPlace::nowhere());
        Gap { front, back }
    }

    /// Moves the gap to where a link belongs that comes before those behind it. Each link that it passes is
    /// one step.
    pub fn move_gap<L: Ledger>(
        &mut self,
        gap: Gap,
        user: SecKey,
        entry: u32,
        steps: &mut Steps<L>,
    ) -> Gap
        requires gap { IsGap gap self.old.items }
        requires rise { RowsRise (around gap self.old.items) }
        requires before { AreAbove user entry (drop gap.back self.old.items) }
        ensures gap { IsGap result self.new.items }
        ensures items { around result self.new.items ≡ around gap self.old.items }
        ensures cut { IsCut (λ r. below_row r.user r.entry user entry) (around result self.new.items) result.front }
        ensures size { result.back + gap.front ≡ gap.back + result.front }
        ensures spare { self.new.spare ≡ self.old.spare }
        ensures steps { steps.new + result.front ≡ steps.old + gap.front }
    {
        let front = row_cut(&self.list[..gap.front], user, entry);
        let passed = gap.front - front;
        let back = gap.back - passed;
        steps.ticks(passed);
        self.list.copy_within(front..gap.front, back);
        Gap { front, back }
    }

    /// Puts a link into the last place of the gap. It is one step.
    pub fn fill_gap<L: Ledger>(&mut self, gap: Gap, at: RowPlace, steps: &mut Steps<L>) -> Gap
        requires gap { IsGap gap self.old.items }
        requires left { gap.front < gap.back }
        ensures gap { IsGap result self.new.items }
        ensures items { around result self.new.items ≡ insert (around gap self.old.items) gap.front at }
        ensures behind { drop result.back self.new.items ≡ at ∷ drop gap.back self.old.items }
        ensures front { result.front ≡ gap.front }
        ensures size { result.back + 1 ≡ gap.back }
        ensures spare { self.new.spare ≡ self.old.spare }
        ensures step { steps.new ≡ steps.old + 1 }
    {
        steps.tick();
        let back = gap.back - 1;
        self.list[back] = at;
        Gap {
            front: gap.front,
            back,
        }
    }

    /// Takes those away at whose places no link stands any more. Each that is there is one step.
    pub fn keep_standing<L: Ledger>(&mut self, rows: &Rows, steps: &mut Steps<L>)
        ensures items { self.new.items ≡ standing (get rows.now) self.old.items }
        ensures room { self.new.spare + length self.new.items ≡ self.old.spare + length self.old.items }
        ensures steps { steps.new ≡ steps.old + length self.old.items }
    {
        let _ = self.list.capacity();
        steps.ticks(self.list.len());
        self.list.retain(|at| rows.has(at.place));
        let _ = self.list.capacity();
    }

    /// Takes those with users of listed cells away. Each link that is there is one step.
    pub fn remove_listed<L: Ledger>(&mut self, cells: &[CellId], steps: &mut Steps<L>)
        ensures items { self.new.items ≡ filter (λ r. not (is_listed cells.now r.user)) self.old.items }
        ensures spare { self.old.spare ≤ self.new.spare }
        ensures steps { steps.new ≡ steps.old + length self.old.items }
    {
        steps.ticks(self.list.len());
        self.list.retain(|at| !is_listed(cells, at.user));
    }
}

/// Where in the list a link is that is there.
fn row_index(list: &[RowPlace], user: SecKey, entry: u32) -> usize
    requires rise { RowsRise list.now }
    requires bound { IsTrue (has_row list.now user entry) }
    ensures { IsRowAt list.now result user entry }
{
    row_cut(list, user, entry)
}

/// Whether the list names a link of this user and entry at the index.
fn is_row_at(list: &[RowPlace], index: usize, user: SecKey, entry: u32) -> bool
    ensures { IsTrue result → IsRowAt list.now index user entry }
{
    match list.get(index) {
        Some(row) => row.user == user && row.entry == entry,
        None => false,
    }
}

/// Where in the list a link is that is there. It is looked for at an index first.
fn row_index_near(list: &[RowPlace], near: usize, user: SecKey, entry: u32) -> usize
    requires rise { RowsRise list.now }
    requires bound { IsTrue (has_row list.now user entry) }
    ensures { IsRowAt list.now result user entry }
{
    if is_row_at(list, near, user, entry) {
        return near;
    }
    row_index(list, user, entry)
}

/// The links that the list names with users of the cell.
fn cell_rows(list: &[RowPlace], cell: CellId) -> &[RowPlace]
    requires { RowsRise list.now }
    ensures { IsCellRange list.now cell.0 result.now }
{
    let front = &list[..row_cell_end(list, cell)];
    &front[row_cell_start(front, cell)..]
}
