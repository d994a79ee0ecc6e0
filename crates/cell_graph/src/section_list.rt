//! The list of the present sections.

ghost use Rattle.std.specs.Prelude.{◌≡◌, ◌↔◌, ◌+◌, ◌<◌, ◌≤◌, ◌∷◌, ◌++◌, [], Contains, IsTrue, OnOk, filter, length, map, not, slice_index_or};
ghost use Rattle.cell_graph.specs.Lists.{IsSectionAt, IsSectionRange, SectionsRise};
ghost use Rattle.cell_graph.specs.Removal.{is_listed};
ghost use Rattle.cell_graph.specs.declared.order.SectionPlace.{SectionPlace};

use crate::order::{SectionPlace, is_same, section_cell_end, section_cell_start, section_cut};
use crate::removal::is_listed;
use crate::steps::Steps;
use cell_num::{CellId, SecKey};
use std::alloc::{AllocError, Global};
use std::marker::Model;
use std::sync::ledger::Ledger;

/// The present sections in order, each with its place in their arena. To look at one by its index is a
/// step, so that nobody goes over them uncounted; the search for a key looks at few, and is none.
#[derive(Drop)]
pub struct SectionList {
    list: Vec<SectionPlace>,
}

impl Model for SectionList {
    ghost use Rattle.std.specs.Prelude.{◌-◌, vec_capacity, vec_len};
    ghost use Rattle.cell_graph.specs.SectionPlaces.{SectionPlaces};

    ghost Value = { SectionPlaces };

    ghost view = { λ s. record { items = s.list.items; spare = vec_capacity s.list - vec_len s.list } };
}

impl SectionList {
    pub fn new(alloc: Global) -> SectionList
        ensures { result.items ≡ [] }
    {
        SectionList {
            list: Vec::new(alloc),
        }
    }

    /// Makes room for so many more.
    pub fn reserve(&mut self, more: usize) -> Result<(), AllocError>
        ensures room { OnOk result (more ≤ self.new.spare) }
        ensures spare { self.old.spare ≤ self.new.spare }
        ensures items { self.new.items ≡ self.old.items }
    {
        self.list.reserve(more)
    }

    /// How many there are.
    pub fn len(&self) -> usize
        ensures { result ≡ length self.now.items }
    {
        self.list.len()
    }

    /// The section at an index. It is one step.
    pub fn at<L: Ledger>(&self, index: usize, steps: &mut Steps<L>) -> SectionPlace
        requires { index < length self.now.items }
        ensures place { (d : SectionPlace) → result ≡ slice_index_or self.now.items index d }
        ensures step { steps.new ≡ steps.old + 1 }
    {
        steps.tick();
        self.list[index]
    }

    /// Whether the section is there.
    pub fn has(&self, key: SecKey) -> bool
        requires { SectionsRise self.now.items }
        ensures { IsTrue result ↔ Contains (map (λ s. s.key) self.now.items) key }
    {
        has_section(&self.list, key)
    }

    /// The place of a section that is there.
    pub fn place(&self, key: SecKey) -> usize
        requires rise { SectionsRise self.now.items }
        requires present { Contains (map (λ s. s.key) self.now.items) key }
        ensures { Contains self.now.items (record { key = key; place = result }) }
    {
        section_place(&self.list, key)
    }

    /// The index of a section that is there. It is looked for at an index first.
    pub fn index_near(&self, near: usize, key: SecKey) -> usize
        requires rise { SectionsRise self.now.items }
        requires present { Contains (map (λ s. s.key) self.now.items) key }
        ensures { IsSectionAt self.now.items result key }
    {
        section_index_near(&self.list, near, key)
    }

    /// The place of a section that is there, and the index where it is named. It is looked for at an index
    /// first.
    pub fn place_near(&self, near: usize, key: SecKey) -> (usize, usize)
        requires rise { SectionsRise self.now.items }
        requires present { Contains (map (λ s. s.key) self.now.items) key }
        ensures named { Contains self.now.items (record { key = key; place = result.0 }) }
        ensures bounded { result.1 < usize.MAX }
    {
        section_place_near(&self.list, near, key)
    }

    /// The sections of a cell.
    pub fn of_cell(&self, cell: CellId) -> CellSections<'_>
        requires { SectionsRise self.now.items }
        ensures { IsSectionRange self.now.items cell.0 result }
    {
        CellSections {
            list: cell_sections(&self.list, cell),
        }
    }

    /// Adds one at the end. Takes no memory.
    pub fn push(&mut self, at: SectionPlace)
        requires { 0 < self.old.spare }
        ensures items { self.new.items ≡ self.old.items ++ at ∷ [] }
        ensures spare { self.old.spare ≤ self.new.spare + 1 }
    {
        let _ = self.list.push(at);
    }

    /// Takes those of listed cells away. Each section that is there is one step.
    pub fn remove_listed<L: Ledger>(&mut self, cells: &[CellId], steps: &mut Steps<L>)
        ensures items { self.new.items ≡ filter (λ s. not (is_listed cells.now s.key)) self.old.items }
        ensures spare { self.old.spare ≤ self.new.spare }
        ensures steps { steps.new ≡ steps.old + length self.old.items }
    {
        steps.ticks(self.list.len());
        self.list.retain(|at| !is_listed(cells, at.key));
    }
}

/// The sections of one cell in order. To look at one is a step here too.
#[derive(Drop)]
pub struct CellSections<'a> {
    list: &'a [SectionPlace],
}

impl<'a> Model for CellSections<'a> {
    ghost use Rattle.std.specs.Prelude.{List};
    ghost use Rattle.cell_graph.specs.declared.order.SectionPlace.{SectionPlace};

    ghost Value = { List SectionPlace };

    ghost view = { λ s. s.list.now };
}

impl<'a> CellSections<'a> {
    /// How many there are.
    pub fn len(&self) -> usize
        ensures { result ≡ length self.now }
    {
        self.list.len()
    }

    /// The section at an index. It is one step.
    pub fn at<L: Ledger>(&self, index: usize, steps: &mut Steps<L>) -> SectionPlace
        requires { index < length self.now }
        ensures place { (d : SectionPlace) → result ≡ slice_index_or self.now index d }
        ensures step { steps.new ≡ steps.old + 1 }
    {
        steps.tick();
        section_at(self.list, index)
    }
}

/// The section at an index.
fn section_at(list: &[SectionPlace], index: usize) -> SectionPlace
    requires { index < length list.now }
    ensures { (d : SectionPlace) → result ≡ slice_index_or list.now index d }
{
    list[index]
}

/// Where in the list a section is that is there.
fn section_index(list: &[SectionPlace], key: SecKey) -> usize
    requires rise { SectionsRise list.now }
    requires present { Contains (map (λ s. s.key) list.now) key }
    ensures { IsSectionAt list.now result key }
{
    section_cut(list, key)
}

/// Whether the list names the section.
fn has_section(list: &[SectionPlace], key: SecKey) -> bool
    requires { SectionsRise list.now }
    ensures { IsTrue result ↔ Contains (map (λ s. s.key) list.now) key }
{
    let index = section_cut(list, key);
    if index < list.len() {
        is_same(list[index].key, key)
    } else {
        false
    }
}

/// The place of a section that is there.
fn section_place(list: &[SectionPlace], key: SecKey) -> usize
    requires rise { SectionsRise list.now }
    requires present { Contains (map (λ s. s.key) list.now) key }
    ensures { Contains list.now (record { key = key; place = result }) }
{
    let index = section_index(list, key);
    list[index].place
}

/// Whether the list names the section at the index.
fn is_section_at(list: &[SectionPlace], index: usize, key: SecKey) -> bool
    ensures { IsTrue result → IsSectionAt list.now index key }
{
    match list.get(index) {
        Some(section) => section.key == key,
        None => false,
    }
}

/// Where in the list a section is that is there. It is looked for at an index first.
fn section_index_near(list: &[SectionPlace], near: usize, key: SecKey) -> usize
    requires rise { SectionsRise list.now }
    requires present { Contains (map (λ s. s.key) list.now) key }
    ensures { IsSectionAt list.now result key }
{
    if is_section_at(list, near, key) {
        return near;
    }
    section_index(list, key)
}

/// The place of a section that is there, and the index where the list names it. It is looked for at an
/// index first.
fn section_place_near(list: &[SectionPlace], near: usize, key: SecKey) -> (usize, usize)
    requires rise { SectionsRise list.now }
    requires present { Contains (map (λ s. s.key) list.now) key }
    ensures named { Contains list.now (record { key = key; place = result.0 }) }
    ensures within { result.1 < length list.now }
{
    let index = section_index_near(list, near, key);
    (list[index].place, index)
}

/// The sections of a cell that the list names.
fn cell_sections(list: &[SectionPlace], cell: CellId) -> &[SectionPlace]
    requires { SectionsRise list.now }
    ensures { IsSectionRange list.now cell.0 result.now }
{
    let front = &list[..section_cell_end(list, cell)];
    &front[section_cell_start(front, cell)..]
}
