//! The arena of the links.

ghost use Rattle.std.specs.Prelude.{◌≡◌, ◌↔◌, ℕ, ◌+◌, ◌≤◌, [], None, Some, IfSome, IsTrue, OnOk};
ghost use Rattle.slab.specs.Slab.{ContainsKey, HasRoomFor, get, slab_len};

use crate::steps::Steps;
use cell_world::LinkRow;
use slab::Slab;
use std::alloc::{AllocError, Global};
use std::marker::Model;
use std::sync::ledger::Ledger;

/// A link, and the places of its neighbours among the links with its target.
#[derive(Clone, Copy, Debug, PartialEq, Eq)]
pub struct ChainRow {
    pub row: LinkRow,
    pub before: Option<usize>,
    pub after: Option<usize>,
}

/// The links, each at a place of its own. Contracts see what stands at each place.
#[derive(Drop)]
pub struct Rows {
    arena: Slab<ChainRow>,
}

impl Model for Rows {
    ghost use Rattle.slab.specs.Slab.{Slab as Slots};
    ghost use Rattle.cell_graph.specs.declared.rows.ChainRow.{ChainRow as Linked};

    ghost Value = { Slots Linked };

    ghost view = { λ r. r.arena };
}

impl Rows {
    ghost use Rattle.cell_graph.specs.Edits.{after_set, before_set, edited, placed, without};

    pub(crate) fn new(alloc: Global) -> Rows
        ensures empty { result.slots ≡ [] }
        ensures capacity { result.capacity ≡ 0 }
    {
        Rows {
            arena: Slab::new(alloc),
        }
    }

    /// Makes room for so many more.
    pub(crate) fn reserve(&mut self, more: usize) -> Result<(), AllocError>
        ensures room { OnOk result (HasRoomFor self.new more) }
        ensures capacity { self.old.capacity ≤ self.new.capacity }
        ensures slots { self.new.slots ≡ self.old.slots }
    {
        self.arena.reserve(more)
    }

    /// How many there are.
    pub(crate) fn len(&self) -> usize
        ensures { result ≡ slab_len self.now }
    {
        self.arena.len()
    }

    /// Whether a link stands at the place.
    pub(crate) fn has(&self, place: usize) -> bool
        ensures { IsTrue result ↔ ContainsKey self.now place }
    {
        self.arena.contains(place)
    }

    /// How many there is room for.
    pub(crate) fn capacity(&self) -> usize
        ensures value { result ≡ self.now.capacity }
        ensures holds_all { slab_len self.now ≤ result }
    {
        self.arena.capacity()
    }

    /// The link at a place where one stands. It is one step, and there is no other way to read a link.
    pub fn read<L: Ledger>(&self, place: usize, steps: &mut Steps<L>) -> ChainRow
        requires { ContainsKey self.now place }
        ensures row { get self.now place ≡ Some result }
        ensures step { steps.new ≡ steps.old + 1 }
    {
        steps.tick();
        match self.arena.get(place) {
            Some(row) => *row,
            None => unreachable!(),
        }
    }

    /// Puts a link at a place that was empty. Takes no memory.
    pub(crate) fn insert(&mut self, row: ChainRow) -> usize
        requires { HasRoomFor self.old 1 }
        ensures was_empty { get self.old result ≡ None }
        ensures placed { (other : ℕ) → get self.new other ≡ placed (get self.old) result row other }
        ensures len { slab_len self.new ≡ slab_len self.old + 1 }
        ensures capacity { self.new.capacity ≡ self.old.capacity }
    {
        self.arena.insert_reserved(row)
    }

    /// Puts another link in the place of one.
    pub(crate) fn write(&mut self, place: usize, row: ChainRow)
        requires { ContainsKey self.old place }
        ensures placed { (other : ℕ) → get self.new other ≡ placed (get self.old) place row other }
        ensures len { slab_len self.new ≡ slab_len self.old }
        ensures capacity { self.new.capacity ≡ self.old.capacity }
    {
        match self.arena.get_mut(place) {
            Some(at) => *at = row,
            None => unreachable!(),
        }
    }

    /// Names another neighbour before the link at the place, if one is given.
    pub(crate) fn set_before(&mut self, place: Option<usize>, before: Option<usize>)
        requires { IfSome place (ContainsKey self.old) }
        ensures edited { (other : ℕ) → get self.new other ≡ edited (get self.old) place (before_set before) other }
        ensures len { slab_len self.new ≡ slab_len self.old }
        ensures capacity { self.new.capacity ≡ self.old.capacity }
    {
        let Some(place) = place else {
            return;
        };
        match self.arena.get_mut(place) {
            Some(at) => at.before = before,
            None => unreachable!(),
        }
    }

    /// Names another neighbour after the link at the place, if one is given.
    pub(crate) fn set_after(&mut self, place: Option<usize>, after: Option<usize>)
        requires { IfSome place (ContainsKey self.old) }
        ensures edited { (other : ℕ) → get self.new other ≡ edited (get self.old) place (after_set after) other }
        ensures len { slab_len self.new ≡ slab_len self.old }
        ensures capacity { self.new.capacity ≡ self.old.capacity }
    {
        let Some(place) = place else {
            return;
        };
        match self.arena.get_mut(place) {
            Some(at) => at.after = after,
            None => unreachable!(),
        }
    }

    /// Takes a link away.
    pub(crate) fn remove(&mut self, place: usize)
        requires { ContainsKey self.old place }
        ensures gone { (other : ℕ) → get self.new other ≡ without (get self.old) place other }
        ensures len { slab_len self.new + 1 ≡ slab_len self.old }
        ensures capacity { self.new.capacity ≡ self.old.capacity }
    {
        let _ = self.arena.remove(place);
    }
}
