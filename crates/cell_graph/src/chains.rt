//! The arena of the sections, and the chains of links, each through the links with one target.

ghost use Rattle.std.specs.Prelude.{◌≡◌, ◌≢◌, ℕ, ◌+◌, ◌≤◌, [], None, Some, OnOk};
ghost use Rattle.slab.specs.Slab.{ContainsKey, HasRoomFor, get, slab_len};
ghost use Rattle.cell_graph.specs.Chains.{AreChained, IsHome, SameKeys, SameLinks};
ghost use Rattle.cell_graph.specs.Dropped.{HasNone};
ghost use Rattle.cell_graph.specs.Edits.{without};
ghost use Rattle.cell_graph.specs.Heads.{HasNew};

use crate::rows::{ChainRow, Rows};
use crate::section::Section;
use crate::steps::Steps;
use cell_world::LinkRow;
use slab::Slab;
use std::alloc::{AllocError, Global};
use std::marker::Model;
use std::sync::ledger::Ledger;

/// The present sections, each at a place of its own. Contracts see what stands at each place.
#[derive(Drop)]
pub struct Sections {
    arena: Slab<Section>,
}

impl Model for Sections {
    ghost use Rattle.slab.specs.Slab.{Slab as Slots};
    ghost use Rattle.cell_graph.specs.declared.section.Section.{Section as Head};

    ghost Value = { Slots Head };

    ghost view = { λ s. s.arena };
}

impl Sections {
    pub fn new(alloc: Global) -> Sections
        ensures empty { result.slots ≡ [] }
        ensures capacity { result.capacity ≡ 0 }
    {
        Sections {
            arena: Slab::new(alloc),
        }
    }

    /// Makes room for so many more.
    pub fn reserve(&mut self, more: usize) -> Result<(), AllocError>
        ensures room { OnOk result (HasRoomFor self.new more) }
        ensures capacity { self.old.capacity ≤ self.new.capacity }
        ensures slots { self.new.slots ≡ self.old.slots }
    {
        self.arena.reserve(more)
    }

    /// How many there is room for.
    pub fn capacity(&self) -> usize
        ensures value { result ≡ self.now.capacity }
        ensures holds_all { slab_len self.now ≤ result }
    {
        self.arena.capacity()
    }

    /// The section at a place, if one stands there. It is one step.
    pub fn look<L: Ledger>(&self, place: usize, steps: &mut Steps<L>) -> Option<Section>
        ensures section { result ≡ get self.now place }
        ensures step { steps.new ≡ steps.old + 1 }
    {
        steps.tick();
        self.arena.get(place).copied()
    }

    /// Puts a section at a place that was empty. Takes no memory.
    pub fn insert(&mut self, section: Section) -> usize
        requires { HasRoomFor self.old 1 }
        ensures was_empty { get self.old result ≡ None }
        ensures stands { get self.new result ≡ Some section }
        ensures others { (p : ℕ) → p ≢ result → get self.new p ≡ get self.old p }
        ensures len { slab_len self.new ≡ slab_len self.old + 1 }
        ensures capacity { self.new.capacity ≡ self.old.capacity }
    {
        self.arena.insert_reserved(section)
    }

    /// Takes a section away.
    pub fn remove(&mut self, place: usize)
        requires { ContainsKey self.old place }
        ensures gone { HasNone (get self.old) (get self.new) place }
        ensures len { slab_len self.new + 1 ≡ slab_len self.old }
        ensures capacity { self.new.capacity ≡ self.old.capacity }
    {
        let _ = self.arena.remove(place);
    }
}

/// Puts a link at a place whose link is in no chain, before the others with its target.
pub fn link(sections: &mut Sections, rows: &mut Rows, target: usize, place: usize, row: LinkRow)
    requires chained { AreChained (without (get rows.old) place) (get sections.old) }
    requires stands { ContainsKey rows.old place }
    requires home { IsHome (get sections.old) target row.target }
    ensures chained { AreChained (get rows.new) (get sections.new) }
    ensures links { HasNew (get rows.old) (get rows.new) place row }
    ensures keys { SameKeys (get sections.old) (get sections.new) }
    ensures row_count { slab_len rows.new ≡ slab_len rows.old }
    ensures section_count { slab_len sections.new ≡ slab_len sections.old }
    ensures row_capacity { rows.new.capacity ≡ rows.old.capacity }
    ensures section_capacity { sections.new.capacity ≡ sections.old.capacity }
{
    let _ = rows.len();
    let Some(section) = sections.arena.get_mut(target) else {
        unreachable!();
    };
    let first = section.first;
    section.gain(place);
    rows.set_before(first, Some(place));
    rows.write(
        place,
        ChainRow {
            row,
            before: None,
            after: first,
        },
    );
}

/// Takes the link at a place out of the chain of its target.
pub fn unlink(
    sections: &mut Sections,
    rows: &mut Rows,
    target: usize,
    place: usize,
    chain: ChainRow,
)
    requires chained { AreChained (get rows.old) (get sections.old) }
    requires stands { get rows.old place ≡ Some chain }
    requires home { IsHome (get sections.old) target chain.row.target }
    ensures chained { AreChained (without (get rows.new) place) (get sections.new) }
    ensures links { SameLinks (get rows.old) (get rows.new) }
    ensures keys { SameKeys (get sections.old) (get sections.new) }
    ensures row_count { slab_len rows.new ≡ slab_len rows.old }
    ensures section_count { slab_len sections.new ≡ slab_len sections.old }
    ensures row_capacity { rows.new.capacity ≡ rows.old.capacity }
    ensures section_capacity { sections.new.capacity ≡ sections.old.capacity }
{
    let Some(section) = sections.arena.get_mut(target) else {
        unreachable!();
    };
    section.lose(chain.before, chain.after);
    rows.set_after(chain.before, chain.after);
    rows.set_before(chain.after, chain.before);
}
