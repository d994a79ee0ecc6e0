//! What the entries of a described cell name.

ghost use Rattle.std.specs.Prelude.{◌≡◌, IfOk, option_and_then};
ghost use Rattle.cell_audit.specs.Linking.{lacks_provider};
ghost use Rattle.cell_described.specs.Faults.{object_at};
ghost use Rattle.cell_num.specs.Lists.{or_else, where_true};
ghost use Rattle.cell_object.specs.Parts.{high_of};
ghost use Rattle.cell_world.specs.Linked.Target.{numbered_target, target_of};
ghost use Rattle.cell_relinked.specs.Asked.{IsAsking};
ghost use Rattle.cell_relinked.specs.Fit.{IsFit};
ghost use Rattle.cell_relinked.specs.Scene.{seen_in, world_of};
ghost use Rattle.cell_relinked.specs.Entries.{AreEntries};

use crate::chain::chain_of;
use crate::provider::Sights;
use crate::scene::Scene;
use crate::symbols::Known;
use cell_described::DescribedCell;
use cell_num::is_pcrel_lo12;
use cell_object::Entry;
use cell_target::Highs;
use cell_world::Target;
use std::alloc::{AllocError, Global};

/// The targets of a cell's entries, in table order, and the place of the first entry that names a need
/// without a provider.
#[derive(Drop)]
pub struct Entries {
    pub targets: Vec<Target>,
    pub lacking: Option<usize>,
}

/// The first place of all, where this is one more.
fn first_place(first: Option<usize>, is_one: bool, place: usize) -> Option<usize>
    ensures { result ≡ or_else first (where_true is_one place) }
{
    match first {
        Some(first) => Some(first),
        None => is_one.then_some(place),
    }
}

impl<'a> Scene<'a> {
    /// What the PCREL_HI20 entry names that is at the label of a PCREL_LO12 entry.
    fn high_target(
        &self,
        cell: &DescribedCell,
        sights: &Sights,
        highs: &Highs,
        entry: &Entry,
    ) -> Option<Target>
        requires asking { IsAsking self.now cell.now sights.now }
        requires fit { IsFit self.now.objects.now cell.now }
        ensures { result ≡ option_and_then (λ high. numbered_target (world_of self.now) (seen_in self.now cell.now) high.symbol) (high_of highs.now.object.now entry.now) }
    {
        let high = highs.high_of(entry)?;
        self.numbered(cell, sights, high.symbol).target
    }

    /// What the entry names, and whether its symbol is a need without a provider. A PCREL_LO12 entry names what the
    /// PCREL_HI20 entry at its label names.
    fn named(&self, cell: &DescribedCell, sights: &Sights, highs: &Highs, entry: &Entry) -> Known
        requires asking { IsAsking self.now cell.now sights.now }
        requires fit { IsFit self.now.objects.now cell.now }
        requires highs { highs.now.object.now ≡ object_at self.now.objects.now cell.now.object }
        ensures target { result.target ≡ target_of (world_of self.now) (seen_in self.now cell.now) entry.now }
        ensures lacking { result.lacking ≡ lacks_provider (world_of self.now) (seen_in self.now cell.now) entry.now }
    {
        let own = self.numbered(cell, sights, entry.symbol);
        if !is_pcrel_lo12(entry.kind) {
            return own;
        }
        Known {
            target: self.high_target(cell, sights, highs, entry),
            lacking: own.lacking,
        }
    }

    /// The same of all entries of the cell. What has no target counts as the number 0.
    fn all_named(
        &self,
        alloc: Global,
        cell: &DescribedCell,
        sights: &Sights,
    ) -> Result<Entries, AllocError>
        requires asking { IsAsking self.now cell.now sights.now }
        requires fit { IsFit self.now.objects.now cell.now }
        ensures { IfOk result (AreEntries (world_of self.now) (seen_in self.now cell.now)) }
    {
        let object = self.object(cell);
        let highs = Highs::of(alloc, object)?;
        let entries = object.entries.as_slice();
        let mut targets = Vec::with_capacity(alloc, entries.len())?;
        let mut lacking = None;
        for index in 0..entries.len() {
            let known = self.named(cell, sights, &highs, &entries[index]);
            targets.push(known.target.unwrap_or(Target::Number { value: 0 }))?;
            lacking = first_place(lacking, known.lacking, index);
        }
        Ok(Entries { targets, lacking })
    }

    /// What the entries of the cell name.
    pub fn entries(&self, alloc: Global, cell: &DescribedCell) -> Result<Entries, AllocError>
        requires { IsFit self.now.objects.now cell.now }
        ensures { IfOk result (AreEntries (world_of self.now) (seen_in self.now cell.now)) }
    {
        let spaces = chain_of(alloc, self.namespaces, cell.ns)?;
        let sights = self.sights(alloc, cell.group, &spaces)?;
        self.all_named(alloc, cell, &sights)
    }
}
