//! Where the fields of a cell are.

ghost use Rattle.std.specs.Prelude.{◌≡◌, ◌<◌, ◌^◌, ◌+◌, ◌==◌, ℕ, All, IfOk, IfErr, find, option_map};
ghost use Rattle.std.specs.Ordering.{nat_cmp};
ghost use Rattle.std.specs.BTreeMap.{get};
ghost use Rattle.cell_world.specs.Linked.Field.{place_of};
ghost use Rattle.cell_world.specs.Linked.Target.{start_of};
ghost use Rattle.cell_link.specs.Tables.{operands_of};
ghost use Rattle.cell_link.specs.declared.fail.LinkFail.TheVariants.{OutOfMemory};

use crate::LinkFail;
use crate::maps::insert_first;
use crate::numbers::{Operands, address};
use cell_object::Entry;
use cell_world::{NewCell, SecPlace, Target};
use std::alloc::Global;
use std::collections::BTreeMap;

/// The starts of a cell's sections.
#[derive(Drop)]
pub struct Places<'a> {
    pub cell: &'a NewCell,
    starts: BTreeMap<u16, u64>,
    ghost are: { (q : ℕ) → get nat_cmp starts q ≡ option_map (λ p. p.start) (find (λ p. p.section == q) cell.now.places) },
    ghost low: { All (λ p. p.start < 2 ^ 63) cell.now.places },
}

/// The start of each section that has a place; where a section has two, the first counts.
fn starts_of(alloc: Global, places: &[SecPlace]) -> Result<BTreeMap<u16, u64>, LinkFail>
    ensures memory { IfErr result (λ e. e ≡ OutOfMemory) }
    ensures starts { IfOk result (λ starts. (q : ℕ) → get nat_cmp starts q ≡ option_map (λ p. p.start) (find (λ p. p.section == q) places.now)) }
{
    let mut starts = BTreeMap::new(alloc);
    for place in places {
        insert_first(&mut starts, place.section, place.start)?;
    }
    Ok(starts)
}

impl<'a> Places<'a> {
    pub fn of(alloc: Global, cell: &'a NewCell) -> Result<Places<'a>, LinkFail>
        requires low { All (λ p. p.start < 2 ^ 63) cell.now.places }
        ensures memory { IfErr result (λ e. e ≡ OutOfMemory) }
        ensures cell { IfOk result (λ places. places.cell.now ≡ cell.now) }
    {
        let starts = starts_of(alloc, cell.places.as_slice())?;
        Ok(Places { cell, starts })
    }

    #[tactic(auto, using(crate::proofs::FirstLemmas::starts))]
    fn start(&self, section: u16) -> u64
        ensures start { result ≡ start_of self.now.cell.now section }
        ensures low { result < 2 ^ 63 }
    {
        self.starts.get(&section).copied().unwrap_or(0)
    }

    /// The address of the field that an entry is at.
    pub fn place(&self, entry: &Entry) -> u64
        ensures { result ≡ place_of self.now.cell.now entry.now }
    {
        let offset = entry.offset;
        self.start(entry.section) + u64::from(offset)
    }

    /// What the number of an entry with this target is made of.
    pub fn operands(&self, entry: &Entry, target: &Target) -> Operands
        ensures { result ≡ operands_of self.now.cell.now (record { entry = entry.now; target = target.now }) }
    {
        Operands {
            target: address(target),
            addend: entry.addend,
            place: self.place(entry),
        }
    }
}
