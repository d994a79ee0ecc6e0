//! The PCREL_HI20 entries of an object by their places.

ghost use Rattle.std.specs.Prelude.{◌≡◌, ℕ, IfOk, OnOk, cond, Some, None};
ghost use Rattle.std.specs.Option.{option_or};
ghost use Rattle.std.specs.BTreeMap.{get};
ghost use Rattle.cell_object.specs.Parts.{high_of as high};
ghost use Rattle.cell_link.specs.Tables.{spot_cmp};
ghost use Rattle.cell_target.specs.Highs.{is_high_at, IsHighs};

use cell_link::{insert_first, label_of, spot};
use cell_num::is_pcrel_hi20;
use cell_object::{Entry, Object};
use std::alloc::{AllocError, Global};
use std::collections::BTreeMap;

/// The PCREL_HI20 entries by section and offset; the first at a place counts.
#[derive(Drop)]
pub struct Highs<'a> {
    pub object: &'a Object,
    entries: BTreeMap<(u16, u64), Entry>,
    ghost are: { IsHighs object.now.entries entries },
}

/// Keeps an entry, where it is a PCREL_HI20 entry and no earlier one is at its place.
fn insert_high(highs: &mut BTreeMap<(u16, u64), Entry>, entry: &Entry) -> Result<(), AllocError>
    ensures { OnOk result ((q : ℕ × ℕ) → get spot_cmp highs.new q ≡ option_or (get spot_cmp highs.old q) (cond (is_high_at q entry.now) (Some entry.now) None)) }
{
    if !is_pcrel_hi20(entry.kind) {
        return Ok(());
    }
    match insert_first(highs, spot(entry), *entry) {
        Ok(()) => Ok(()),
        Err(_) => Err(AllocError),
    }
}

fn highs_of(alloc: Global, entries: &[Entry]) -> Result<BTreeMap<(u16, u64), Entry>, AllocError>
    ensures { IfOk result (λ highs. IsHighs entries.now highs) }
{
    let mut highs = BTreeMap::new(alloc);
    for index in 0..entries.len() {
        insert_high(&mut highs, &entries[index])?;
    }
    Ok(highs)
}

impl<'a> Highs<'a> {
    pub fn of(alloc: Global, object: &'a Object) -> Result<Highs<'a>, AllocError>
        ensures { IfOk result (λ highs. highs.object.now ≡ object.now) }
    {
        let entries = highs_of(alloc, object.entries.as_slice())?;
        Ok(Highs { object, entries })
    }

    /// The PCREL_HI20 entry at the label of a PCREL_LO12 entry.
    pub fn high_of(&self, entry: &Entry) -> Option<Entry>
        ensures { result ≡ high self.now.object.now entry.now }
    {
        let label = label_of(self.object, entry)?;
        self.entries.get(&label).copied()
    }
}
