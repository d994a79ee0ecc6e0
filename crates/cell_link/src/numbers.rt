//! The number that an entry stands for.

ghost use Rattle.std.specs.Prelude.{◌≡◌, ◌<◌, ℕ, length, IfOk, IfErr, OnOk, Option, Some, option_map};
ghost use Rattle.std.specs.BTreeMap.{get};
ghost use Rattle.cell_object.specs.Parts.{label_of as label, symbol_at as symbol_with};
ghost use Rattle.cell_world.specs.Linked.Field.{Bound, bound_high_of};
ghost use Rattle.cell_world.specs.Linked.Target.{address_of};
ghost use Rattle.cell_link.specs.Linked.{bound_in};
ghost use Rattle.cell_link.specs.Tables.{spot_cmp, operands_of, high_among, IsNumber, IsNumberOf, IsHighs, IsHighInserted};
ghost use Rattle.cell_link.specs.declared.fail.LinkFail.TheVariants.{OutOfMemory};

use crate::LinkFail;
use crate::maps::insert_first;
use crate::places::Places;
use cell_num::{RelKind, is_pcrel_hi20, is_pcrel_lo12};
use cell_object::{Entry, Home, Object, Symbol};
use cell_reloc::{Unfit, value};
use cell_world::{NewCell, Target};
use std::alloc::Global;
use std::collections::BTreeMap;

/// What the number of an entry is made of.
#[derive(Clone, Copy, Debug, PartialEq, Eq)]
pub struct Operands {
    pub target: u64,
    pub addend: i64,
    pub place: u64,
}

/// The section and the offset that an entry is at.
pub fn spot(entry: &Entry) -> (u16, u64)
    ensures { result ≡ (entry.now.section, entry.now.offset) }
{
    let offset = entry.offset;
    (entry.section, u64::from(offset))
}

/// The address of a target, or its number.
pub fn address(target: &Target) -> u64
    ensures { result ≡ address_of target.now }
{
    match target {
        Target::Section { addr, .. } => *addr,
        Target::Number { value } => *value,
    }
}

fn symbol_at(object: &Object, number: u32) -> Option<&Symbol>
    ensures { option_map (λ s. s.now) result ≡ symbol_with object.now number }
{
    let index = number.checked_sub(1)?;
    object.symbols.as_slice().get(index as usize)
}

/// The section and the offset of the symbol that an entry names, where it is in the object.
pub fn label_of(object: &Object, entry: &Entry) -> Option<(u16, u64)>
    ensures { result ≡ label object.now entry.now }
{
    let symbol = symbol_at(object, entry.symbol)?;
    match symbol.home {
        Home::Inside(section) => Some((section, symbol.value)),
        _ => None,
    }
}

/// The number of an entry with these operands, in a field that holds `held`.
pub fn number_from(kind: RelKind, operands: &Operands, held: u64) -> Result<u64, Unfit>
    ensures { IsNumberOf kind operands.now held result }
{
    value(kind, operands.target, operands.addend, operands.place, held)
}

/// Keeps the operands of an entry, where it is a PCREL_HI20 entry and no earlier one is at its place.
fn insert_high(
    highs: &mut BTreeMap<(u16, u64), Operands>,
    places: &Places,
    entry: &Entry,
    target: &Target,
) -> Result<(), LinkFail>
    ensures memory { IfErr result (λ e. e ≡ OutOfMemory) }
    ensures high { OnOk result (IsHighInserted places.now.cell.now (record { entry = entry.now; target = target.now }) highs.old highs.new) }
{
    if !is_pcrel_hi20(entry.kind) {
        return Ok(());
    }
    let operands = places.operands(entry, target);
    insert_first(highs, spot(entry), operands)
}

/// The operands of the PCREL_HI20 entries by their sections and offsets.
fn highs_of(
    alloc: Global,
    places: &Places,
    targets: &[Target],
) -> Result<BTreeMap<(u16, u64), Operands>, LinkFail>
    requires each { length targets.now ≡ length places.now.cell.now.object.entries }
    ensures memory { IfErr result (λ e. e ≡ OutOfMemory) }
    ensures highs { IfOk result (λ highs. IsHighs places.now.cell.now (bound_in places.now.cell.now targets.now) highs) }
{
    let mut highs = BTreeMap::new(alloc);
    let entries = places.cell.object.entries.as_slice();
    for index in 0..entries.len() {
        insert_high(&mut highs, places, &entries[index], &targets[index])?;
    }
    Ok(highs)
}

/// A cell and its targets, with look-ups for the numbers of its entries.
#[derive(Drop)]
pub struct Numbers<'a> {
    pub places: Places<'a>,
    pub targets: &'a [Target],
    highs: BTreeMap<(u16, u64), Operands>,
    ghost are: { IsHighs places.cell.now (bound_in places.cell.now targets.now) highs },
}

impl<'a> Numbers<'a> {
    pub fn of(
        alloc: Global,
        places: Places<'a>,
        targets: &'a [Target],
    ) -> Result<Numbers<'a>, LinkFail>
        requires each { length targets.now ≡ length places.cell.now.object.entries }
        ensures memory { IfErr result (λ e. e ≡ OutOfMemory) }
        ensures cell { IfOk result (λ numbers. numbers.places.cell.now ≡ places.entry.cell.now) }
        ensures targets { IfOk result (λ numbers. numbers.targets.now ≡ targets.now) }
    {
        let highs = highs_of(alloc, &places, targets)?;
        Ok(Numbers {
            places,
            targets,
            highs,
        })
    }

    /// The operands of the PCREL_HI20 entry at the label of a PCREL_LO12 entry.
    fn high_of(&self, entry: &Entry) -> Option<Operands>
        ensures { let c = self.now.places.cell.now in result ≡ option_map (operands_of c) (bound_high_of c (bound_in c self.now.targets.now) entry.now) }
    {
        let label = label_of(&self.places.cell.object, entry)?;
        self.highs.get(&label).copied()
    }

    /// The number of an entry modulo 2^64, in a field that holds `held`.
    #[tactic(auto, using(crate::proofs::NumberLemmas::numbers))]
    pub fn number(&self, entry: &Entry, target: &Target, held: u64) -> Result<u64, Unfit>
        ensures { let c = self.now.places.cell.now in IsNumber c (bound_in c self.now.targets.now) (record { entry = entry.now; target = target.now }) held result }
    {
        if !is_pcrel_lo12(entry.kind) {
            return number_from(entry.kind, &self.places.operands(entry, target), held);
        }
        match self.high_of(entry) {
            Some(high) => number_from(entry.kind, &high, held),
            None => Ok(0),
        }
    }
}
