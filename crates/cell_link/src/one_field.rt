//! One field of a cell, by scans that take no memory.

ghost use Rattle.std.specs.Prelude.{◌≡◌, ◌<◌, ◌==◌, ◌&&◌, ◌^◌, ℕ, All, IfSome, find, length, option_map, slice_get};
ghost use Rattle.cell_num.specs.Kinds.{is_pcrel_hi20 as hi20};
ghost use Rattle.cell_object.specs.Parts.{section_of};
ghost use Rattle.cell_world.specs.Linked.Field.{bound_high_of, is_at as at, own_number as own, place_of};
ghost use Rattle.cell_world.specs.Linked.Target.{start_of};
ghost use Rattle.cell_link.specs.Linked.{IsFieldValue, bound_in};
ghost use Rattle.cell_link.specs.Applied.{IsAppliedAt, IsValueAt};
ghost use Rattle.cell_link.specs.Tables.{IsNumber, high_among, operands_of};

use crate::contents::number_in;
use crate::numbers::{Operands, address, label_of, number_from};
use crate::{FieldValue, Overflow};
use cell_num::{is_pcrel_hi20, is_pcrel_lo12, width};
use cell_object::{Entry, Object, Section};
use cell_reloc::{Unfit, insert_field};
use cell_world::{NewCell, SecPlace, Target};

fn place_of_section(places: &[SecPlace], section: u16) -> Option<&SecPlace>
    ensures { option_map (λ p. p.now) result ≡ find (λ p. p.section == section) places.now }
{
    places.iter().find(|place| place.section == section)
}

fn section_with(object: &Object, number: u16) -> Option<&Section>
    ensures { option_map (λ s. s.now) result ≡ section_of object.now number }
{
    object
        .sections
        .as_slice()
        .iter()
        .find(|section| section.number == number)
}

/// The number that the object has in the field that an entry is at.
fn own_number(object: &Object, entry: &Entry) -> u64
    ensures { result ≡ own object.now entry.now }
{
    match section_with(object, entry.section) {
        Some(section) => number_in(section, entry),
        None => 0,
    }
}

/// Whether this is the PCREL_HI20 entry of a label.
fn is_high_at(entry: &Entry, label: (u16, u64)) -> bool
    ensures { result ≡ (hi20 entry.now.kind && entry.now.section == label.0 && entry.now.offset == label.1) }
{
    let offset = entry.offset;
    is_pcrel_hi20(entry.kind) && entry.section == label.0 && u64::from(offset) == label.1
}

fn is_at(first: &Entry, entry: &Entry) -> bool
    ensures { result ≡ at first.now entry.now }
{
    entry.section == first.section && entry.offset == first.offset
}

/// A cell and the targets of its entries.
#[derive(Clone, Copy)]
struct Table<'a> {
    cell: &'a NewCell,
    targets: &'a [Target],
    ghost each: { length targets.now ≡ length cell.now.object.entries },
    ghost few: { length cell.now.object.entries < 2 ^ 32 },
    ghost low: { All (λ p. p.start < 2 ^ 63) cell.now.places },
}

impl<'a> Table<'a> {
    fn start(&self, section: u16) -> u64
        ensures start { result ≡ start_of self.now.cell.now section }
        ensures low { result < 2 ^ 63 }
    {
        match place_of_section(self.cell.places.as_slice(), section) {
            Some(place) => place.start,
            None => 0,
        }
    }

    /// The address of the field that an entry is at.
    fn place(&self, entry: &Entry) -> u64
        ensures { result ≡ place_of self.now.cell.now entry.now }
    {
        let offset = entry.offset;
        self.start(entry.section) + u64::from(offset)
    }

    fn operands(&self, entry: &Entry, target: &Target) -> Operands
        ensures { result ≡ operands_of self.now.cell.now (record { entry = entry.now; target = target.now }) }
    {
        Operands {
            target: address(target),
            addend: entry.addend,
            place: self.place(entry),
        }
    }

    /// The operands of the PCREL_HI20 entry at a label.
    fn high_at(&self, label: (u16, u64)) -> Option<Operands>
        ensures { result ≡ high_among self.now.cell.now (bound_in self.now.cell.now self.now.targets.now) label }
    {
        let entries = self.cell.object.entries.as_slice();
        for index in 0..entries.len() {
            if is_high_at(&entries[index], label) {
                return Some(self.operands(&entries[index], &self.targets[index]));
            }
        }
        None
    }

    /// The operands of the PCREL_HI20 entry at the label of a PCREL_LO12 entry.
    fn high_of(&self, entry: &Entry) -> Option<Operands>
        ensures { result ≡ option_map (operands_of self.now.cell.now) (bound_high_of self.now.cell.now (bound_in self.now.cell.now self.now.targets.now) entry.now) }
    {
        let label = label_of(&self.cell.object, entry)?;
        self.high_at(label)
    }

    /// The number of an entry modulo 2^64, in a field that holds `held`.
    #[tactic(auto, using(crate::proofs::NumberLemmas::numbers))]
    fn number(&self, entry: &Entry, target: &Target, held: u64) -> Result<u64, Unfit>
        ensures { IsNumber self.now.cell.now (bound_in self.now.cell.now self.now.targets.now) (record { entry = entry.now; target = target.now }) held result }
    {
        if !is_pcrel_lo12(entry.kind) {
            return number_from(entry.kind, &self.operands(entry, target), held);
        }
        match self.high_of(entry) {
            Some(high) => number_from(entry.kind, &high, held),
            None => Ok(0),
        }
    }

    /// What the field of `first` holds after the entry at a place of the table, where that is at it.
    fn apply(
        &self,
        first: &Entry,
        place: u32,
        entry: &Entry,
        target: &Target,
        held: u64,
    ) -> Result<u64, Overflow>
        ensures { IsAppliedAt self.now.cell.now (bound_in self.now.cell.now self.now.targets.now) first.now (record { entry = entry.now; target = target.now }) place held result }
    {
        if !is_at(first, entry) {
            return Ok(held);
        }
        match self.number(entry, target, held) {
            Ok(number) => Ok(insert_field(entry.kind, held, number)),
            Err(_) => Err(Overflow { entry: place }),
        }
    }

    /// What the field of `first` holds after all entries.
    fn value(&self, first: &Entry) -> Result<u64, Overflow>
        ensures { IsValueAt self.now.cell.now self.now.targets.now first.now result }
    {
        let mut value = own_number(&self.cell.object, first);
        let entries = self.cell.object.entries.as_slice();
        for index in 0..entries.len() {
            value = self.apply(
                first,
                index as u32,
                &entries[index],
                &self.targets[index],
                value,
            )?;
        }
        Ok(value)
    }

    fn field(&self, first: &Entry) -> Result<FieldValue, Overflow>
        ensures { IsFieldValue self.now.cell.now self.now.targets.now first.now result }
    {
        let value = self.value(first)?;
        Ok(FieldValue {
            addr: self.place(first),
            width: width(first.kind),
            value,
        })
    }
}

/// What the field whose first entry stands at a place of the table holds, where each entry has the
/// target of its place in `targets`. It takes no memory, and goes over the table once, and once more
/// for each PCREL_LO12 entry of the field.
pub fn field_value(cell: &NewCell, targets: &[Target], first: u32) -> Result<FieldValue, Overflow>
    requires each { length targets.now ≡ length cell.now.object.entries }
    requires few { length cell.now.object.entries < 2 ^ 32 }
    requires low { All (λ p. p.start < 2 ^ 63) cell.now.places }
    requires inside { first < length cell.now.object.entries }
    ensures { IfSome (slice_get cell.now.object.entries first) (λ f. IsFieldValue cell.now targets.now f result) }
{
    let entry = &cell.object.entries.as_slice()[first as usize];
    Table { cell, targets }.field(entry)
}
