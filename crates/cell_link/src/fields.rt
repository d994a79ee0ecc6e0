//! The fields of a cell, as its entries are applied in table order.

ghost use Rattle.std.specs.Prelude.{◌≡◌, ◌<◌, ◌++◌, ◌∷◌, [], ◌^◌, ℕ, true, length, cond, map, is_some, unwrap_or, All, IfOk, IfErr, OnOk, None};
ghost use Rattle.std.specs.BTreeMap.{get};
ghost use Rattle.cell_world.specs.Linked.Field.{fields_of as firsts_of, fits, own_number as own};
ghost use Rattle.cell_link.specs.Linked.{bound_in, first_unfit};
ghost use Rattle.cell_link.specs.Tables.{spot_cmp};
ghost use Rattle.cell_link.specs.Applied.{spot_of, IsHeldAfter, IsHeld, IsMisfit, IsFirstMisfit, field_at};
ghost use Rattle.cell_link.specs.declared.fail.LinkFail.TheVariants.{OutOfMemory};

use crate::contents::Contents;
use crate::numbers::{Numbers, spot};
use crate::places::Places;
use crate::{FieldValue, LinkFail};
use cell_num::width;
use cell_object::Entry;
use cell_reloc::insert_field;
use cell_world::{NewCell, Target};
use std::alloc::Global;
use std::collections::BTreeMap;

/// The look-ups that the entries of a cell are applied with.
#[derive(Drop)]
pub struct Linker<'a> {
    pub numbers: Numbers<'a>,
    contents: Contents<'a>,
    ghost same: { contents.object.now ≡ numbers.places.cell.now.object },
}

impl<'a> Linker<'a> {
    pub fn of(
        alloc: Global,
        cell: &'a NewCell,
        targets: &'a [Target],
    ) -> Result<Linker<'a>, LinkFail>
        requires each { length targets.now ≡ length cell.now.object.entries }
        requires low { All (λ p. p.start < 2 ^ 63) cell.now.places }
        ensures memory { IfErr result (λ e. e ≡ OutOfMemory) }
        ensures cell { IfOk result (λ linker. linker.numbers.places.cell.now ≡ cell.now) }
        ensures targets { IfOk result (λ linker. linker.numbers.targets.now ≡ targets.now) }
    {
        let places = Places::of(alloc, cell)?;
        let numbers = Numbers::of(alloc, places, targets)?;
        let contents = Contents::of(alloc, &cell.object)?;
        Ok(Linker { numbers, contents })
    }
}

/// The fields that some first entries of a table make.
#[derive(Drop)]
pub struct Fields {
    /// The first entry of each field, in table order.
    pub firsts: Vec<Entry>,
    /// What each field holds, by its section and offset.
    pub held: BTreeMap<(u16, u64), u64>,
}

impl Fields {
    /// What the field of an entry holds so far; a new field is put behind the others.
    fn held_before(&mut self, contents: &Contents, entry: &Entry) -> Result<u64, LinkFail>
        ensures memory { IfErr result (λ e. e ≡ OutOfMemory) }
        ensures held { IfOk result (λ held. held ≡ unwrap_or (get spot_cmp self.old.held (spot_of entry.now)) (own contents.now.object.now entry.now)) }
        ensures firsts { OnOk result (self.new.firsts.items ≡ self.old.firsts.items ++ cond (is_some (get spot_cmp self.old.held (spot_of entry.now))) [] (entry.now ∷ [])) }
        ensures others { self.new.held ≡ self.old.held }
    {
        match self.held.get(&spot(entry)) {
            Some(held) => Ok(*held),
            None => {
                self.firsts.push(*entry)?;
                Ok(contents.own_number(entry))
            }
        }
    }

    /// Applies the entry at a place of the table.
    fn add(
        &mut self,
        linker: &Linker,
        place: u32,
        entry: &Entry,
        target: &Target,
    ) -> Result<(), LinkFail>
        ensures misfit { let c = linker.now.numbers.places.cell.now in IfErr result (IsMisfit c (bound_in c linker.now.numbers.targets.now) (record { entry = entry.now; target = target.now }) place) }
        ensures fits { let c = linker.now.numbers.places.cell.now in OnOk result (fits c (bound_in c linker.now.numbers.targets.now) (record { entry = entry.now; target = target.now }) ≡ true) }
        ensures firsts { OnOk result (self.new.firsts.items ≡ self.old.firsts.items ++ cond (is_some (get spot_cmp self.old.held (spot_of entry.now))) [] (entry.now ∷ [])) }
        ensures held { let c = linker.now.numbers.places.cell.now in OnOk result (IsHeldAfter c (bound_in c linker.now.numbers.targets.now) (record { entry = entry.now; target = target.now }) self.old.held self.new.held) }
    {
        let held = self.held_before(&linker.contents, entry)?;
        let number = match linker.numbers.number(entry, target, held) {
            Ok(number) => number,
            Err(_) => return Err(LinkFail::Overflow { entry: place }),
        };
        self.held
            .insert(spot(entry), insert_field(entry.kind, held, number))?;
        Ok(())
    }

    /// What a field holds, by its first entry.
    fn value(&self, places: &Places, first: &Entry) -> FieldValue
        ensures { result ≡ field_at places.now.cell.now self.now.held first.now }
    {
        FieldValue {
            addr: places.place(first),
            width: width(first.kind),
            value: self.held.get(&spot(first)).copied().unwrap_or(0),
        }
    }

    /// What the fields hold, in the order of their first entries.
    pub fn values(&self, alloc: Global, places: &Places) -> Result<Vec<FieldValue>, LinkFail>
        ensures memory { IfErr result (λ e. e ≡ OutOfMemory) }
        ensures values { IfOk result (λ values. values.items ≡ map (field_at places.now.cell.now self.now.held) self.now.firsts.items) }
    {
        let mut values = Vec::new(alloc);
        for first in &self.firsts {
            values.push(self.value(places, first))?;
        }
        Ok(values)
    }
}

/// The fields that all entries make.
pub fn apply_entries(alloc: Global, linker: &Linker) -> Result<Fields, LinkFail>
    requires each { length linker.now.numbers.targets.now ≡ length linker.now.numbers.places.cell.now.object.entries }
    requires few { length linker.now.numbers.places.cell.now.object.entries < 2 ^ 32 }
    ensures misfit { IfErr result (IsFirstMisfit linker.now.numbers.places.cell.now linker.now.numbers.targets.now) }
    ensures fits { OnOk result (first_unfit linker.now.numbers.places.cell.now linker.now.numbers.targets.now ≡ None) }
    ensures firsts { IfOk result (λ fields. fields.firsts.items ≡ firsts_of linker.now.numbers.places.cell.now.object) }
    ensures held { let c = linker.now.numbers.places.cell.now in let bound = bound_in c linker.now.numbers.targets.now in IfOk result (λ fields. IsHeld c bound bound fields.held) }
{
    let mut fields = Fields {
        firsts: Vec::new(alloc),
        held: BTreeMap::new(alloc),
    };
    let entries = linker.numbers.places.cell.object.entries.as_slice();
    let targets = linker.numbers.targets;
    for index in 0..entries.len() {
        fields.add(linker, index as u32, &entries[index], &targets[index])?;
    }
    Ok(fields)
}
