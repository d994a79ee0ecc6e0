//! The slots that entries ask for.

ghost use Rattle.std.specs.Prelude.{◌≡◌, ◌≤◌, ◌<◌, ◌^◌, [], length, IfOk, OnOk};
ghost use Rattle.std.specs.List.{list_any};
ghost use Rattle.cell_object.specs.Readable.{is_got};
ghost use Rattle.cell_got.specs.Lower.{asked, slot_of};
ghost use Rattle.cell_got.specs.Asked.{AreSlots, with_entry, with_slot};

use cell_num::is_got_hi20;
use cell_object::Entry;
use std::alloc::{AllocError, Global};
use std::collections::BTreeMap;

/// The symbols that have a slot, in the order of first use, and which slot each of them has.
#[derive(Drop)]
pub struct Slots {
    pub symbols: Vec<u32>,
    pub places: BTreeMap<u32, u32>,
}

pub fn any_asks(entries: &[Entry]) -> bool
    ensures { result ≡ list_any is_got entries.now }
{
    entries.iter().any(|entry| is_got_hi20(entry.kind))
}

impl Slots {
    fn new(alloc: Global) -> Slots
        ensures symbols { result.symbols.items ≡ [] }
        ensures are { AreSlots [] result.places }
    {
        Slots {
            symbols: Vec::new(alloc),
            places: BTreeMap::new(alloc),
        }
    }

    /// Gives a symbol a slot, unless it has one.
    fn add(&mut self, symbol: u32) -> Result<(), AllocError>
        requires few { length self.old.symbols.items < 2 ^ 32 }
        requires are { AreSlots self.old.symbols.items self.old.places }
        ensures symbols { OnOk result (self.new.symbols.items ≡ with_slot self.old.symbols.items symbol) }
        ensures are { OnOk result (AreSlots self.new.symbols.items self.new.places) }
    {
        if self.places.contains_key(&symbol) {
            return Ok(());
        }
        let slot = self.count();
        self.places.insert(symbol, slot)?;
        self.symbols.push(symbol)?;
        Ok(())
    }

    fn take_in(&mut self, entry: &Entry) -> Result<(), AllocError>
        requires few { length self.old.symbols.items < 2 ^ 32 }
        requires are { AreSlots self.old.symbols.items self.old.places }
        ensures symbols { OnOk result (self.new.symbols.items ≡ with_entry self.old.symbols.items entry.now) }
        ensures are { OnOk result (AreSlots self.new.symbols.items self.new.places) }
    {
        if !is_got_hi20(entry.kind) {
            return Ok(());
        }
        self.add(entry.symbol)
    }

    /// The slots of some entries.
    pub fn of(alloc: Global, entries: &[Entry]) -> Result<Slots, AllocError>
        requires few { length entries.now < 2 ^ 32 }
        ensures symbols { IfOk result (λ slots. slots.symbols.items ≡ asked entries.now) }
        ensures are { IfOk result (λ slots. AreSlots slots.symbols.items slots.places) }
    {
        let mut slots = Slots::new(alloc);
        for index in 0..entries.len() {
            slots.take_in(&entries[index])?;
        }
        Ok(slots)
    }

    /// How many slots there are.
    pub fn count(&self) -> u32
        requires { length self.now.symbols.items < 2 ^ 32 }
        ensures { result ≡ length self.now.symbols.items }
    {
        self.symbols.len() as u32
    }

    /// The slot of a symbol, or how many slots there are where it has none.
    pub fn slot(&self, symbol: u32) -> u32
        requires few { length self.now.symbols.items < 2 ^ 32 }
        requires are { AreSlots self.now.symbols.items self.now.places }
        ensures slot { result ≡ slot_of self.now.symbols.items symbol }
        ensures most { result ≤ length self.now.symbols.items }
    {
        match self.places.get(&symbol) {
            Some(slot) => *slot,
            None => self.count(),
        }
    }
}
