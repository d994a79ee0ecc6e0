//! The lowered object.

ghost use Rattle.std.specs.Prelude.{◌≡◌, ◌≤◌, ◌<◌, ◌+◌, ◌++◌, ◌∷◌, [], ◌^◌, suc, length, map, IfOk, OnOk};
ghost use Rattle.cell_num.specs.Lists.{numbered, upto};
ghost use Rattle.cell_object.specs.Readable.{IsFromFile};
ghost use Rattle.cell_object.specs.Sound.{IsLoadable};
ghost use Rattle.cell_got.specs.Lower.{lower, lowered_entry, slot_entry as filling, slot_symbol as symbol_of_slot};
ghost use Rattle.cell_got.specs.Asked.{AreSlots};

use crate::asked::{Slots, any_asks};
use crate::parts::{got_number, got_section, slot_entry, slot_symbol};
use cell_num::{Listed, RelKind, is_got_hi20};
use cell_object::{Entry, Object, Section, Symbol};
use std::alloc::{AllocError, Global};

/// Has an entry that asks for a slot name the slot's symbol, the first of which has the number.
fn lower_entry(entry: &mut Entry, first: u32, slots: &Slots)
    requires few { first + length slots.now.symbols.items < 2 ^ 32 }
    requires are { AreSlots slots.now.symbols.items slots.now.places }
    ensures { entry.new ≡ lowered_entry first slots.now.symbols.items entry.old }
{
    if is_got_hi20(entry.kind) {
        let slot = slots.slot(entry.symbol);
        entry.kind = RelKind::PcrelHi20;
        entry.symbol = first + slot;
    }
}

fn lower_entries(entries: &mut Vec<Entry>, first: u32, slots: &Slots)
    requires few { first + length slots.now.symbols.items < 2 ^ 32 }
    requires are { AreSlots slots.now.symbols.items slots.now.places }
    ensures { entries.new.items ≡ map (lowered_entry first slots.now.symbols.items) entries.old.items }
{
    for entry in entries.iter_mut() {
        lower_entry(entry, first, slots);
    }
}

/// Puts the entry of each slot behind the others.
fn add_entries(entries: &mut Vec<Entry>, number: u16, symbols: &[u32]) -> Result<(), AllocError>
    requires { length symbols.now ≤ 2 ^ 20 }
    ensures { OnOk result (entries.new.items ≡ entries.old.items ++ map (filling number) (numbered symbols.now)) }
{
    for slot in 0..symbols.len() {
        entries.push(slot_entry(number, slot as u32, symbols[slot]))?;
    }
    Ok(())
}

/// Puts the symbol of each of so many slots behind the others.
fn add_symbols(
    alloc: Global,
    symbols: &mut Vec<Symbol>,
    number: u16,
    count: u32,
) -> Result<(), AllocError>
    ensures { OnOk result (symbols.new.items ≡ symbols.old.items ++ map (symbol_of_slot number) (upto count)) }
{
    for slot in 0..count {
        symbols.push(slot_symbol(alloc, number, slot))?;
    }
    Ok(())
}

/// The number of the symbol of the first slot.
fn first_slot(symbols: &[Symbol]) -> u32
    requires { length symbols.now < 2 ^ 20 }
    ensures first { result ≡ suc (length symbols.now) }
    ensures few { result ≤ 2 ^ 20 }
{
    symbols.len() as u32 + 1
}

fn with_section(sections: Listed<Section>, section: Section) -> Result<Listed<Section>, AllocError>
    ensures { IfOk result (λ new. new ≡ sections ++ section ∷ []) }
{
    let mut sections = sections.into_vec();
    sections.push(section)?;
    Ok(Listed::from_vec(sections))
}

fn with_symbols(
    alloc: Global,
    symbols: Listed<Symbol>,
    number: u16,
    count: u32,
) -> Result<Listed<Symbol>, AllocError>
    ensures { IfOk result (λ new. new ≡ symbols ++ map (symbol_of_slot number) (upto count)) }
{
    let mut symbols = symbols.into_vec();
    add_symbols(alloc, &mut symbols, number, count)?;
    Ok(Listed::from_vec(symbols))
}

/// The lowered entries, with those of the slots; the symbol of the first slot has a number.
fn with_entries(
    entries: Listed<Entry>,
    number: u16,
    first: u32,
    slots: &Slots,
) -> Result<Listed<Entry>, AllocError>
    requires few { length slots.now.symbols.items ≤ 2 ^ 20 }
    requires first { first ≤ 2 ^ 20 }
    requires are { AreSlots slots.now.symbols.items slots.now.places }
    ensures { IfOk result (λ new. new ≡ map (lowered_entry first slots.now.symbols.items) entries ++ map (filling number) (numbered slots.now.symbols.items)) }
{
    let mut entries = entries.into_vec();
    lower_entries(&mut entries, first, slots);
    add_entries(&mut entries, number, slots.symbols.as_slice())?;
    Ok(Listed::from_vec(entries))
}

/// The object as it is placed and linked, with a slot for each symbol that an entry asks for one. It takes no memory where
/// no entry does, and else a look-up an entry.
pub fn lower_got(alloc: Global, object: Object) -> Result<Object, AllocError>
    requires { IsFromFile object }
    ensures lowered { IfOk result (λ lowered. lowered ≡ lower object) }
    ensures loadable { IfOk result IsLoadable }
{
    if !any_asks(object.entries.as_slice()) {
        return Ok(object);
    }
    let slots = Slots::of(alloc, object.entries.as_slice())?;
    let number = got_number(object.sections.as_slice());
    let first = first_slot(object.symbols.as_slice());
    let count = slots.count();
    let section = got_section(alloc, number, count)?;
    Ok(Object {
        sections: with_section(object.sections, section)?,
        symbols: with_symbols(alloc, object.symbols, number, count)?,
        entries: with_entries(object.entries, number, first, &slots)?,
    })
}
