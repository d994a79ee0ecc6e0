//! The object of a file as it is placed and linked. An entry of kind GOT_HI20 asks for the address of a slot that holds
//! its symbol's address, so the object gets a section of such slots.
#![tactic(auto)]

mod asked;
mod lowering;
mod parts;

ghost use Rattle.std.specs.Prelude.{◌≡◌, ◌≤◌, ◌<◌, ◌+◌, ◌^◌, ℕ, Some, false, length, slice_get, take, true};
ghost use Rattle.cell_num.specs.declared.kinds.RelKind.TheVariants.{PcrelHi20};
ghost use Rattle.cell_object.specs.Sound.{IsLoadable, IsSoundObject};
ghost use Rattle.cell_object.specs.declared.object.Entry.{Entry as SomeEntry};
ghost use Rattle.cell_object.specs.declared.object.Object.{Object as SomeObject};
ghost use Rattle.cell_got.specs.Lower.{got_number, lower, slot_entry, slot_of, slot_symbol, slots_of};
ghost use Rattle.cell_object.specs.Readable.{is_got, IsFromFile, IsReadable};

pub use lowering::lower_got;

/// What is lowered is sound, as objects are that had no such entries, where there aren't more symbols than slots in a section.
pub fn lowered_is_sound()
    ensures { (object : SomeObject) → IsReadable object → length object.symbols < 2 ^ 20 → IsSoundObject (lower object) }
{}

/// Sections, symbols and all entries that ask for no slot stand in the lowered object as they were, and in their places.
pub fn lowered_keeps_rest()
    ensures sections { (object : SomeObject) → take (length object.sections) (lower object).sections ≡ object.sections }
    ensures symbols { (object : SomeObject) → take (length object.symbols) (lower object).symbols ≡ object.symbols }
    ensures entries { (object : SomeObject) (i : ℕ) (e : SomeEntry) → slice_get object.entries i ≡ Some e → is_got e ≡ false → slice_get (lower object).entries i ≡ Some e }
    ensures sites { (object : SomeObject) (i : ℕ) (e : SomeEntry) → slice_get object.entries i ≡ Some e → is_got e ≡ true →
        slice_get (lower object).entries i
        ≡ (let site : SomeEntry = record e { kind = PcrelHi20; symbol = length object.symbols + 1 + slot_of (slots_of object) e.symbol } in Some site) }
{}

/// Each slot has its symbol behind those of the object and its entry behind those of the object, and there are no more of either.
/// What was read has few slots.
pub fn slots_have_parts()
    ensures symbols { (object : SomeObject) (k symbol : ℕ) → slice_get (slots_of object) k ≡ Some symbol →
        slice_get (lower object).symbols (length object.symbols + k) ≡ Some (slot_symbol (got_number object) k) }
    ensures entries { (object : SomeObject) (k symbol : ℕ) → slice_get (slots_of object) k ≡ Some symbol →
        slice_get (lower object).entries (length object.entries + k) ≡ Some (slot_entry (got_number object) (k, symbol)) }
    ensures symbol_count { (object : SomeObject) → length (lower object).symbols ≡ length object.symbols + length (slots_of object) }
    ensures entry_count { (object : SomeObject) → length (lower object).entries ≡ length object.entries + length (slots_of object) }
    ensures few { (object : SomeObject) → IsReadable object → length object.symbols < 2 ^ 20 → length (slots_of object) ≤ 2 ^ 20 }
{}

/// What is lowered may be the object of a cell, if it was read from a file of at most a mebibyte.
pub fn lowered_is_loadable()
    ensures { (object : SomeObject) → IsFromFile object → IsLoadable (lower object) }
{}
