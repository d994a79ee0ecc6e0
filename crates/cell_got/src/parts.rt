//! The parts that an object gets for its slots.

ghost use Rattle.std.specs.Prelude.{◌≡◌, ◌≤◌, ◌<◌, ◌^◌, suc, IsTrue, fold, max, nat_lt, IfOk};
ghost use Rattle.std.specs.List.{list_all};
ghost use Rattle.cell_got.specs.Lower.{got_section as slots_section, slot_entry as filling, slot_symbol as symbol_of_slot};

use cell_num::{Bytes, RelKind, zeros};
use cell_object::{Bind, Entry, Fill, Home, Section, Sort, Symbol};
use std::alloc::{AllocError, Global};

/// The bytes of a slot.
const SLOT_LEN: u32 = 8;

/// The greatest number of a section.
fn greatest_number(sections: &[Section]) -> u16
    requires { IsTrue (list_all (λ s. nat_lt s.number 65535) sections.now) }
    ensures greatest { result ≡ fold (λ most s. max most s.number) 0 sections.now }
    ensures below { result < 65535 }
{
    let mut most = 0;
    for index in 0..sections.len() {
        most = most.max(sections[index].number);
    }
    most
}

/// The number of the section of slots.
pub fn got_number(sections: &[Section]) -> u16
    requires { IsTrue (list_all (λ s. nat_lt s.number 65535) sections.now) }
    ensures { result ≡ suc (fold (λ most s. max most s.number) 0 sections.now) }
{
    greatest_number(sections) + 1
}

/// A section of so many slots, which hold zeros.
pub fn got_section(alloc: Global, number: u16, count: u32) -> Result<Section, AllocError>
    requires { count ≤ 2 ^ 20 }
    ensures { IfOk result (λ section. section ≡ slots_section number count) }
{
    let size = SLOT_LEN * count;
    let name = Vec::from_slice(alloc, b".got")?;
    let bytes = zeros(alloc, size as usize)?;
    Ok(Section {
        number,
        name: Bytes::from_vec(name),
        write: false,
        exec: false,
        fill: Fill::Prog,
        align: 8,
        size,
        bytes: Bytes::from_vec(bytes),
    })
}

/// The symbol of a slot in the section of a number.
pub fn slot_symbol(alloc: Global, number: u16, slot: u32) -> Symbol
    ensures { result ≡ symbol_of_slot number slot }
{
    Symbol {
        name: Bytes::from_vec(Vec::new(alloc)),
        bind: Bind::Local,
        sort: Sort::NoType,
        home: Home::Inside(number),
        value: u64::from(SLOT_LEN) * u64::from(slot),
        size: 0,
    }
}

/// The entry that fills a slot in the section of a number with the address of a symbol.
pub fn slot_entry(number: u16, slot: u32, symbol: u32) -> Entry
    requires { slot < 2 ^ 20 }
    ensures { result ≡ filling number (slot, symbol) }
{
    Entry {
        section: number,
        offset: SLOT_LEN * slot,
        kind: RelKind::Abs64,
        symbol,
        addend: 0,
    }
}
