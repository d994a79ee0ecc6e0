//! Objects as tables.

use cell_num::{Bytes, Listed, RelKind};
use cell_object::{Bind, Entry, Fill, Home, Object, Section, Sort, Symbol};
use std::alloc::{AllocError, Global};
use std::test::Fail;

/// A section: number, name, writable, executable, fill, alignment, size, bytes.
#[derive(Clone, Copy)]
pub struct PlainSection(
    pub u16,
    pub &'static [u8],
    pub bool,
    pub bool,
    pub Fill,
    pub u16,
    pub u32,
    pub &'static [u8],
);

/// A symbol: name, binding, sort, home, value.
#[derive(Clone, Copy)]
pub struct PlainSymbol(pub &'static [u8], pub Bind, pub Sort, pub Home, pub u64);

/// An entry: section, offset, kind, symbol, addend.
#[derive(Clone, Copy)]
pub struct PlainEntry(pub u16, pub u32, pub RelKind, pub u32, pub i64);

/// What an object is made of.
#[derive(Clone, Copy)]
pub struct Plain {
    pub sections: &'static [PlainSection],
    pub symbols: &'static [PlainSymbol],
    pub entries: &'static [PlainEntry],
}

fn bytes(alloc: Global, from: &[u8]) -> Result<Bytes, AllocError> {
    Ok(Bytes::from_vec(Vec::from_slice(alloc, from)?))
}

fn section(alloc: Global, plain: &PlainSection) -> Result<Section, AllocError> {
    Ok(Section {
        number: plain.0,
        name: bytes(alloc, plain.1)?,
        write: plain.2,
        exec: plain.3,
        fill: plain.4,
        align: plain.5,
        size: plain.6,
        bytes: bytes(alloc, plain.7)?,
    })
}

fn symbol(alloc: Global, plain: &PlainSymbol) -> Result<Symbol, AllocError> {
    Ok(Symbol {
        name: bytes(alloc, plain.0)?,
        bind: plain.1,
        sort: plain.2,
        home: plain.3,
        value: plain.4,
        size: 0,
    })
}

fn entry(plain: &PlainEntry) -> Entry {
    Entry {
        section: plain.0,
        offset: plain.1,
        kind: plain.2,
        symbol: plain.3,
        addend: plain.4,
    }
}

pub fn object(alloc: Global, plain: &Plain) -> Result<Object, Fail> {
    let mut sections = Vec::new(alloc);
    for one in plain.sections {
        sections.push(section(alloc, one)?)?;
    }
    let mut symbols = Vec::new(alloc);
    for one in plain.symbols {
        symbols.push(symbol(alloc, one)?)?;
    }
    let mut entries = Vec::new(alloc);
    for one in plain.entries {
        entries.push(entry(one))?;
    }
    Ok(Object {
        sections: Listed::from_vec(sections),
        symbols: Listed::from_vec(symbols),
        entries: Listed::from_vec(entries),
    })
}

fn is_section(section: &Section, plain: &PlainSection) -> bool {
    section.number == plain.0
        && section.name.as_slice() == plain.1
        && section.write == plain.2
        && section.exec == plain.3
        && section.fill == plain.4
        && section.align == plain.5
        && section.size == plain.6
        && section.bytes.as_slice() == plain.7
}

fn is_symbol(symbol: &Symbol, plain: &PlainSymbol) -> bool {
    symbol.name.as_slice() == plain.0
        && symbol.bind == plain.1
        && symbol.sort == plain.2
        && symbol.home == plain.3
        && symbol.value == plain.4
        && symbol.size == 0
}

fn is_entry(found: &Entry, plain: &PlainEntry) -> bool {
    *found == entry(plain)
}

fn are_sections(found: &[Section], wanted: &[PlainSection]) -> bool {
    let mut pairs = found.iter().zip(wanted.iter());
    found.len() == wanted.len() && pairs.all(|(one, want)| is_section(one, want))
}

fn are_symbols(found: &[Symbol], wanted: &[PlainSymbol]) -> bool {
    let mut pairs = found.iter().zip(wanted.iter());
    found.len() == wanted.len() && pairs.all(|(one, want)| is_symbol(one, want))
}

fn are_entries(found: &[Entry], wanted: &[PlainEntry]) -> bool {
    let mut pairs = found.iter().zip(wanted.iter());
    found.len() == wanted.len() && pairs.all(|(one, want)| is_entry(one, want))
}

/// Whether the object is made of this.
pub fn is_plain(object: &Object, plain: &Plain) -> bool {
    are_sections(object.sections.as_slice(), plain.sections)
        && are_symbols(object.symbols.as_slice(), plain.symbols)
        && are_entries(object.entries.as_slice(), plain.entries)
}

/// A section with eight bytes of data at number 1.
pub const DATA: PlainSection = PlainSection(
    1,
    b".data",
    true,
    false,
    Fill::Prog,
    8,
    8,
    &[7, 0, 0, 0, 0, 0, 0, 0],
);

/// Sixteen bytes that are only read.
pub const CONSTANTS: PlainSection = PlainSection(
    1,
    b".rodata",
    false,
    false,
    Fill::Prog,
    8,
    16,
    &[0, 0, 0, 0, 0, 0, 0, 0, 1, 0, 0, 0, 0, 0, 0, 0],
);

/// Eight bytes of code.
pub const CODE: PlainSection = PlainSection(
    1,
    b".text",
    false,
    true,
    Fill::Prog,
    4,
    8,
    &[0x17, 5, 0, 0, 0x13, 5, 5, 0],
);

pub const MORE_CODE: PlainSection = PlainSection(
    2,
    b".text.more",
    false,
    true,
    Fill::Prog,
    4,
    8,
    &[0x17, 5, 0, 0, 0x13, 5, 5, 0],
);

pub const ZEROS: PlainSection = PlainSection(2, b".bss", true, false, Fill::Zero, 4096, 40, &[]);

pub const N: PlainSymbol = PlainSymbol(b"a::n", Bind::Global, Sort::NoType, Home::Inside(1), 0);

pub const WANTED: PlainSymbol = PlainSymbol(b"a::n", Bind::Global, Sort::NoType, Home::Undef, 0);

pub const LABEL: PlainSymbol = PlainSymbol(b"", Bind::Local, Sort::NoType, Home::Inside(1), 0);

/// A LOCAL that is in a section which isn't loaded.
pub const OUTSIDE: PlainSymbol = PlainSymbol(b"o", Bind::Local, Sort::NoType, Home::Elsewhere, 3);
