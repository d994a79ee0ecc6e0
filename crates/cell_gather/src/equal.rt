//! Objects that are equal to others.

ghost use Rattle.std.specs.Prelude.{◌≡◌, ◌++◌, ◌∷◌, [], IfOk, OnOk};

use cell_num::{Bytes, Listed};
use cell_object::{Entry, Object, Section, Symbol};
use std::alloc::{AllocError, Global};

fn equal_bytes(alloc: Global, bytes: &Bytes) -> Result<Bytes, AllocError>
    ensures { IfOk result (λ copy. copy ≡ bytes.now) }
{
    Ok(Bytes::from_vec(bytes.as_slice().to_vec(alloc)?))
}

fn equal_section(alloc: Global, section: &Section) -> Result<Section, AllocError>
    ensures { IfOk result (λ copy. copy ≡ section.now) }
{
    Ok(Section {
        number: section.number,
        name: equal_bytes(alloc, &section.name)?,
        write: section.write,
        exec: section.exec,
        fill: section.fill,
        align: section.align,
        size: section.size,
        bytes: equal_bytes(alloc, &section.bytes)?,
    })
}

fn equal_symbol(alloc: Global, symbol: &Symbol) -> Result<Symbol, AllocError>
    ensures { IfOk result (λ copy. copy ≡ symbol.now) }
{
    Ok(Symbol {
        name: equal_bytes(alloc, &symbol.name)?,
        bind: symbol.bind,
        sort: symbol.sort,
        home: symbol.home,
        value: symbol.value,
        size: symbol.size,
    })
}

fn equal_sections(alloc: Global, sections: &[Section]) -> Result<Listed<Section>, AllocError>
    ensures { IfOk result (λ copies. copies ≡ sections.now) }
{
    let mut copies = Vec::new(alloc);
    for section in sections {
        copies.push(equal_section(alloc, section)?)?;
    }
    Ok(Listed::from_vec(copies))
}

fn equal_symbols(alloc: Global, symbols: &[Symbol]) -> Result<Listed<Symbol>, AllocError>
    ensures { IfOk result (λ copies. copies ≡ symbols.now) }
{
    let mut copies = Vec::new(alloc);
    for symbol in symbols {
        copies.push(equal_symbol(alloc, symbol)?)?;
    }
    Ok(Listed::from_vec(copies))
}

fn equal_entries(alloc: Global, entries: &[Entry]) -> Result<Listed<Entry>, AllocError>
    ensures { IfOk result (λ copies. copies ≡ entries.now) }
{
    Ok(Listed::from_vec(entries.to_vec(alloc)?))
}

/// An object that is equal, in memory of its own.
pub fn equal_object(alloc: Global, object: &Object) -> Result<Object, AllocError>
    ensures { IfOk result (λ copy. copy ≡ object.now) }
{
    Ok(Object {
        sections: equal_sections(alloc, object.sections.as_slice())?,
        symbols: equal_symbols(alloc, object.symbols.as_slice())?,
        entries: equal_entries(alloc, object.entries.as_slice())?,
    })
}
