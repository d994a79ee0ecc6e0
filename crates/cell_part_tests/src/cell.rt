//! A cell to test with.

ghost use Rattle.std.specs.Prelude.{◌≡◌, ◌<◌, ◌^◌, All, IfOk, length};
ghost use Rattle.cell_placed.specs.Low.{IsLow};

use cell_num::{Bytes, CellId, Listed, Name, RelKind};
use cell_object::{Bind, Entry, Fill, Home, Object, Section, Sort, Symbol};
use cell_world::{NewCell, SecPlace};
use std::alloc::{AllocError, Global};

pub const START: u64 = 0x1000_0000;

/// A section of 32 bytes, all of them 0.
fn section(alloc: Global) -> Result<Section, AllocError> {
    Ok(Section {
        number: 1,
        name: Bytes::from_vec(Vec::from_slice(alloc, b".text")?),
        write: false,
        exec: true,
        fill: Fill::Prog,
        align: 4,
        size: 32,
        bytes: Bytes::from_vec(Vec::from_slice(alloc, &[0; 32])?),
    })
}

/// A cell with one section at 0x10000000, a LOCAL symbol at its start, and these entries.
pub fn cell(alloc: Global, id: u32, entries: &[Entry]) -> Result<NewCell, AllocError>
    ensures entries { IfOk result (λ cell. cell.object.entries ≡ entries.now) }
    ensures starts { IfOk result (λ cell. All (λ p. p.start < 2 ^ 63) cell.places) }
    ensures low { IfOk result IsLow }
{
    let symbol = Symbol {
        name: Bytes::from_vec(Vec::new(alloc)),
        bind: Bind::Local,
        sort: Sort::NoType,
        home: Home::Inside(1),
        value: 0,
        size: 0,
    };
    let place = SecPlace {
        section: 1,
        start: START,
    };
    Ok(NewCell {
        id: CellId(id),
        ns: 0,
        stem: Name::of(alloc, b"a")?,
        file: Name::of(alloc, b"k#a.o")?,
        object: Object {
            sections: Listed::from_vec(vec![in alloc; section(alloc)?]?),
            symbols: Listed::from_vec(vec![in alloc; symbol]?),
            entries: Listed::from_vec(Vec::from_slice(alloc, entries)?),
        },
        places: Listed::from_vec(Vec::from_slice(alloc, &[place])?),
    })
}

/// An entry of section 1 that names a symbol.
pub fn entry(offset: u32, kind: RelKind, symbol: u32) -> Entry {
    Entry {
        section: 1,
        offset,
        kind,
        symbol,
        addend: 0,
    }
}
