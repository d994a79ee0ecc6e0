//! Where routines begin, and the addresses that they may ask for.

ghost use Rattle.std.specs.Prelude.{◌≡◌, ◌∷◌, [], if◌then◌else◌, not, All, IfOk, IsTrue, nat_lt};
ghost use Rattle.cell_num.specs.Lists.{each_pair};
ghost use Rattle.cell_object.specs.declared.object.Bind.TheVariants.{Global as GlobalBind, Local as LocalBind};
ghost use Rattle.cell_object.specs.declared.object.Fill.TheVariants.{Zero};
ghost use Rattle.cell_object.specs.declared.object.Sort.TheVariants.{Func};
ghost use Rattle.cell_object.specs.declared.object.Home.TheVariants.{Inside};
ghost use Rattle.cell_placed.specs.Low.{AreLow, IsLow};
ghost use Rattle.cell_world.specs.Coherent.{IsLoadable};

use cell_num::{Bytes, CellId, Listed, Name};
use cell_object::{Bind, Fill, Home, Object, Section, Sort, Symbol};
use cell_routines::*;
use cell_world::{Fail as Refused, NewCell, Refusal, SecPlace};
use std::alloc::{AllocError, Global};
use std::test::*;

/// A symbol with a name of one byte, in a section that stands behind six bytes of text.
#[derive(Clone, Copy)]
struct Sample {
    name: u8,
    global: bool,
    exec: bool,
    size: u16,
    value: u16,
}

/// A routine at 8 in the class of text.
const ENTRY: Sample = Sample {
    name: b'a',
    global: true,
    exec: true,
    size: 16,
    value: 2,
};

/// A section of zeros.
fn section(alloc: Global, number: u16, exec: bool, size: u16) -> Section
    ensures { result ≡ record { number = number; name = []; write = not exec; exec = exec; fill = Zero; align = 2; size = size; bytes = [] } }
{
    Section {
        number,
        name: Bytes::from_vec(Vec::new(alloc)),
        write: !exec,
        exec,
        fill: Fill::Zero,
        align: 2,
        size: u32::from(size),
        bytes: Bytes::from_vec(Vec::new(alloc)),
    }
}

fn bind_of(global: bool) -> Bind
    ensures { result ≡ (if global then GlobalBind else LocalBind) }
{
    if global { Bind::Global } else { Bind::Local }
}

fn symbol(alloc: Global, sample: Sample) -> Result<Symbol, AllocError>
    ensures { IfOk result (λ s. s ≡ record { name = sample.name ∷ []; bind = if sample.global then GlobalBind else LocalBind; sort = Func; home = Inside 2; value = sample.value; size = 0 }) }
{
    Ok(Symbol {
        name: Bytes::from_vec(Vec::from_slice(alloc, &[sample.name])?),
        bind: bind_of(sample.global),
        sort: Sort::Func,
        home: Home::Inside(2),
        value: u64::from(sample.value),
        size: 0,
    })
}

/// An object of six bytes of text, and the sample's section and symbol.
fn object(alloc: Global, sample: Sample) -> Result<Object, AllocError>
    ensures loadable { IfOk result (λ o. IsLoadable o) }
    ensures low { IfOk result (λ o. AreLow o) }
{
    if !sample.name.is_ascii_lowercase() || sample.value > sample.size {
        return Err(AllocError);
    }
    let sections = vec![in alloc;
        section(alloc, 1, true, 6),
        section(alloc, 2, sample.exec, sample.size),
    ]?;
    let symbols = vec![in alloc; symbol(alloc, sample)?]?;
    Ok(Object {
        sections: Listed::from_vec(sections),
        symbols: Listed::from_vec(symbols),
        entries: Listed::from_vec(Vec::new(alloc)),
    })
}

/// The sample's cell, whose second section stands there.
fn cell(alloc: Global, number: u32, start: u32, sample: Sample) -> Result<NewCell, AllocError>
    ensures loadable { IfOk result (λ c. IsLoadable c.object) }
    ensures low { IfOk result (λ c. IsLow c) }
    ensures number { IfOk result (λ c. c.id.0 ≡ number) }
{
    let place = SecPlace {
        section: 2,
        start: u64::from(start),
    };
    Ok(NewCell {
        id: CellId(number),
        ns: 0,
        stem: Name::of(alloc, b"x")?,
        file: Name::of(alloc, b"k#x.o")?,
        object: object(alloc, sample)?,
        places: Listed::from_vec(vec![in alloc; place]?),
    })
}

/// Cell 7 and cell 9.
fn cells(alloc: Global, first: Sample, second: Sample) -> Result<Vec<NewCell>, AllocError>
    ensures loadable { IfOk result (λ cells. All (λ c. IsLoadable c.object) cells.items) }
    ensures low { IfOk result (λ cells. All IsLow cells.items) }
    ensures order { IfOk result (λ cells. IsTrue (each_pair (λ a b. nat_lt a.id.0 b.id.0) cells.items)) }
{
    Ok(vec![in alloc;
        cell(alloc, 7, 0x1006, first)?,
        cell(alloc, 9, 0x3006, second)?,
    ]?)
}

/// Where the routine `a` begins in the two cells.
fn begin(alloc: Global, first: Sample, second: Sample) -> Result<Option<Begin>, Fail> {
    let cells = cells(alloc, first, second)?;
    let word = Name::of(alloc, b"a")?;
    match begins_of(alloc, &cells, std::slice::from_ref(&word)) {
        Ok(begins) => Ok(begins.first().copied()),
        Err(Refused::Refused(Refusal::NoEntry { .. })) => Ok(None),
        Err(_) => Err("another refusal".into()),
    }
}

/// The place in the second section of a cell.
fn at(cell: u32, offset: u64) -> Begin
    ensures { result.offset ≡ offset }
{
    Begin {
        cell: CellId(cell),
        section: 2,
        offset,
    }
}

/// What the first of two cells has; the second has `ENTRY`.
struct Choice {
    first: Sample,
    /// The cell whose symbol counts, if that is an entry.
    cell: Option<u32>,
}

const CHOICES: [Choice; 7] = [
    Choice {
        first: ENTRY,
        cell: Some(7),
    },
    Choice {
        first: Sample { value: 4, ..ENTRY },
        cell: None,
    },
    Choice {
        first: Sample { size: 6, ..ENTRY },
        cell: Some(7),
    },
    Choice {
        first: Sample { size: 5, ..ENTRY },
        cell: None,
    },
    Choice {
        first: Sample {
            exec: false,
            ..ENTRY
        },
        cell: None,
    },
    Choice {
        first: Sample {
            global: false,
            ..ENTRY
        },
        cell: Some(9),
    },
    Choice {
        first: Sample {
            name: b'b',
            ..ENTRY
        },
        cell: Some(9),
    },
];

/// The first cell that defines the name counts, at a multiple of 4 in its text with four bytes left.
#[test]
fn begins(rt: HostRuntime) -> Result<(), Fail> {
    let alloc = rt.alloc();
    for choice in &CHOICES {
        let want = match choice.cell {
            Some(cell) => Some(at(cell, 2)),
            None => None,
        };
        assert_eq!(rt; begin(alloc, choice.first, ENTRY)?, want);
    }
    Ok(())
}
