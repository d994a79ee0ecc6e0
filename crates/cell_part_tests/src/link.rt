//! Fields of a cell.

ghost use Rattle.std.specs.Prelude.{◌≡◌, ◌<◌, ◌^◌, All, IfOk, length};

use cell_link::*;
use cell_num::{Bytes, CellId, Listed, Name, RelKind};
use cell_object::{Bind, Entry, Fill, Home, Object, Section, Sort, Symbol};
use std::alloc::{AllocError, Global};
use std::test::*;

const START: u64 = 0x1000_0000;

fn section(alloc: Global, bytes: &[u8]) -> Result<Section, AllocError> {
    Ok(Section {
        number: 1,
        name: Bytes::from_vec(Vec::from_slice(alloc, b".text")?),
        write: false,
        exec: true,
        fill: Fill::Prog,
        align: 4,
        size: 8,
        bytes: Bytes::from_vec(Vec::from_slice(alloc, bytes)?),
    })
}

fn symbol(alloc: Global) -> Symbol {
    Symbol {
        name: Bytes::from_vec(Vec::new(alloc)),
        bind: Bind::Local,
        sort: Sort::NoType,
        home: Home::Inside(1),
        value: 0,
        size: 0,
    }
}

/// An object of one section with a LOCAL symbol at its start.
fn object(alloc: Global, bytes: &[u8], entries: &[Entry]) -> Result<Object, AllocError>
    ensures { IfOk result (λ object. object.entries ≡ entries.now) }
{
    Ok(Object {
        sections: Listed::from_vec(vec![in alloc; section(alloc, bytes)?]?),
        symbols: Listed::from_vec(vec![in alloc; symbol(alloc)]?),
        entries: Listed::from_vec(Vec::from_slice(alloc, entries)?),
    })
}

/// A cell of such an object, at 0x10000000.
fn cell(alloc: Global, bytes: &[u8], entries: &[Entry]) -> Result<NewCell, AllocError>
    ensures entries { IfOk result (λ cell. cell.object.entries ≡ entries.now) }
    ensures low { IfOk result (λ cell. All (λ p. p.start < 2 ^ 63) cell.places) }
{
    let places = Vec::from_slice(
        alloc,
        &[SecPlace {
            section: 1,
            start: START,
        }],
    )?;
    Ok(NewCell {
        id: CellId(1),
        ns: 0,
        stem: Name::of(alloc, b"a")?,
        file: Name::of(alloc, b"k#a.o")?,
        object: object(alloc, bytes, entries)?,
        places: Listed::from_vec(places),
    })
}

/// An entry of section 1 at an offset, its kind, and the number that it names.
struct Part(u32, RelKind, u64);

fn entry(part: &Part) -> Entry {
    Entry {
        section: 1,
        offset: part.0,
        kind: part.1,
        symbol: 1,
        addend: 0,
    }
}

/// A word that is a field: its offset in the section, and its number.
struct Word(u32, u64);

/// The bytes of a section with two entries, its fields, and by itself the field of each entry.
struct Case {
    bytes: &'static [u8],
    parts: [Part; 2],
    fields: Result<&'static [Word], LinkFail>,
    alone: [Result<Word, Overflow>; 2],
}

/// `lui a0, %hi(x)` and `addi a0, a0, %lo(x)`.
const UPPER_AND_LOWER: [u8; 8] = [0x37, 0x05, 0, 0, 0x13, 0x05, 0x05, 0];

/// `auipc a0, %pcrel_hi(x)` and `addi a0, a0, %pcrel_lo(..)`.
const PC_RELATIVE: [u8; 8] = [0x17, 0x05, 0, 0, 0x13, 0x05, 0x05, 0];

const NEAR: u64 = 0x1000_0800;

/// The distance from the section's start is 0x1900.
const FAR: u64 = START + 0x1900;

const CASES: [Case; 5] = [
    Case {
        bytes: &UPPER_AND_LOWER,
        parts: [Part(0, RelKind::Hi20, NEAR), Part(4, RelKind::Lo12I, NEAR)],
        fields: Ok(&[Word(0, 0x1000_1537), Word(4, 0x8005_0513)]),
        alone: [Ok(Word(0, 0x1000_1537)), Ok(Word(4, 0x8005_0513))],
    },
    // Both at one field.
    Case {
        bytes: &[7, 0, 0, 0],
        parts: [
            Part(0, RelKind::Add32, 0x1014),
            Part(0, RelKind::Sub32, 0x1000),
        ],
        fields: Ok(&[Word(0, 0x1b)]),
        alone: [Ok(Word(0, 0x1b)), Ok(Word(0, 0x1b))],
    },
    // A lower part takes its upper part, in both orders of the table.
    Case {
        bytes: &PC_RELATIVE,
        parts: [
            Part(0, RelKind::PcrelHi20, FAR),
            Part(4, RelKind::PcrelLo12I, FAR),
        ],
        fields: Ok(&[Word(0, 0x0000_2517), Word(4, 0x9005_0513)]),
        alone: [Ok(Word(0, 0x0000_2517)), Ok(Word(4, 0x9005_0513))],
    },
    Case {
        bytes: &PC_RELATIVE,
        parts: [
            Part(4, RelKind::PcrelLo12I, FAR),
            Part(0, RelKind::PcrelHi20, FAR),
        ],
        fields: Ok(&[Word(4, 0x9005_0513), Word(0, 0x0000_2517)]),
        alone: [Ok(Word(4, 0x9005_0513)), Ok(Word(0, 0x0000_2517))],
    },
    // An upper part reaches 2^31 - 0x801 at most.
    Case {
        bytes: &UPPER_AND_LOWER,
        parts: [
            Part(0, RelKind::Hi20, 0x7fff_f7ff),
            Part(4, RelKind::Hi20, 0x7fff_f800),
        ],
        fields: Err(LinkFail::Overflow { entry: 1 }),
        alone: [Ok(Word(0, 0x7fff_f537)), Err(Overflow { entry: 1 })],
    },
];

fn is_word(field: &FieldValue, word: &Word) -> bool {
    field.addr == START + u64::from(word.0) && field.width == 4 && field.value == word.1
}

fn are_words(fields: &[FieldValue], words: &[Word]) -> bool {
    let mut pairs = fields.iter().zip(words.iter());
    fields.len() == words.len() && pairs.all(|(field, word)| is_word(field, word))
}

/// Whether linking gives these fields.
fn has_fields(
    alloc: Global,
    cell: &NewCell,
    targets: &[Target; 2],
    wanted: Result<&[Word], LinkFail>,
) -> bool
    requires two { length cell.now.object.entries ≡ 2 }
    requires low { All (λ p. p.start < 2 ^ 63) cell.now.places }
{
    match (link_cell(alloc, cell, targets), wanted) {
        (Ok(fields), Ok(words)) => are_words(fields.as_slice(), words),
        (Err(fail), Err(wanted)) => fail == wanted,
        _ => false,
    }
}

/// Whether the field of one of the entries is this.
fn has_field(
    cell: &NewCell,
    targets: &[Target; 2],
    place: u32,
    wanted: &Result<Word, Overflow>,
) -> bool
    requires two { length cell.now.object.entries ≡ 2 }
    requires low { All (λ p. p.start < 2 ^ 63) cell.now.places }
    requires inside { place < 2 }
{
    match (field_value(cell, targets, place), wanted) {
        (Ok(field), Ok(word)) => is_word(&field, word),
        (Err(overflow), Err(wanted)) => overflow == *wanted,
        _ => false,
    }
}

fn is_linked(alloc: Global, case: &Case) -> Result<bool, AllocError> {
    let [first, second] = &case.parts;
    let cell = cell(alloc, case.bytes, &[entry(first), entry(second)])?;
    let targets = [
        Target::Number { value: first.2 },
        Target::Number { value: second.2 },
    ];
    let fields = case.fields;
    let [of_first, of_second] = &case.alone;
    Ok(
        has_fields(alloc, &cell, &targets, fields)
            && has_field(&cell, &targets, 0, of_first)
            && has_field(&cell, &targets, 1, of_second),
    )
}

#[test]
fn fields_of_cells(rt: HostRuntime) -> Result<(), Fail> {
    for (number, case) in CASES.iter().enumerate() {
        assert!(rt; is_linked(rt.alloc(), case)?, "case {number}");
    }
    Ok(())
}
