//! Objects that several tests load.

use crate::folder::ObjectFile;
use crate::objects::{PlainObject, PlainSection, PlainSymbol};
use cell_num::RelKind;
use cell_object::Entry;
use std::alloc::Global;
use std::test::Fail;

/// `a::n` is 7.
pub const SEVEN: PlainObject<'static> = PlainObject {
    sections: &[PlainSection::Data(8, &[7, 0, 0, 0, 0, 0, 0, 0])],
    symbols: &[PlainSymbol::Global("a::n", 1, 0)],
    entries: &[],
};

/// `b::p` is the address of `a::n` and 4, then 1.
pub const POINTER: PlainObject<'static> = PlainObject {
    sections: &[PlainSection::Constants(8, &[0, 0, 0, 0, 0, 0, 0, 0, 1, 0, 0, 0, 0, 0, 0, 0])],
    symbols: &[
        PlainSymbol::Global("b::p", 1, 0),
        PlainSymbol::Wanted("a::n"),
    ],
    entries: &[Entry {
        section: 1,
        offset: 0,
        kind: RelKind::Abs64,
        symbol: 2,
        addend: 4,
    }],
};

/// The files of the first example.
pub fn first_example(alloc: Global) -> Result<[ObjectFile<'static>; 2], Fail> {
    Ok([
        ObjectFile {
            name: "k#a.o",
            bytes: SEVEN.image(alloc)?,
        },
        ObjectFile {
            name: "k#b.o",
            bytes: POINTER.image(alloc)?,
        },
    ])
}

/// 1024 pages of zeros.
pub const ZEROS_FULL: PlainObject<'static> = PlainObject {
    sections: &[PlainSection::Zeros(8, 4194304)],
    symbols: &[],
    entries: &[],
};

/// 1025 pages of zeros.
pub const ZEROS_OVER: PlainObject<'static> = PlainObject {
    sections: &[PlainSection::Zeros(8, 4198400)],
    symbols: &[],
    entries: &[],
};
