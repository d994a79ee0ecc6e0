//! Objects that can't be written.

use crate::plain::{
    CODE, CONSTANTS, DATA, LABEL, MORE_CODE, Plain, PlainEntry, PlainSection, PlainSymbol, WANTED,
    object,
};
use cell_elfw::{WriteFail, write_object};
use cell_num::RelKind;
use cell_object::{Bind, Fill, Home, Sort};
use std::test::*;

/// What is wrong with an object, its parts, and the rule, or 0 where another object would be read.
struct Unwritable(&'static str, Plain, u8);

const UNWRITABLE: [Unwritable; 16] = [
    Unwritable(
        "fields that share bytes",
        Plain {
            sections: &[CONSTANTS],
            symbols: &[WANTED],
            entries: &[
                PlainEntry(1, 0, RelKind::Abs64, 1, 0),
                PlainEntry(1, 4, RelKind::Abs64, 1, 0),
            ],
        },
        23,
    ),
    Unwritable(
        "a GLOBAL in no loaded section",
        Plain {
            sections: &[DATA],
            symbols: &[PlainSymbol(b"a::n", Bind::Global, Sort::NoType, Home::Elsewhere, 0)],
            entries: &[],
        },
        16,
    ),
    Unwritable(
        "a WEAK that is absolute",
        Plain {
            sections: &[DATA],
            symbols: &[PlainSymbol(b"a::n", Bind::Weak, Sort::NoType, Home::Abs, 0)],
            entries: &[],
        },
        16,
    ),
    Unwritable(
        "a WEAK in no loaded section",
        Plain {
            sections: &[DATA],
            symbols: &[PlainSymbol(b"a::n", Bind::Weak, Sort::NoType, Home::Elsewhere, 0)],
            entries: &[],
        },
        16,
    ),
    Unwritable(
        "a WEAK section",
        Plain {
            sections: &[DATA],
            symbols: &[PlainSymbol(b"a::n", Bind::Weak, Sort::Section, Home::Inside(1), 0)],
            entries: &[],
        },
        15,
    ),
    Unwritable(
        "a WEAK before a LOCAL",
        Plain {
            sections: &[DATA],
            symbols: &[
                PlainSymbol(b"a::n", Bind::Weak, Sort::NoType, Home::Inside(1), 0),
                PlainSymbol(b"l", Bind::Local, Sort::NoType, Home::Inside(1), 0),
            ],
            entries: &[],
        },
        15,
    ),
    Unwritable(
        "a name that a WEAK has and then a GLOBAL",
        Plain {
            sections: &[DATA],
            symbols: &[
                PlainSymbol(b"a::n", Bind::Weak, Sort::NoType, Home::Inside(1), 0),
                WANTED,
            ],
            entries: &[],
        },
        18,
    ),
    Unwritable(
        "a name that two WEAK symbols have",
        Plain {
            sections: &[DATA],
            symbols: &[
                PlainSymbol(b"a::n", Bind::Weak, Sort::NoType, Home::Inside(1), 0),
                PlainSymbol(b"a::n", Bind::Weak, Sort::NoType, Home::Undef, 0),
            ],
            entries: &[],
        },
        18,
    ),
    Unwritable(
        "more bytes than there are",
        Plain {
            sections: &[PlainSection(
                1,
                b".data",
                true,
                false,
                Fill::Prog,
                8,
                100000,
                &[1, 2, 3, 4, 5, 6, 7, 8],
            )],
            symbols: &[],
            entries: &[],
        },
        8,
    ),
    Unwritable(
        "a low half without its high half",
        Plain {
            sections: &[CODE],
            symbols: &[LABEL],
            entries: &[PlainEntry(1, 4, RelKind::PcrelLo12I, 1, 0)],
        },
        24,
    ),
    Unwritable(
        "a slot with an addend",
        Plain {
            sections: &[CODE],
            symbols: &[WANTED],
            entries: &[PlainEntry(1, 0, RelKind::GotHi20, 1, 8)],
        },
        25,
    ),
    Unwritable(
        "a section number that isn't its place",
        Plain {
            sections: &[PlainSection(
                2,
                b".data",
                true,
                false,
                Fill::Prog,
                8,
                8,
                &[1, 2, 3, 4, 5, 6, 7, 8],
            )],
            symbols: &[],
            entries: &[],
        },
        0,
    ),
    Unwritable(
        "entries of a later section first",
        Plain {
            sections: &[CODE, MORE_CODE],
            symbols: &[WANTED],
            entries: &[
                PlainEntry(2, 0, RelKind::Hi20, 1, 0),
                PlainEntry(1, 0, RelKind::Hi20, 1, 0),
            ],
        },
        0,
    ),
    Unwritable(
        "zeros with bytes",
        Plain {
            sections: &[PlainSection(
                1,
                b".data",
                true,
                false,
                Fill::Zero,
                8,
                8,
                &[1, 2, 3, 4, 5, 6, 7, 8],
            )],
            symbols: &[],
            entries: &[],
        },
        0,
    ),
    Unwritable(
        "a zero byte in a name",
        Plain {
            sections: &[DATA],
            symbols: &[PlainSymbol(b"a\0b", Bind::Local, Sort::NoType, Home::Inside(1), 0)],
            entries: &[],
        },
        0,
    ),
    Unwritable(
        "no alignment",
        Plain {
            sections: &[PlainSection(
                1,
                b".data",
                true,
                false,
                Fill::Prog,
                0,
                8,
                &[1, 2, 3, 4, 5, 6, 7, 8],
            )],
            symbols: &[],
            entries: &[],
        },
        0,
    ),
];

#[test]
fn what_cannot_be_written(rt: HostRuntime) -> Result<(), Fail> {
    for case in &UNWRITABLE {
        let answer = write_object(rt.alloc(), &object(rt.alloc(), &case.1)?);
        assert!(rt;
            answer.err() == Some(WriteFail::Unwritable { rule: case.2 }),
            "{}",
            case.0
        );
    }
    Ok(())
}
