//! Where sections are placed, as dumps show it. A page has 4096 bytes. The sections of a cell stand in
//! three runs of pages, first those of code, then those that are only read, then the writable ones.

use crate::cases::try_script;
use crate::folder::ObjectFile;
use crate::objects::PlainSection::{Constants, Data, Text, Zeros};
use crate::objects::{PlainObject, PlainSection};
use crate::sources::assembled;
use cell_run::Status;
use std::alloc::{AllocError, Global};
use std::test::Fail;

/// A command line, words between single spaces, the sources of three crates, a script over them, and what
/// comes of it.
struct Case {
    words: &'static str,
    sources: [&'static str; 3],
    script: &'static str,
    status: Status,
    text: &'static str,
}

/// The files of the crates.
const NAMES: [&str; 3] = ["k#a.o", "k#b.o", "k#c.o"];

/// In 16 pages.
const SMALL: &str = "d s --pages 16";

const CASES: [Case; 11] = [
    // The classes in their order, whatever the order of the sections is.
    Case {
        words: SMALL,
        sources: [
            ".data\n.byte 1\n.rodata\n.byte 2\n.text\nnop\n.bss\n.zero 2",
            "",
            "",
        ],
        script: "load k a\ndump 1 1\ndump 1 2\ndump 1 3\ndump 1 4",
        status: Status::Done,
        text: "1 ok load #1 patched 0\n2 ok dump #1.1\n  10002000 01\n3 ok dump #1.2\n  10001000 02\n\
            4 ok dump #1.3\n  10000000 13 00 00 00\n5 ok dump #1.4\n  10002008 00 00\n",
    },
    // A cell without a section takes no page.
    Case {
        words: SMALL,
        sources: ["", ".data\n.byte 5", ""],
        script: "load k a\nload k b\ndump 2 1",
        status: Status::Done,
        text: "1 ok load #1 patched 0\n2 ok load #2 patched 0\n3 ok dump #2.1\n  10000000 05\n",
    },
    // A page to the last byte, and one byte more.
    Case {
        words: SMALL,
        sources: [".bss\n.zero 4096", ".bss\n.zero 4097", ".data\n.byte 9"],
        script: "load k a\nload k b\nload k c\ndump 3 1",
        status: Status::Done,
        text: "1 ok load #1 patched 0\n2 ok load #2 patched 0\n3 ok load #3 patched 0\n\
            4 ok dump #3.1\n  10003000 09\n",
    },
    // All of 16 pages in one run, and nothing is left.
    Case {
        words: SMALL,
        sources: [".bss\n.zero 65536", ".data\n.byte 1", ""],
        script: "load k a\nload k b",
        status: Status::SomeRefused,
        text: "1 ok load #1 patched 0\n2 E11 exhausted 1 0\n",
    },
    // One byte more than 16 pages.
    Case {
        words: SMALL,
        sources: [".bss\n.zero 65537", "", ""],
        script: "load k a",
        status: Status::SomeRefused,
        text: "1 E11 exhausted 17 16\n",
    },
    // All of 16 pages in three runs of 1, 1 and 14.
    Case {
        words: SMALL,
        sources: [
            ".text\nnop\n.rodata\n.byte 1\n.bss\n.zero 57336\n.data\n.quad 2",
            ".rodata\n.byte 1",
            "",
        ],
        script: "load k a\ndump 1 2\ndump 1 4\nload k b",
        status: Status::SomeRefused,
        text: "1 ok load #1 patched 0\n2 ok dump #1.2\n  10001000 01\n\
            3 ok dump #1.4\n  1000fff8 02 00 00 00 00 00 00 00\n4 E11 exhausted 1 0\n",
    },
    // The third run doesn't fit; the pages of the other two are free again, and the number too.
    Case {
        words: SMALL,
        sources: [
            ".text\nnop\n.rodata\n.byte 1\n.bss\n.zero 57345",
            ".bss\n.zero 65528\n.data\n.quad 3",
            "",
        ],
        script: "load k a\nload k b\ndump 1 2",
        status: Status::SomeRefused,
        text: "1 E11 exhausted 15 14\n2 ok load #1 patched 0\n\
            3 ok dump #1.2\n  1000fff8 03 00 00 00 00 00 00 00\n",
    },
    // The lowest base.
    Case {
        words: "d s --base 0x1000 --pages 16",
        sources: [".data\n.byte 1", "", ""],
        script: "load k a\ndump 1 1",
        status: Status::Done,
        text: "1 ok load #1 patched 0\n2 ok dump #1.1\n  1000 01\n",
    },
    // The highest base: its first page, and the last of 16.
    Case {
        words: "d s --base 0x7fffffff000 --pages 16",
        sources: [".data\n.byte 1", ".bss\n.zero 57344", ".data\n.byte 3"],
        script: "load k a\nload k b\nload k c\ndump 1 1\ndump 3 1",
        status: Status::Done,
        text: "1 ok load #1 patched 0\n2 ok load #2 patched 0\n3 ok load #3 patched 0\n\
            4 ok dump #1.1\n  7fffffff000 01\n5 ok dump #3.1\n  8000000e000 03\n",
    },
    // And the last of 4096.
    Case {
        words: "d s --base 0x7fffffff000 --pages 4096",
        sources: [".bss\n.zero 16773120", ".data\n.byte 8", ".data\n.byte 9"],
        script: "load k a\nload k b\ndump 2 1\nload k c",
        status: Status::SomeRefused,
        text: "1 ok load #1 patched 0\n2 ok load #2 patched 0\n3 ok dump #2.1\n  80000ffe000 08\n\
            4 E11 exhausted 1 0\n",
    },
    // All of 4096 pages in one run.
    Case {
        words: "d s --pages 4096",
        sources: [
            ".bss\n.zero 16777208\n.data\n.quad 4",
            ".rodata\n.byte 1",
            "",
        ],
        script: "load k a\ndump 1 2\nload k b",
        status: Status::SomeRefused,
        text: "1 ok load #1 patched 0\n2 ok dump #1.2\n  10fffff8 04 00 00 00 00 00 00 00\n\
            3 E11 exhausted 1 0\n",
    },
];

fn files_of(alloc: Global, sources: &[&str]) -> Result<Vec<ObjectFile<'static>>, Fail> {
    let mut files = Vec::new(alloc);
    for (name, source) in NAMES.iter().zip(sources) {
        files.push(assembled(alloc, *name, *source)?)?;
    }
    Ok(files)
}

fn split(alloc: Global, line: &'static str) -> Result<Vec<&'static str>, AllocError> {
    let mut words = Vec::new(alloc);
    for word in line.split(' ') {
        words.push(word)?;
    }
    Ok(words)
}

#[test]
fn places(rt: HostRuntime) -> Result<(), Fail> {
    for case in &CASES {
        let files = files_of(rt.alloc(), &case.sources)?;
        let words = split(rt.alloc(), case.words)?;
        try_script(
            &rt,
            rt.alloc(),
            &words,
            &files,
            case.script,
            case.status,
            case.text,
        )?;
    }
    Ok(())
}

/// A crate with these sections, in 16 pages, a script, and what comes of it.
struct Layout {
    sections: &'static [PlainSection<'static>],
    script: &'static str,
    text: &'static str,
}

const CODE: [u8; 4] = [0x13, 0, 0, 0];

const LAYOUTS: [Layout; 3] = [
    // In a class each section is at the next multiple of its alignment.
    Layout {
        sections: &[
            Data(1, &[1]),
            Data(2, &[2]),
            Data(16, &[3]),
            Data(4096, &[4]),
            Data(8, &[5]),
            Data(1, &[6]),
        ],
        script: "load k a\ndump 1 1\ndump 1 2\ndump 1 3\ndump 1 4\ndump 1 5\ndump 1 6",
        text: "1 ok load #1 patched 0\n\
            2 ok dump #1.1\n  10000000 01\n\
            3 ok dump #1.2\n  10000002 02\n\
            4 ok dump #1.3\n  10000010 03\n\
            5 ok dump #1.4\n  10001000 04\n\
            6 ok dump #1.5\n  10001008 05\n\
            7 ok dump #1.6\n  10001009 06\n",
    },
    // The code takes two pages, so the next class begins behind them, at its own offset 0.
    Layout {
        sections: &[
            Text(4, &CODE),
            Constants(64, &[1]),
            Text(4096, &CODE),
            Constants(32, &[2]),
        ],
        script: "load k a\ndump 1 1\ndump 1 2\ndump 1 3\ndump 1 4",
        text: "1 ok load #1 patched 0\n\
            2 ok dump #1.1\n  10000000 13 00 00 00\n\
            3 ok dump #1.2\n  10002000 01\n\
            4 ok dump #1.3\n  10001000 13 00 00 00\n\
            5 ok dump #1.4\n  10002020 02\n",
    },
    // An empty section between others is aligned too.
    Layout {
        sections: &[Data(1, &[1]), Zeros(16, 0), Data(1, &[2])],
        script: "load k a\ndump 1 2\ndump 1 3",
        text: "1 ok load #1 patched 0\n\
            2 ok dump #1.2\n\
            3 ok dump #1.3\n  10000010 02\n",
    },
];

/// Several sections of one class.
#[test]
fn sections_of_one_class(rt: HostRuntime) -> Result<(), Fail> {
    for layout in &LAYOUTS {
        let object = PlainObject {
            sections: layout.sections,
            symbols: &[],
            entries: &[],
        };
        let file = ObjectFile {
            name: "k#a.o",
            bytes: object.image(rt.alloc())?,
        };
        try_script(
            &rt,
            rt.alloc(),
            &["d", "s", "--pages", "16"],
            std::slice::from_ref(&file),
            layout.script,
            Status::Done,
            layout.text,
        )?;
    }
    Ok(())
}
