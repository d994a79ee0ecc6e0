//! Which cells a load brings: from the nearest depot, the first need first; and what it is refused for.

use crate::cases::try_script;
use crate::sources::{SourceFile, object_files};
use cell_run::Status;
use std::alloc::Global;
use std::process::Abort;
use std::test::Fail;

/// What `load` and `map` are asked after `ns u under k` and `ns v under k`, the object files, and what comes of it
/// after the two answers.
struct Case {
    script: &'static str,
    files: &'static [SourceFile],
    status: Status,
    text: &'static str,
}

/// A function `b::x`.
const BX: &str = ".text\n.globl b::x\nb::x: ret";

const CALL_BX: &str = ".text\ncall b::x";

const NAMESPACES: &str = "ns u under k\nns v under k\n";

static CASES: [Case; 10] = [
    // The nearest depot brings the crate.
    Case {
        script: "load u a\nmap\n",
        files: &[
            SourceFile {
                name: "k#b.o",
                source: BX,
            },
            SourceFile {
                name: "u#a.o",
                source: CALL_BX,
            },
            SourceFile {
                name: "u#b.o",
                source: BX,
            },
        ],
        status: Status::Done,
        text: "3 ok load #1 #2 patched 1\n4 ok map\n  #1 u/a attached u#a.o\n    1 rx 10000000 8\n  #2 u/b attached u#b.o\n    1 rx 10001000 4\n",
    },
    // A sibling's depot is not looked at.
    Case {
        script: "load v a\nmap\n",
        files: &[
            SourceFile {
                name: "k#b.o",
                source: BX,
            },
            SourceFile {
                name: "u#b.o",
                source: BX,
            },
            SourceFile {
                name: "v#a.o",
                source: CALL_BX,
            },
        ],
        status: Status::Done,
        text: "3 ok load #1 #2 patched 1\n4 ok map\n  #1 v/a attached v#a.o\n    1 rx 10000000 8\n  #2 k/b attached k#b.o\n    1 rx 10001000 4\n",
    },
    // A sibling's cell provides nothing.
    Case {
        script: "load u b\nload v a\n",
        files: &[
            SourceFile {
                name: "u#b.o",
                source: BX,
            },
            SourceFile {
                name: "v#a.o",
                source: CALL_BX,
            },
        ],
        status: Status::SomeRefused,
        text: "3 ok load #1 patched 0\n4 E9 missing b::x #2\n",
    },
    // A stem that a cell up the chain has, and a name that one down the chain has.
    Case {
        script: "load k a\nload u a\nload u b\nload k z\n",
        files: &[
            SourceFile {
                name: "k#a.o",
                source: ".text\nret",
            },
            SourceFile {
                name: "u#a.o",
                source: ".text\nret",
            },
            SourceFile {
                name: "u#b.o",
                source: BX,
            },
            SourceFile {
                name: "k#z.o",
                source: BX,
            },
        ],
        status: Status::SomeRefused,
        text: "3 ok load #1 patched 0\n4 E8 duplicate a #1\n5 ok load #2 patched 0\n6 E8 duplicate b::x #2\n",
    },
    // Several files of the crate in the nearest depot.
    Case {
        script: "load u a\n",
        files: &[
            SourceFile {
                name: "k#b.o",
                source: BX,
            },
            SourceFile {
                name: "u#a.o",
                source: CALL_BX,
            },
            SourceFile {
                name: "u#b-2.o",
                source: BX,
            },
            SourceFile {
                name: "u#b-1.o",
                source: BX,
            },
        ],
        status: Status::SomeRefused,
        text: "3 E6 ambiguous u#b-1.o u#b-2.o\n",
    },
    // Several files further up don't matter.
    Case {
        script: "load u a\nmap\n",
        files: &[
            SourceFile {
                name: "k#b-1.o",
                source: BX,
            },
            SourceFile {
                name: "k#b-2.o",
                source: BX,
            },
            SourceFile {
                name: "u#a.o",
                source: CALL_BX,
            },
            SourceFile {
                name: "u#b-0.o",
                source: BX,
            },
        ],
        status: Status::Done,
        text: "3 ok load #1 #2 patched 1\n4 ok map\n  #1 u/a attached u#a.o\n    1 rx 10000000 8\n  #2 u/b attached u#b-0.o\n    1 rx 10001000 4\n",
    },
    // The file of the crate lacks the name. The number that the needing cell would have got is told.
    Case {
        script: "load u a\n",
        files: &[
            SourceFile {
                name: "k#b.o",
                source: ".text\n.globl b::y\nb::y: ret",
            },
            SourceFile {
                name: "u#a.o",
                source: CALL_BX,
            },
        ],
        status: Status::SomeRefused,
        text: "3 E9 missing b::x #1\n",
    },
    // A name of no crate.
    Case {
        script: "load u a\n",
        files: &[SourceFile {
            name: "u#a.o",
            source: ".text\ncall x",
        }],
        status: Status::SomeRefused,
        text: "3 E9 missing x #1\n",
    },
    // The first need of the first cell first: c, b, and then d, which c needs.
    Case {
        script: "load k a\nmap\n",
        files: &[
            SourceFile {
                name: "k#a.o",
                source: ".text\ncall c::x\ncall b::x",
            },
            SourceFile {
                name: "k#b.o",
                source: BX,
            },
            SourceFile {
                name: "k#c.o",
                source: ".text\n.globl c::x\nc::x: call d::x",
            },
            SourceFile {
                name: "k#d.o",
                source: ".text\n.globl d::x\nd::x: ret",
            },
        ],
        status: Status::Done,
        text: "3 ok load #1 #2 #3 #4 patched 3\n4 ok map\n  #1 k/a attached k#a.o\n    1 rx 10000000 16\n  #2 k/c attached k#c.o\n    1 rx 10001000 8\n  #3 k/b attached k#b.o\n    1 rx 10002000 4\n  #4 k/d attached k#d.o\n    1 rx 10003000 4\n",
    },
    // A present cell provides the name, and no file is looked for.
    Case {
        script: "load k b\nload u a\n",
        files: &[
            SourceFile {
                name: "k#b.o",
                source: BX,
            },
            SourceFile {
                name: "u#a.o",
                source: CALL_BX,
            },
            SourceFile {
                name: "u#b.o",
                source: BX,
            },
        ],
        status: Status::Done,
        text: "3 ok load #1 patched 0\n4 ok load #2 patched 1\n",
    },
];

fn try_case(rt: &impl Abort, alloc: Global, case: &Case) -> Result<(), Fail> {
    let files = object_files(alloc, case.files)?;
    let script = format!(in alloc; "{NAMESPACES}{}", case.script)?;
    let wanted = format!(in alloc; "1 ok ns u\n2 ok ns v\n{}", case.text)?;
    try_script(
        rt,
        alloc,
        &["d", "s"],
        &files,
        &script,
        case.status,
        &wanted,
    )
}

#[test]
fn gathering(rt: HostRuntime) -> Result<(), Fail> {
    for case in &CASES {
        try_case(&rt, rt.alloc(), case)?;
    }
    Ok(())
}
