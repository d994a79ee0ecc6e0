//! Scripts over several namespaces, and loads that bring what they need.

use crate::cases::try_script;
use crate::sources::{SourceFile, object_files};
use cell_run::Status;
use std::test::Fail;

/// A script, the object files beside it, and what comes of it.
struct Case {
    script: &'static str,
    files: &'static [SourceFile],
    status: Status,
    text: &'static str,
}

/// The source of a crate that defines `a::x`.
const AX: &str = ".rodata\n.globl a::x\na::x: .byte 1";

const EMPTY: &str = ".data\n.zero 8";

static CASES: [Case; 7] = [
    // Siblings may have one name, and a namespace below or above may not have it as well.
    Case {
        script: "ns u under k\nns v under k\nns w under u\nload u a\nload v a\nload w z\nload k a\n",
        files: &[
            SourceFile {
                name: "u#a.o",
                source: AX,
            },
            SourceFile {
                name: "v#a.o",
                source: AX,
            },
            SourceFile {
                name: "k#a.o",
                source: AX,
            },
            SourceFile {
                name: "w#z.o",
                source: AX,
            },
        ],
        status: Status::SomeRefused,
        text: "1 ok ns u\n2 ok ns v\n3 ok ns w\n4 ok load #1 patched 0\n5 ok load #2 patched 0\n\
            6 E8 duplicate a::x #1\n7 E8 duplicate a #1\n",
    },
    // A circle of three.
    Case {
        script: "load k a\n",
        files: &[
            SourceFile {
                name: "k#a.o",
                source: ".rodata\n.globl a::x\na::x: .quad b::x",
            },
            SourceFile {
                name: "k#b.o",
                source: ".rodata\n.globl b::x\nb::x: .quad c::x",
            },
            SourceFile {
                name: "k#c.o",
                source: ".rodata\n.globl c::x\nc::x: .quad a::x",
            },
        ],
        status: Status::Done,
        text: "1 ok load #1 #2 #3 patched 3\n",
    },
    Case {
        script: "ns k under k",
        files: &[],
        status: Status::SomeRefused,
        text: "1 E2 taken k\n",
    },
    // The first two in byte order of names, whatever order the folder lists them in.
    Case {
        script: "load k zz",
        files: &[
            SourceFile {
                name: "k#zz-2.o",
                source: EMPTY,
            },
            SourceFile {
                name: "k#zz-1.o",
                source: EMPTY,
            },
        ],
        status: Status::SomeRefused,
        text: "1 E6 ambiguous k#zz-1.o k#zz-2.o\n",
    },
    // The nearest depot brings the crate, and what it brings stands in that depot's namespace.
    Case {
        script: "ns u under k\nload u app\nfind u lib::f\nfind k lib::f\nmap\n",
        files: &[
            SourceFile {
                name: "u#app.o",
                source: ".text\n.globl app::go\napp::go: call lib::f\nret",
            },
            SourceFile {
                name: "k#lib.o",
                source: ".text\nnop\n.globl lib::f\nlib::f: ret",
            },
        ],
        status: Status::Done,
        text: "1 ok ns u\n2 ok load #1 #2 patched 1\n3 ok find #2.1+4 10001004\n4 ok find #2.1+4 10001004\n\
            5 ok map\n  #1 u/app attached u#app.o\n    1 rx 10000000 12\n  #2 k/lib attached k#lib.o\n    1 rx 10001000 8\n",
    },
    // A load that is refused uses no number: the next cell is number 1.
    Case {
        script: "load k app\nload k a\nfind k b::n\n",
        files: &[
            SourceFile {
                name: "k#app.o",
                source: ".data\n.quad a::x, b::n",
            },
            SourceFile {
                name: "k#a.o",
                source: AX,
            },
            SourceFile {
                name: "k#b.o",
                source: EMPTY,
            },
        ],
        status: Status::SomeRefused,
        text: "1 E9 missing b::n #1\n2 ok load #1 patched 0\n3 ok find -\n",
    },
    // Two new cells, of which both name a section of the second.
    Case {
        script: "load k far\nmap\n",
        files: &[
            SourceFile {
                name: "k#far.o",
                source: ".text\n.globl far::go\nfar::go: lui a0,%hi(near::x)\ncall near::f",
            },
            SourceFile {
                name: "k#near.o",
                source: ".text\n.globl near::f\nnear::f: lui a0,%hi(near::x)\n.data\n.zero 4095\n.globl near::x\nnear::x: .byte 1",
            },
        ],
        status: Status::Done,
        text: "1 ok load #1 #2 patched 3\n2 ok map\n  #1 k/far attached k#far.o\n    1 rx 10000000 12\n  #2 k/near attached k#near.o\n    1 rx 10001000 4\n    2 rw 10002000 4096\n",
    },
];

#[test]
fn spaces(rt: HostRuntime) -> Result<(), Fail> {
    for case in &CASES {
        let files = object_files(rt.alloc(), case.files)?;
        try_script(
            &rt,
            rt.alloc(),
            &["d", "s"],
            &files,
            case.script,
            case.status,
            case.text,
        )?;
    }
    Ok(())
}
