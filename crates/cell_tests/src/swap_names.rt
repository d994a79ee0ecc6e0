//! Names that new cells take over from those in whose place they come.

use crate::cases::{Case, try_all};
use crate::sources::SourceFile;
use cell_run::Status;
use std::test::Fail;

/// A crate that calls another one, of which there are forms under other hashes, and one that links to it.
static HASHES: [SourceFile; 9] = [
    SourceFile {
        name: "k#app.o",
        source: ".text\n.globl app::go\napp::go: call log::put::h01\nret",
    },
    SourceFile {
        name: "k#log-01.o",
        source: ".text\n.globl log::put::h01\nlog::put::h01: ret",
    },
    SourceFile {
        name: "n#log-02.o",
        source: ".text\n.globl log::put::h02\nlog::put::h02: ret",
    },
    SourceFile {
        name: "n#log-03.o",
        source: ".text\n.globl log::put::h03\nlog::put::h03: ret\n.globl log::put::h04\nlog::put::h04: ret",
    },
    SourceFile {
        name: "n#log-04.o",
        source: ".text\nnop\n.globl log::put\nlog::put: ret",
    },
    SourceFile {
        name: "k#late.o",
        source: ".rodata\n.quad log::put::h01",
    },
    SourceFile {
        name: "n#late-3.o",
        source: ".rodata\n.globl log::put::h01\nlog::put::h01: .quad 0",
    },
    SourceFile {
        name: "k#x.o",
        source: ".text\n.globl x::f\nx::f: ret",
    },
    SourceFile {
        name: "n#x-2.o",
        source: ".text\n.globl x::f\nx::f: nop\n.globl log::put::h01\nlog::put::h01: ret",
    },
];

static OF_HASHES: [Case; 5] = [
    // The name is taken over where one definition has its base name.
    Case {
        script: "load k app\nswap k/log=n#log-02.o\nswap k/log=n#log-02.o reexport\nload k late\n\
            find k log::put::h01\nswap k/log=n#log-03.o reexport\n",
        status: Status::SomeRefused,
        text: "1 ok load #1 #2 patched 1\n2 E9 missing log::put::h01 #1\n\
            3 ok swap 1 new #3 patched 1 removed #2 kept -\n4 ok load #4 patched 1\n\
            5 ok find #3.1+0 10002000\n6 E9 missing log::put::h01 #1\n",
    },
    // So is a name that was taken over, but for one that the new cell defines.
    Case {
        script: "load k app\nload k late\nswap k/log=n#log-02.o reexport\nswap k/log=k#log-01.o reexport\n\
            find k log::put::h02\nfind k log::put::h01\ndump 3 1\nswap k/log=n#log-02.o\n\
            swap k/log=n#log-04.o reexport\nfind k log::put::h02\nfind k log::put::h01\nfind k log::put\n\
            dump 3 1\nswap k/log=n#log-03.o reexport\nswap k/log=n#log-02.o reexport\nfind k log::put\n",
        status: Status::SomeRefused,
        text: "1 ok load #1 #2 patched 1\n2 ok load #3 patched 1\n\
            3 ok swap 1 new #4 patched 2 removed #2 kept -\n4 ok swap 2 new #5 patched 2 removed #4 kept -\n\
            5 ok find #5.1+0 10001000\n6 ok find #5.1+0 10001000\n7 ok dump #3.1\n  \
            10002000 00 10 00 10 00 00 00 00\n8 E9 missing log::put::h01 #1\n\
            9 ok swap 3 new #6 patched 2 removed #5 kept -\n10 ok find #6.1+4 10003004\n\
            11 ok find #6.1+4 10003004\n12 ok find #6.1+4 10003004\n13 ok dump #3.1\n  \
            10002000 04 30 00 10 00 00 00 00\n14 E9 missing log::put::h01 #1\n\
            15 ok swap 4 new #7 patched 2 removed #6 kept -\n16 ok find #7.1+0 10001000\n",
    },
    // A name that was taken over is taken, and isn't taken over where another new cell defines it.
    Case {
        script: "load k late\nswap k/log=n#log-02.o reexport\nswap k/late=n#late-3.o\n\
            swap k/late=n#late-3.o k/log=n#log-02.o reexport\nfind k log::put::h01\nfind k log::put::h02\n",
        status: Status::SomeRefused,
        text: "1 ok load #1 #2 patched 1\n2 ok swap 1 new #3 patched 1 removed #2 kept -\n\
            3 E8 duplicate log::put::h01 #3\n4 ok swap 2 new #4 #5 patched 0 removed #1 #3 kept -\n\
            5 ok find #4.1+0 10001000\n6 ok find #5.1+0 10003000\n",
    },
    // A user follows the name to the new cell that defines it.
    Case {
        script: "load k app\nload k x\nswap k/log=n#log-02.o k/x=n#x-2.o reexport\nfind k log::put::h01\n\
            find k log::put::h02\ndeps 1\n",
        status: Status::Done,
        text: "1 ok load #1 #2 patched 1\n2 ok load #3 patched 0\n\
            3 ok swap 1 new #4 #5 patched 1 removed #2 #3 kept -\n4 ok find #5.1+4 10004004\n\
            5 ok find #4.1+0 10003000\n6 ok deps #1\n  #1.1+0 CALL_PLT -> #5.1\n",
    },
    // In the dump of the whole machine it stands behind the cell, beside one that was put aside, in which a task is.
    Case {
        script: "ns u under k\nload k app\nspawn k app::go 0\nstep 1 2\nswap k/log=n#log-04.o reexport\ndumpall\n",
        status: Status::Done,
        text: "1 ok ns u\n2 ok load #1 #2 patched 1\n3 ok spawn t1 pc 10000000\n4 ok step t1 turns 2 ready\n\
            5 ok swap 1 new #3 patched 1 removed - kept #2\n6 ok dumpall\n  space 10000000 1024\n  ns 0 k -\n  \
            ns 1 u 0\n  cell 1 0 app k#app.o attached\n  place 1 1 10000000\n  \
            cell 2 0 log k#log-01.o group 1\n  place 2 1 10001000\n  cell 3 0 log n#log-04.o attached\n  \
            place 3 1 10006000\n  alias 3 0 log::put::h01\n  link 1.1 0 3.1\n  name 0 app::go 1.1+0\n  \
            name 0 log::put 3.1+4\n  name 0 log::put::h01 3.1+4\n  \
            bytes 1.1 10000000 97600000e780400067800000\n  bytes 2.1 10001000 67800000\n  \
            bytes 3.1 10006000 1300000067800000\n  end\n",
    },
];

#[test]
fn names_with_hashes(rt: HostRuntime) -> Result<(), Fail> {
    try_all(&rt, rt.alloc(), &["d", "s"], &HASHES, &OF_HASHES)
}
