//! Tasks that stand inside what a swap changes.

use crate::cases::{Case, try_all};
use crate::sources::SourceFile;
use crate::swap_keeping::{CALLER, GIVES_ONE, GIVES_TWO, NINE};
use cell_run::Status;
use std::test::Fail;

/// A crate that yields and then calls another one, and other forms of both.
static INSIDE: [SourceFile; 4] = [
    SourceFile {
        name: "k#m.o",
        source: CALLER,
    },
    SourceFile {
        name: "k#o.o",
        source: GIVES_ONE,
    },
    SourceFile {
        name: "n#m-2.o",
        source: NINE,
    },
    SourceFile {
        name: "n#o-2.o",
        source: GIVES_TWO,
    },
];

static OF_INSIDE: [Case; 2] = [
    Case {
        script: "load k m\nspawn k m::go 0\nstep 1 3\nswap k/o=n#o-2.o\nstep 1 1\nswap k/o=n#o-2.o\n",
        status: Status::SomeRefused,
        text: "1 ok load #1 #2 patched 1\n2 ok spawn t1 pc 10000000\n3 ok step t1 turns 3 ready\n\
            4 E13 torn t1 #1.1+8\n5 ok step t1 turns 1 ready\n6 ok swap 1 new #3 patched 1 removed - kept #2\n",
    },
    // The call is in a cell that was put aside.
    Case {
        script: "load k m\nspawn k m::go 0\nstep 1 3\nswap k/m=n#m-2.o\nswap k/o=n#o-2.o\ntasks\nstep 1 1\n\
            swap k/o=n#o-2.o\n",
        status: Status::SomeRefused,
        text: "1 ok load #1 #2 patched 1\n2 ok spawn t1 pc 10000000\n3 ok step t1 turns 3 ready\n\
            4 ok swap 1 new #3 patched 0 removed - kept #1\n5 E13 torn t1 #1.1+8\n6 ok tasks\n  \
            t1 ready pc 1000000c root #1\n7 ok step t1 turns 1 ready\n\
            8 ok swap 2 new #4 patched 1 removed - kept #1 #2\n",
    },
];

/// Data, another form of it, and crates that take its addresses: by two sequences one after the other, by two
/// that overlap, with a fault inside, and by the first instruction alone.
static ADDRESSES: [SourceFile; 6] = [
    SourceFile {
        name: "k#s.o",
        source: ".data\n.globl s::v\ns::v: .quad 1\n.globl s::w\ns::w: .quad 2",
    },
    SourceFile {
        name: "n#s-2.o",
        source: ".data\n.globl s::w\ns::w: .quad 3\n.globl s::v\ns::v: .quad 4",
    },
    SourceFile {
        name: "k#t.o",
        source: ".text\n.globl t::f\nt::f: lui t0,%hi(s::v)\nnop\naddi t0,t0,%lo(s::v)\nnop\nla t1,s::v\nnop\n\
            ret",
    },
    SourceFile {
        name: "k#c.o",
        source: ".text\n.globl c::f\nc::f: lui t0,%hi(s::v)\nlui t1,%hi(s::w)\naddi t0,t0,%lo(s::v)\n\
            addi t1,t1,%lo(s::w)\nret",
    },
    SourceFile {
        name: "k#g.o",
        source: ".text\n.globl g::f\ng::f: lui t0,%hi(s::v)\nld t1,0(zero)\naddi t0,t0,%lo(s::v)\nret",
    },
    SourceFile {
        name: "k#h.o",
        source: ".text\n.globl h::f\nh::f: auipc t0,%pcrel_hi(s::v)\nnop\nret",
    },
];

static OF_ADDRESSES: [Case; 4] = [
    // From behind the first instruction to the last one.
    Case {
        script: "load k t\nspawn k t::f 0\nswap k/s=n#s-2.o\nstep 1 1\nswap k/s=k#s.o\nstep 1 1\n\
            swap k/s=k#s.o\nstep 1 1\nswap k/s=k#s.o\nstep 1 2\nswap k/s=n#s-2.o\nstep 1 1\nswap k/s=n#s-2.o\n\
            kill 1\npurge\n",
        status: Status::SomeRefused,
        text: "1 ok load #1 #2 patched 4\n2 ok spawn t1 pc 10000000\n\
            3 ok swap 1 new #3 patched 4 removed #2 kept -\n4 ok step t1 turns 1 ready\n5 E13 torn t1 #1.1+0\n\
            6 ok step t1 turns 1 ready\n7 E13 torn t1 #1.1+0\n8 ok step t1 turns 1 ready\n\
            9 ok swap 2 new #4 patched 4 removed - kept #3\n10 ok step t1 turns 2 ready\n\
            11 E13 torn t1 #1.1+10\n12 ok step t1 turns 1 ready\n\
            13 ok swap 3 new #5 patched 4 removed - kept #3 #4\n14 ok kill t1\n15 ok purge removed #3 #4\n",
    },
    // The lowest task is named, with the lowest of its fields.
    Case {
        script: "load k c\nspawn k c::f 0\nspawn k c::f 0\nspawn k c::f 0\nstep 2 3\nstep 3 1\n\
            swap k/s=n#s-2.o\nkill 2\nswap k/s=n#s-2.o\nstep 3 1\nswap k/s=n#s-2.o\nstep 3 1\n\
            swap k/s=n#s-2.o\nkill 3\nswap k/s=n#s-2.o\n",
        status: Status::SomeRefused,
        text: "1 ok load #1 #2 patched 4\n2 ok spawn t1 pc 10000000\n3 ok spawn t2 pc 10000000\n\
            4 ok spawn t3 pc 10000000\n5 ok step t2 turns 3 ready\n6 ok step t3 turns 1 ready\n\
            7 E13 torn t2 #1.1+4\n8 ok kill t2\n9 E13 torn t3 #1.1+0\n10 ok step t3 turns 1 ready\n\
            11 E13 torn t3 #1.1+0\n12 ok step t3 turns 1 ready\n13 E13 torn t3 #1.1+4\n14 ok kill t3\n\
            15 ok swap 1 new #3 patched 4 removed #2 kept -\n",
    },
    // A task that has faulted goes no further.
    Case {
        script: "load k g\nspawn k g::f 0\nstep 1 9\nswap k/s=n#s-2.o\nkill 1\npurge\n",
        status: Status::Done,
        text: "1 ok load #1 #2 patched 2\n2 ok spawn t1 pc 10000000\n\
            3 ok step t1 turns 2 fault load at 10000004\n4 ok swap 1 new #3 patched 2 removed - kept #2\n\
            5 ok kill t1\n6 ok purge removed #2\n",
    },
    // One instruction alone is no sequence.
    Case {
        script: "load k h\nspawn k h::f 0\nstep 1 1\nswap k/s=n#s-2.o\nkill 1\npurge\n",
        status: Status::Done,
        text: "1 ok load #1 #2 patched 1\n2 ok spawn t1 pc 10000000\n3 ok step t1 turns 1 ready\n\
            4 ok swap 1 new #3 patched 1 removed - kept #2\n5 ok kill t1\n6 ok purge removed #2\n",
    },
];

#[test]
fn torn(rt: HostRuntime) -> Result<(), Fail> {
    try_all(&rt, rt.alloc(), &["d", "s"], &INSIDE, &OF_INSIDE)?;
    try_all(&rt, rt.alloc(), &["d", "s"], &ADDRESSES, &OF_ADDRESSES)?;
    Ok(())
}
