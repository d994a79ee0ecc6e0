//! Tasks that fault, and begin again in fresh cells.

use crate::cases::{Case, try_all};
use crate::sources::SourceFile;
use cell_run::Status;
use std::test::Fail;

/// Ends with its argument the first time, and is trapped where its data says that it has run before.
static ONCE: [SourceFile; 1] = [SourceFile {
    name: "k#f.o",
    source: ".text\n.globl f::go\nf::go: la t0,f::v\nld t1,0(t0)\nbeq t1,zero,f::bad\nsd zero,0(t0)\nli a7,0\n\
        ecall\nf::bad: ebreak\n.data\nf::v: .quad 1",
}];

static OF_ONCE: [Case; 2] = [
    // The fresh cell has fresh data, and the task its own argument.
    Case {
        script: "load k f\nspawn k f::go 5\nstep 1 20\nspawn k f::go 6\nstep 2 20\nrecover 2\nstep 2 20\nrecover 2\n",
        status: Status::SomeRefused,
        text: "1 ok load #1 patched 3\n2 ok spawn t1 pc 10000000\n3 ok step t1 turns 7 done 5\n\
            4 ok spawn t2 pc 10000000\n5 ok step t2 turns 5 fault break at 1000001c\n\
            6 ok recover t2 swap 1 new #2 patched 3 removed #1 kept -\n7 ok step t2 turns 7 done 6\n8 E1 unknown 2\n",
    },
    // A ready task isn't recovered, and stays as it is.
    Case {
        script: "load k f\nspawn k f::go 5\nstep 1 2\nrecover 1\nrebuild 1\nstep 1 20\nrebuild 1\n",
        status: Status::SomeRefused,
        text: "1 ok load #1 patched 3\n2 ok spawn t1 pc 10000000\n3 ok step t1 turns 2 ready\n\
            4 E16 not-faulted t1\n5 E16 not-faulted t1\n6 ok step t1 turns 5 done 5\n7 E1 unknown 1\n",
    },
];

/// Jumps to where its argument says.
static JUMPS: [SourceFile; 1] = [SourceFile {
    name: "k#e.o",
    source: ".text\n.globl e::go\ne::go: jalr zero,2(a0)",
}];

static OF_JUMPS: [Case; 1] = [
    // A task that stands nowhere has no crate to be recovered, but holds the one that it began in. Another
    // task keeps the old cell.
    Case {
        script: "load k e\nspawn k e::go 0x10000000\nstep 1 5\nspawn k e::go 0xffffe\nstep 2 5\nrecover 2\nrebuild 2\n\
            recover 2\n",
        status: Status::SomeRefused,
        text: "1 ok load #1 patched 0\n2 ok spawn t1 pc 10000000\n3 ok step t1 turns 1 fault jump at 10000000\n\
            4 ok spawn t2 pc 10000000\n5 ok step t2 turns 2 fault fetch at 100000\n6 E17 no-crate t2 100000\n\
            7 ok rebuild t2 swap 1 new #2 patched 0 removed - kept #1\n8 E16 not-faulted t2\n",
    },
];

/// A crate that calls another, which is trapped, and other forms of both.
static CALLS: [SourceFile; 4] = [
    SourceFile {
        name: "k#a.o",
        source: ".text\n.globl a::go\na::go: call b::f\nret",
    },
    SourceFile {
        name: "k#b.o",
        source: ".text\n.globl b::f\nb::f: ebreak",
    },
    SourceFile {
        name: "n#a-2.o",
        source: ".text\n.globl a::x\na::x: ret",
    },
    SourceFile {
        name: "n#b-2.o",
        source: ".text\n.globl b::f\nb::f: nop\nebreak",
    },
];

static OF_CALLS: [Case; 5] = [
    // Who calls the crate that is recovered calls the fresh one.
    Case {
        script: "load k a\nspawn k a::go 0\nstep 1 9\nrecover 1\nstep 1 9\n",
        status: Status::Done,
        text: "1 ok load #1 #2 patched 1\n2 ok spawn t1 pc 10000000\n3 ok step t1 turns 3 fault break at 10001000\n\
            4 ok recover t1 swap 1 new #3 patched 1 removed #2 kept -\n5 ok step t1 turns 3 fault break at 10006000\n",
    },
    // All that the task holds is rebuilt: the crate that it began in, and the one that it stands in.
    Case {
        script: "load k a\nspawn k a::go 0\nstep 1 9\nrebuild 1\nstep 1 9\n",
        status: Status::Done,
        text: "1 ok load #1 #2 patched 1\n2 ok spawn t1 pc 10000000\n3 ok step t1 turns 3 fault break at 10001000\n\
            4 ok rebuild t1 swap 1 new #3 #4 patched 1 removed #1 #2 kept -\n5 ok step t1 turns 3 fault break at 10007000\n",
    },
    // Another task holds the old cell, in which it can't be recovered then.
    Case {
        script: "load k a\nspawn k a::go 0\nspawn k a::go 0\nrun 9\nrecover 1\nrecover 2\nrebuild 2\nstep 2 9\n",
        status: Status::SomeRefused,
        text: "1 ok load #1 #2 patched 1\n2 ok spawn t1 pc 10000000\n3 ok spawn t2 pc 10000000\n\
            4 ok run\n  t1 turns 3 fault break at 10001000\n  t2 turns 3 fault break at 10001000\n\
            5 ok recover t1 swap 1 new #3 patched 1 removed - kept #2\n6 E17 no-crate t2 10001000\n\
            7 ok rebuild t2 swap 2 new #4 patched 1 removed #2 kept #1\n8 ok step t2 turns 3 fault break at 1000a000\n",
    },
    // Nobody provides the name of the spawn any more.
    Case {
        script: "load k a\nspawn k a::go 0\nstep 1 9\nswap k/a=n#a-2.o\nrecover 1\nrebuild 1\ntasks\nmap\n",
        status: Status::SomeRefused,
        text: "1 ok load #1 #2 patched 1\n2 ok spawn t1 pc 10000000\n3 ok step t1 turns 3 fault break at 10001000\n\
            4 ok swap 1 new #3 patched 0 removed - kept #1\n5 E10 no-entry a::go\n6 E10 no-entry a::go\n\
            7 ok tasks\n  t1 fault break at 10001000 root #1\n8 ok map\n  #1 k/a detached 1 k#a.o\n    \
            1 rx 10000000 12\n  #2 k/b attached k#b.o\n    1 rx 10001000 4\n  #3 k/a attached n#a-2.o\n    1 rx 10006000 4\n",
    },
    // A cell is renewed from its own file, also where a swap has brought it.
    Case {
        script: "load k a\nswap k/b=n#b-2.o\nspawn k a::go 0\nstep 1 9\nrecover 1\nstep 1 9\nmap\n",
        status: Status::Done,
        text: "1 ok load #1 #2 patched 1\n2 ok swap 1 new #3 patched 1 removed #2 kept -\n3 ok spawn t1 pc 10000000\n\
            4 ok step t1 turns 4 fault break at 10002004\n5 ok recover t1 swap 2 new #4 patched 1 removed #3 kept -\n\
            6 ok step t1 turns 4 fault break at 10001004\n7 ok map\n  #1 k/a attached k#a.o\n    1 rx 10000000 12\n  \
            #4 k/b attached n#b-2.o\n    1 rx 10001000 8\n",
    },
];

/// Takes its stack pointer away, and is trapped.
static ASTRAY: [SourceFile; 1] = [SourceFile {
    name: "k#f.o",
    source: ".text\n.globl f::go\nf::go: li sp,0\nebreak",
}];

static OF_ASTRAY: [Case; 1] = [
    // The stack pointer is at its place again.
    Case {
        script: "load k f\nspawn k f::go 0\nstep 1 9\nrecover 1\nstep 1 9\n",
        status: Status::Done,
        text: "1 ok load #1 patched 0\n2 ok spawn t1 pc 10000000\n3 ok step t1 turns 2 fault break at 10000004\n\
            4 ok recover t1 swap 1 new #2 patched 0 removed #1 kept -\n5 ok step t1 turns 2 fault break at 10005004\n",
    },
];

#[test]
fn recovery(rt: HostRuntime) -> Result<(), Fail> {
    try_all(&rt, rt.alloc(), &["d", "s"], &ONCE, &OF_ONCE)?;
    try_all(&rt, rt.alloc(), &["d", "s"], &JUMPS, &OF_JUMPS)?;
    try_all(&rt, rt.alloc(), &["d", "s"], &CALLS, &OF_CALLS)?;
    try_all(&rt, rt.alloc(), &["d", "s"], &ASTRAY, &OF_ASTRAY)?;
    Ok(())
}
