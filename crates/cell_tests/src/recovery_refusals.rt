//! Recoveries that are refused, after which all is as before.

use crate::cases::{Case, try_all};
use crate::sources::SourceFile;
use cell_run::Status;
use std::test::Fail;

/// A crate that is trapped, and forms of it: without its name, with data of that name, and with the name at the
/// end of the code.
static LOST: [SourceFile; 5] = [
    SourceFile {
        name: "k#a.o",
        source: ".text\n.globl a::go\na::go: call b::f\nret",
    },
    SourceFile {
        name: "k#b.o",
        source: ".text\n.globl b::f\nb::f: ebreak",
    },
    SourceFile {
        name: "n#a-2.o",
        source: ".text\n.globl a::x\na::x: ret",
    },
    SourceFile {
        name: "n#a-3.o",
        source: ".data\n.globl a::go\na::go: .quad 1",
    },
    SourceFile {
        name: "n#a-4.o",
        source: ".text\n.globl a::go\nnop\na::go:",
    },
];

static OF_LOST: [Case; 2] = [
    // Nobody has the name that the task was spawned at, or no task can begin where it stands. The task stays as it
    // is; once the name is back it begins again.
    Case {
        script: "load k a\nspawn k a::go 3\nstep 1 9\nswap k/a=n#a-2.o\nrecover 1\nrebuild 1\nswap k/a=n#a-3.o\n\
            recover 1\nswap k/a=n#a-4.o\nrecover 1\ntasks\nswap k/a=k#a.o\nrecover 1\ntasks\nmap\n",
        status: Status::SomeRefused,
        text: "1 ok load #1 #2 patched 1\n2 ok spawn t1 pc 10000000\n3 ok step t1 turns 3 fault break at 10001000\n\
            4 ok swap 1 new #3 patched 0 removed - kept #1\n5 E10 no-entry a::go\n6 E10 no-entry a::go\n\
            7 ok swap 2 new #4 patched 0 removed #3 kept #1\n8 E10 no-entry a::go\n\
            9 ok swap 3 new #5 patched 0 removed #4 kept #1\n10 E10 no-entry a::go\n11 ok tasks\n  \
            t1 fault break at 10001000 root #1\n12 ok swap 4 new #6 patched 1 removed #5 kept #1\n\
            13 ok recover t1 swap 5 new #7 patched 2 removed #1 #2 kept -\n14 ok tasks\n  \
            t1 ready pc 10007000 root #6\n15 ok map\n  #6 k/a attached k#a.o\n    1 rx 10007000 12\n  \
            #7 k/b attached k#b.o\n    1 rx 10006000 4\n",
    },
    // A number without a live task, a task that is ready, and one that stands in no crate, in this order.
    Case {
        script: "load k a\nrecover 1\nrebuild 1\nspawn k a::go 0\nrecover 1\nrebuild 1\nstep 1 9\nswap k/b=k#b.o\n\
            recover 1\nkill 1\nrecover 1\n",
        status: Status::SomeRefused,
        text: "1 ok load #1 #2 patched 1\n2 E1 unknown 1\n3 E1 unknown 1\n4 ok spawn t1 pc 10000000\n\
            5 E16 not-faulted t1\n6 E16 not-faulted t1\n7 ok step t1 turns 3 fault break at 10001000\n\
            8 ok swap 1 new #3 patched 1 removed - kept #2\n9 E17 no-crate t1 10001000\n10 ok kill t1\n\
            11 E1 unknown 1\n",
    },
];

/// A crate that calls another one, which has much data and is trapped, a form of it without its name, and
/// crates of one page and of five.
static FULL: [SourceFile; 7] = [
    SourceFile {
        name: "k#h.o",
        source: ".text\n.globl h::go\nh::go: call g::f",
    },
    SourceFile {
        name: "n#h-2.o",
        source: ".text\n.globl h::x\nh::x: ret",
    },
    SourceFile {
        name: "k#g.o",
        source: ".text\n.globl g::f\ng::f: ebreak\n.bss\n.zero 4097",
    },
    SourceFile {
        name: "k#p.o",
        source: ".bss\n.zero 1",
    },
    SourceFile {
        name: "k#q.o",
        source: ".bss\n.zero 1",
    },
    SourceFile {
        name: "k#s.o",
        source: ".bss\n.zero 1",
    },
    SourceFile {
        name: "k#r.o",
        source: ".bss\n.zero 16385",
    },
];

static OF_FULL: [Case; 1] = [
    // There is no room for fresh code, and then none for fresh data; where the task has no place to begin, that is
    // said first. With room enough it begins again.
    Case {
        script: "load k h\nload k r\nspawn k h::go 0\nstep 1 9\nload k p\nload k q\nload k s\nrecover 1\n\
            unload k/p\nrecover 1\nrebuild 1\nswap k/h=n#h-2.o\nrecover 1\nunload k/q k/s\nswap k/h=k#h.o\n\
            recover 1\ntasks\nunload k/r\nrecover 1\nstep 1 9\n",
        status: Status::SomeRefused,
        text: "1 ok load #1 #2 patched 1\n2 ok load #3 patched 0\n3 ok spawn t1 pc 10000000\n\
            4 ok step t1 turns 3 fault break at 10001000\n5 ok load #4 patched 0\n6 ok load #5 patched 0\n\
            7 ok load #6 patched 0\n8 E11 exhausted 1 0\n9 ok unload removed #4\n10 E11 exhausted 2 0\n\
            11 E11 exhausted 1 0\n12 ok swap 1 new #7 patched 0 removed - kept #1\n13 E10 no-entry h::go\n\
            14 ok unload removed #5 #6\n15 ok swap 2 new #8 patched 1 removed #7 kept #1\n16 E11 exhausted 2 1\n\
            17 ok tasks\n  t1 fault break at 10001000 root #1\n18 ok unload removed #3\n\
            19 ok recover t1 swap 3 new #9 patched 2 removed #1 #2 kept -\n\
            20 ok step t1 turns 3 fault break at 10004000\n",
    },
];

/// A crate that jumps to another one, which is trapped, or is trapped itself, and one that is larger than a
/// jump.
static FAR: [SourceFile; 3] = [
    SourceFile {
        name: "k#a.o",
        source: ".text\n.globl a::go\na::go: beq a0,zero,a::bad\nj b::f\na::bad: ebreak",
    },
    SourceFile {
        name: "k#b.o",
        source: ".text\n.globl b::f\nb::f: ebreak",
    },
    SourceFile {
        name: "k#z.o",
        source: ".bss\n.zero 1048576\n",
    },
];

static OF_FAR: [Case; 1] = [
    // The fresh instance stands too far away for who jumps to it, or for what it jumps to. Then there is room
    // beside the old ones.
    Case {
        script: "load k a\nload k z\nspawn k a::go 0\nspawn k a::go 1\nrun 9\nrecover 1\nrecover 2\ntasks\n\
            unload k/z\nrecover 1\nrecover 2\nrun 9\n",
        status: Status::SomeRefused,
        text: "1 ok load #1 #2 patched 2\n2 ok load #3 patched 0\n3 ok spawn t1 pc 10000000\n\
            4 ok spawn t2 pc 10000000\n5 ok run\n  t1 turns 2 fault break at 10000008\n  \
            t2 turns 3 fault break at 10001000\n6 E12 overflow #4.1+4 JAL\n7 E12 overflow #1.1+4 JAL\n\
            8 ok tasks\n  t1 fault break at 10000008 root #1\n  t2 fault break at 10001000 root #1\n\
            9 ok unload removed #3\n10 ok recover t1 swap 1 new #4 patched 2 removed - kept #1\n\
            11 ok recover t2 swap 2 new #5 patched 2 removed #1 #2 kept -\n12 ok run\n  \
            t1 turns 2 fault break at 10002008\n  t2 turns 3 fault break at 10003000\n",
    },
];

/// A crate that is trapped, one that calls it, and one that takes an address of it in two instructions, between
/// which it is trapped.
static INSIDE: [SourceFile; 3] = [
    SourceFile {
        name: "k#b.o",
        source: ".text\n.globl b::f\nb::f: ebreak\n.data\n.globl b::v\nb::v: .quad 1",
    },
    SourceFile {
        name: "k#u.o",
        source: ".text\n.globl u::go\nu::go: call b::f\nret",
    },
    SourceFile {
        name: "k#w.o",
        source: ".text\n.globl w::go\nw::go: lui t0,%hi(b::v)\nebreak\nld t0,%lo(b::v)(t0)\nebreak",
    },
];

static OF_INSIDE: [Case; 1] = [
    // A ready task stands inside a call that would change; a turn more, and it stands there no longer. One that
    // has faulted inside hinders nothing.
    Case {
        script: "load k u\nload k w\nspawn k u::go 0\nspawn k u::go 0\nspawn k w::go 0\nstep 1 9\nstep 2 1\n\
            step 3 9\nrecover 1\ntasks\nstep 2 1\nrecover 1\ntasks\nstep 1 9\n",
        status: Status::SomeRefused,
        text: "1 ok load #1 #2 patched 1\n2 ok load #3 patched 2\n3 ok spawn t1 pc 10000000\n\
            4 ok spawn t2 pc 10000000\n5 ok spawn t3 pc 10003000\n6 ok step t1 turns 3 fault break at 10001000\n\
            7 ok step t2 turns 1 ready\n8 ok step t3 turns 2 fault break at 10003004\n9 E13 torn t2 #1.1+0\n\
            10 ok tasks\n  t1 fault break at 10001000 root #1\n  t2 ready pc 10000004 root #1\n  \
            t3 fault break at 10003004 root #3\n11 ok step t2 turns 1 ready\n\
            12 ok recover t1 swap 1 new #4 patched 3 removed - kept #2\n13 ok tasks\n  \
            t1 ready pc 10000000 root #1\n  t2 ready pc 10001000 root #1\n  t3 fault break at 10003004 root #3\n\
            14 ok step t1 turns 3 fault break at 10010000\n",
    },
];

#[test]
fn recovery_refusals(rt: HostRuntime) -> Result<(), Fail> {
    try_all(&rt, rt.alloc(), &["d", "s"], &LOST, &OF_LOST)?;
    try_all(
        &rt,
        rt.alloc(),
        &["d", "s", "--pages", "16"],
        &FULL,
        &OF_FULL,
    )?;
    try_all(&rt, rt.alloc(), &["d", "s"], &FAR, &OF_FAR)?;
    try_all(&rt, rt.alloc(), &["d", "s"], &INSIDE, &OF_INSIDE)?;
    Ok(())
}
