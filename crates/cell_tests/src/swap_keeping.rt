//! What keeps cells that a swap puts aside, and when they go.

use crate::cases::{Case, try_all};
use crate::sources::SourceFile;
use cell_run::Status;
use std::test::Fail;

/// Yields, and then ends with what `o::f` gives.
pub const CALLER: &str = ".text\n.globl m::go\nm::go: li a7,3\necall\ncall o::f\nli a7,0\necall";

/// Ends with 9.
pub const NINE: &str = ".text\n.globl m::go\nm::go: li a0,9\nret";

pub const GIVES_ONE: &str = ".text\n.globl o::f\no::f: li a0,1\nret";

pub const GIVES_TWO: &str = ".text\n.globl o::f\no::f: li a0,2\nret";

/// A crate that yields and then calls another one, and other forms of both.
static CALL: [SourceFile; 5] = [
    SourceFile {
        name: "k#m.o",
        source: CALLER,
    },
    SourceFile {
        name: "k#o.o",
        source: GIVES_ONE,
    },
    SourceFile {
        name: "n#m-2.o",
        source: NINE,
    },
    SourceFile {
        name: "n#o-2.o",
        source: GIVES_TWO,
    },
    SourceFile {
        name: "n#o-3.o",
        source: ".text\n.globl o::g\no::g: ret",
    },
];

static OF_CALL: [Case; 7] = [
    // A task in old code calls new code.
    Case {
        script: "load k m\nspawn k m::go 0\nstep 1 1\nswap k/m=n#m-2.o\nswap k/o=n#o-2.o\nstep 1 100\npurge\n",
        status: Status::Done,
        text: "1 ok load #1 #2 patched 1\n2 ok spawn t1 pc 10000000\n3 ok step t1 turns 1 ready\n\
            4 ok swap 1 new #3 patched 0 removed - kept #1\n5 ok swap 2 new #4 patched 1 removed #2 kept #1\n\
            6 ok step t1 turns 7 done 2\n7 ok purge removed #1\n",
    },
    // A strict swap is refused while a task holds the old cell.
    Case {
        script: "load k m\nspawn k m::go 0\nstep 1 1\nswap k/m=n#m-2.o strict\nswap k/m=n#m-2.o\n",
        status: Status::SomeRefused,
        text: "1 ok load #1 #2 patched 1\n2 ok spawn t1 pc 10000000\n3 ok step t1 turns 1 ready\n\
            4 E15 held #1 t1\n5 ok swap 1 new #3 patched 0 removed - kept #1\n",
    },
    // After that refusal the machine goes on as if nothing had been asked, and a strict swap of what
    // nobody holds is done.
    Case {
        script: "load k m\nspawn k m::go 0\nstep 1 1\nswap k/m=n#m-2.o strict\nswap k/o=n#o-2.o reexport strict\n\
            swap k/m=n#m-2.o\nmap\nkill 1\nswap k/m=k#m.o strict\n",
        status: Status::SomeRefused,
        text: "1 ok load #1 #2 patched 1\n2 ok spawn t1 pc 10000000\n3 ok step t1 turns 1 ready\n\
            4 E15 held #1 t1\n5 ok swap 1 new #3 patched 1 removed #2 kept -\n\
            6 ok swap 2 new #4 patched 0 removed - kept #1\n7 ok map\n  #1 k/m detached 2 k#m.o\n    \
            1 rx 10000000 24\n  #3 k/o attached n#o-2.o\n    1 rx 10006000 8\n  #4 k/m attached n#m-2.o\n    \
            1 rx 10001000 8\n8 ok kill t1\n9 ok swap 3 new #5 patched 1 removed #1 #4 kept -\n",
    },
    // A task ends its call in old code, and one that begins then is in new code.
    Case {
        script: "load k m\nspawn k m::go 0\nstep 1 4\nswap k/o=n#o-2.o\nmap\ndeps 1\nusers 2\nfind k o::f\n\
            unload k/o\nspawn k o::f 0\nrun 100\npurge\n",
        status: Status::SomeRefused,
        text: "1 ok load #1 #2 patched 1\n2 ok spawn t1 pc 10000000\n3 ok step t1 turns 4 ready\n\
            4 ok swap 1 new #3 patched 1 removed - kept #2\n5 ok map\n  #1 k/m attached k#m.o\n    \
            1 rx 10000000 24\n  #2 k/o detached 1 k#o.o\n    1 rx 10001000 8\n  #3 k/o attached n#o-2.o\n    \
            1 rx 10006000 8\n6 ok deps #1\n  #1.1+8 CALL_PLT -> #3.1\n7 ok users #2\n\
            8 ok find #3.1+0 10006000\n9 E15 held #3 #1\n10 ok spawn t2 pc 10006000\n11 ok run\n  \
            t1 turns 4 done 1\n  t2 turns 2 done 2\n12 ok purge removed #2\n",
    },
    // What a swap puts aside goes group by group, as soon as nobody keeps it.
    Case {
        script: "load k m\nspawn k m::go 0\nstep 1 4\nswap k/m=n#m-2.o\nswap k/o=n#o-2.o\nmap\npurge\n\
            step 1 2\npurge\nmap\nstep 1 9\npurge\n",
        status: Status::Done,
        text: "1 ok load #1 #2 patched 1\n2 ok spawn t1 pc 10000000\n3 ok step t1 turns 4 ready\n\
            4 ok swap 1 new #3 patched 0 removed - kept #1\n\
            5 ok swap 2 new #4 patched 1 removed - kept #1 #2\n6 ok map\n  #1 k/m detached 1 k#m.o\n    \
            1 rx 10000000 24\n  #2 k/o detached 2 k#o.o\n    1 rx 10001000 8\n  #3 k/m attached n#m-2.o\n    \
            1 rx 10006000 8\n  #4 k/o attached n#o-2.o\n    1 rx 10007000 8\n7 ok purge removed -\n\
            8 ok step t1 turns 2 ready\n9 ok purge removed #2\n10 ok map\n  #1 k/m detached 1 k#m.o\n    \
            1 rx 10000000 24\n  #3 k/m attached n#m-2.o\n    1 rx 10006000 8\n  #4 k/o attached n#o-2.o\n    \
            1 rx 10007000 8\n11 ok step t1 turns 2 done 1\n12 ok purge removed #1\n",
    },
    // One purge takes two groups. A cell that was put aside holds what it needs.
    Case {
        script: "load k m\nspawn k m::go 0\nspawn k o::f 0\nswap k/m=n#m-2.o\nunload k/o\nswap k/o=n#o-2.o\n\
            unload k/o\nkill 1\nkill 2\npurge\nunload k/o\n",
        status: Status::SomeRefused,
        text: "1 ok load #1 #2 patched 1\n2 ok spawn t1 pc 10000000\n3 ok spawn t2 pc 10001000\n\
            4 ok swap 1 new #3 patched 0 removed - kept #1\n5 E15 held #2 t2\n\
            6 ok swap 2 new #4 patched 1 removed - kept #1 #2\n7 E15 held #4 #1\n8 ok kill t1\n9 ok kill t2\n\
            10 ok purge removed #1 #2\n11 ok unload removed #4\n",
    },
    // A swap and an unload take with them what was put aside before.
    Case {
        script: "load k m\nspawn k m::go 0\nswap k/m=n#m-2.o\nstep 1 9\nswap k/o=n#o-2.o\nspawn k m::go 0\n\
            swap k/m=k#m.o\nstep 2 9\nunload k/m\n",
        status: Status::Done,
        text: "1 ok load #1 #2 patched 1\n2 ok spawn t1 pc 10000000\n\
            3 ok swap 1 new #3 patched 0 removed - kept #1\n4 ok step t1 turns 8 done 1\n\
            5 ok swap 2 new #4 patched 1 removed #1 #2 kept -\n6 ok spawn t2 pc 10006000\n\
            7 ok swap 3 new #5 patched 1 removed - kept #3\n8 ok step t2 turns 2 done 9\n\
            9 ok unload removed #3 #5\n",
    },
];

/// A crate that yields and then calls another one, and forms of both that don't fit together with these.
static TOGETHER: [SourceFile; 4] = [
    SourceFile {
        name: "k#a.o",
        source: ".text\n.globl a::go\na::go: li a7,3\necall\ncall b::in\nli a7,0\necall",
    },
    SourceFile {
        name: "k#b.o",
        source: ".text\n.globl b::in\nb::in: li a0,5\nret",
    },
    SourceFile {
        name: "n#a-2.o",
        source: ".text\n.globl a::go\na::go: li a0,0\nret",
    },
    SourceFile {
        name: "n#b-2.o",
        source: ".text\n.globl b::other\nb::other: ret",
    },
];

static OF_TOGETHER: [Case; 1] = [Case {
    script: "load k a\nspawn k a::go 0\nstep 1 1\nswap k/a=n#a-2.o k/b=n#b-2.o\nstep 1 100\npurge\n",
    status: Status::Done,
    text: "1 ok load #1 #2 patched 1\n2 ok spawn t1 pc 10000000\n3 ok step t1 turns 1 ready\n\
            4 ok swap 1 new #3 #4 patched 0 removed - kept #1 #2\n5 ok step t1 turns 7 done 5\n\
            6 ok purge removed #1 #2\n",
}];

/// A call inside a call, and a form of the middle one that calls nothing. In the inner call the way back into
/// the middle one stands on the stack alone.
static RETURNS: [SourceFile; 4] = [
    SourceFile {
        name: "k#a.o",
        source: ".text\n.globl a::go\na::go: addi sp,sp,-16\nsd ra,8(sp)\ncall b::f\nld ra,8(sp)\n\
            addi sp,sp,16\nret",
    },
    SourceFile {
        name: "k#b.o",
        source: ".text\n.globl b::f\nb::f: addi sp,sp,-16\nsd ra,8(sp)\ncall c::g\nld ra,8(sp)\naddi a0,a0,1\n\
            addi sp,sp,16\nret",
    },
    SourceFile {
        name: "k#c.o",
        source: ".text\n.globl c::g\nc::g: addi sp,sp,-16\nsd ra,8(sp)\nli ra,0\nnop\nld ra,8(sp)\n\
            addi sp,sp,16\nret",
    },
    SourceFile {
        name: "n#b-2.o",
        source: ".text\n.globl b::f\nb::f: addi a0,a0,100\nret",
    },
];

static OF_RETURNS: [Case; 1] = [Case {
    script: "load k a\nspawn k a::go 5\nstep 1 11\nswap k/b=n#b-2.o\npurge\nstep 1 100\npurge\n\
            spawn k a::go 5\nstep 2 100\n",
    status: Status::Done,
    text: "1 ok load #1 #2 #3 patched 2\n2 ok spawn t1 pc 10000000\n3 ok step t1 turns 11 ready\n\
            4 ok swap 1 new #4 patched 1 removed - kept #2\n5 ok purge removed -\n\
            6 ok step t1 turns 11 done 6\n7 ok purge removed #2\n8 ok spawn t2 pc 10000000\n\
            9 ok step t2 turns 9 done 105\n",
}];

/// Constants, data, a crate that writes the address of the constants to the data, and one that reads by it
/// and clears it.
static WRITTEN: [SourceFile; 5] = [
    SourceFile {
        name: "k#b.o",
        source: ".rodata\n.globl b::x\nb::x: .quad 7",
    },
    SourceFile {
        name: "k#d.o",
        source: ".data\n.globl d::p\nd::p: .quad 0",
    },
    SourceFile {
        name: "k#m.o",
        source: ".text\n.globl m::go\nm::go: la t0,b::x\nla t1,d::p\nsd t0,0(t1)\nli a7,0\necall",
    },
    SourceFile {
        name: "k#r.o",
        source: ".text\n.globl r::go\nr::go: la t1,d::p\nld t0,0(t1)\nld a0,0(t0)\nsd zero,0(t1)\nli a7,0\n\
            ecall",
    },
    SourceFile {
        name: "n#b-2.o",
        source: ".rodata\n.globl b::x\nb::x: .quad 9",
    },
];

static OF_WRITTEN: [Case; 1] = [Case {
    script: "load k d\nload k m\nspawn k m::go 0\nstep 1 9\nswap k/b=n#b-2.o\nload k r\nspawn k r::go 0\n\
            step 2 99\npurge\nspawn k m::go 0\nstep 3 9\nspawn k r::go 0\nstep 4 9\n",
    status: Status::Done,
    text: "1 ok load #1 patched 0\n2 ok load #2 #3 patched 4\n3 ok spawn t1 pc 10001000\n\
            4 ok step t1 turns 7 done 0\n5 ok swap 1 new #4 patched 2 removed - kept #3\n\
            6 ok load #5 patched 2\n7 ok spawn t2 pc 10004000\n8 ok step t2 turns 7 done 7\n\
            9 ok purge removed #3\n10 ok spawn t3 pc 10001000\n11 ok step t3 turns 7 done 0\n\
            12 ok spawn t4 pc 10004000\n13 ok step t4 turns 7 done 9\n",
}];

#[test]
fn swap_keeping(rt: HostRuntime) -> Result<(), Fail> {
    try_all(&rt, rt.alloc(), &["d", "s"], &CALL, &OF_CALL)?;
    try_all(&rt, rt.alloc(), &["d", "s"], &TOGETHER, &OF_TOGETHER)?;
    try_all(&rt, rt.alloc(), &["d", "s"], &RETURNS, &OF_RETURNS)?;
    try_all(&rt, rt.alloc(), &["d", "s"], &WRITTEN, &OF_WRITTEN)?;
    Ok(())
}
