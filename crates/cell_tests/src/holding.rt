//! What keeps cells, and what goes.

use crate::cases::{Case, try_all};
use crate::sources::SourceFile;
use cell_run::Status;
use std::test::Fail;

/// Three crates, each of which needs the next one, in a cycle.
static CYCLE: [SourceFile; 3] = [
    SourceFile {
        name: "k#a.o",
        source: ".rodata\n.globl a::x\na::x: .quad b::x",
    },
    SourceFile {
        name: "k#b.o",
        source: ".rodata\n.globl b::x\nb::x: .quad c::x",
    },
    SourceFile {
        name: "k#c.o",
        source: ".rodata\n.globl c::x\nc::x: .quad a::x",
    },
];

static OF_CYCLE: [Case; 2] = [
    Case {
        script: "load k a\ndeps 1\nusers 1\nunload k/a\nunload k/a k/b k/c\nunload k/a\n",
        status: Status::SomeRefused,
        text: "1 ok load #1 #2 #3 patched 3\n2 ok deps #1\n  #1.1+0 64 -> #2.1\n\
            3 ok users #1\n  #3.1+0 64 -> #1.1\n4 E15 held #1 #3\n\
            5 ok unload removed #1 #2 #3\n6 E1 unknown k/a\n",
    },
    // The pages are free again, and numbers go on.
    Case {
        script: "load k a\nunload k/c k/a k/b\ndeps 1\nusers 3\npurge\nload k b\nmap\ndeps 4\nunload k/c\n\
            unload k/c k/b\nunload k/c k/zz\nunload k/c q/a k/zz\nunload k/b k/c k/a\nmap\n",
        status: Status::SomeRefused,
        text: "1 ok load #1 #2 #3 patched 3\n2 ok unload removed #1 #2 #3\n3 E1 unknown 1\n4 E1 unknown 3\n\
            5 ok purge removed -\n6 ok load #4 #5 #6 patched 3\n\
            7 ok map\n  #4 k/b attached k#b.o\n    1 ro 10000000 8\n  #5 k/c attached k#c.o\n    1 ro 10001000 8\n  \
            #6 k/a attached k#a.o\n    1 ro 10002000 8\n\
            8 ok deps #4\n  #4.1+0 64 -> #5.1\n9 E15 held #5 #4\n10 E15 held #5 #4\n\
            11 E1 unknown k/zz\n12 E1 unknown q/a\n13 ok unload removed #4 #5 #6\n14 ok map\n",
    },
];

/// A crate that goes on in another one, whose code has an end.
static PASSES: [SourceFile; 2] = [
    SourceFile {
        name: "k#m.o",
        source: ".text\n.globl m::go\nm::go: la t0,o::f\njalr zero,0(t0)",
    },
    SourceFile {
        name: "k#o.o",
        source: ".text\n.globl o::f\no::f: li t0,0\nnop",
    },
];

static OF_TASKS: [Case; 2] = [
    // Its root, a register, its pc, and its pc at the end of a section hold.
    Case {
        script: "load k m\nspawn k m::go 0\nunload k/m\nstep 1 3\nunload k/m\nunload k/o\nstep 1 1\nunload k/o\n\
            step 1 1\nunload k/o\nstep 1 1\nunload k/o\nkill 1\nunload k/o\nunload k/m k/o\n",
        status: Status::SomeRefused,
        text: "1 ok load #1 #2 patched 2\n2 ok spawn t1 pc 10000000\n3 E15 held #1 t1\n\
            4 ok step t1 turns 3 ready\n5 E15 held #1 t1\n6 E15 held #2 t1\n7 ok step t1 turns 1 ready\n\
            8 E15 held #2 t1\n9 ok step t1 turns 1 ready\n10 E15 held #2 t1\n\
            11 ok step t1 turns 1 fault illegal at 10001008\n12 E15 held #2 t1\n13 ok kill t1\n\
            14 E15 held #2 #1\n15 ok unload removed #1 #2\n",
    },
    // The lowest task is named.
    Case {
        script: "load k m\nspawn k m::go 0\nspawn k m::go 0\nunload k/m\nkill 1\nunload k/m\nkill 2\nunload k/m\n\
            spawn k m::go 0\nload k m\nspawn k m::go 0\n",
        status: Status::SomeRefused,
        text: "1 ok load #1 #2 patched 2\n2 ok spawn t1 pc 10000000\n3 ok spawn t2 pc 10000000\n\
            4 E15 held #1 t1\n5 ok kill t1\n6 E15 held #1 t2\n7 ok kill t2\n8 ok unload removed #1\n\
            9 E10 no-entry m::go\n10 ok load #3 patched 2\n11 ok spawn t3 pc 10000000\n",
    },
];

/// A call inside a call: the return addresses stand on the stack. Then x2 moves: above the last one,
/// below the stack, to its end and above it.
static CALLS: [SourceFile; 3] = [
    SourceFile {
        name: "k#a.o",
        source: ".text\n.globl a::go\na::go: call b::f\nret",
    },
    SourceFile {
        name: "k#b.o",
        source: ".text\n.globl b::f\nb::f: addi sp,sp,-16\nsd ra,8(sp)\ncall c::g\nret",
    },
    SourceFile {
        name: "k#c.o",
        source: ".text\n.globl c::g\nc::g: addi sp,sp,-16\nsd ra,8(sp)\nli ra,0\naddi sp,sp,16\n\
            li sp,0\nlui sp,0x10007\nlui sp,0x10008\nnop",
    },
];

static OF_STACKS: [Case; 1] = [Case {
    script: "load k a\nspawn k a::go 0\nstep 1 9\nunload k/b\nstep 1 1\nunload k/b\nstep 1 1\nunload k/b\n\
        step 1 1\nunload k/b\nstep 1 1\nunload k/b\nkill 1\nunload k/b\nunload k/c k/b k/a\n",
    status: Status::SomeRefused,
    text: "1 ok load #1 #2 #3 patched 2\n2 ok spawn t1 pc 10000000\n3 ok step t1 turns 9 ready\n\
        4 E15 held #2 t1\n5 ok step t1 turns 1 ready\n6 E15 held #2 #1\n\
        7 ok step t1 turns 1 ready\n8 E15 held #2 t1\n9 ok step t1 turns 1 ready\n10 E15 held #2 #1\n\
        11 ok step t1 turns 1 ready\n12 E15 held #2 t1\n13 ok kill t1\n14 E15 held #2 #1\n\
        15 ok unload removed #1 #2 #3\n",
}];

/// Data of 12 bytes, a crate that writes another crate's address so many bytes behind their start,
/// and the other crate.
static WRITES: [SourceFile; 3] = [
    SourceFile {
        name: "k#b.o",
        source: ".rodata\n.globl b::x\nb::x: .quad 7",
    },
    SourceFile {
        name: "k#d.o",
        source: ".data\n.globl d::p\nd::p: .zero 12",
    },
    SourceFile {
        name: "k#m.o",
        source: ".text\n.globl m::go\nm::go: la t0,b::x\nla t1,d::p\nadd t1,t1,a0\nsw t0,0(t1)\n\
            li a7,0\necall",
    },
];

static OF_WORDS: [Case; 4] = [
    Case {
        script: "load k d\nload k m\nspawn k m::go 0\nstep 1 9\nunload k/m\nunload k/b\nunload k/b k/d\n",
        status: Status::SomeRefused,
        text: "1 ok load #1 patched 0\n2 ok load #2 #3 patched 4\n3 ok spawn t1 pc 10001000\n\
            4 ok step t1 turns 8 done 0\n5 ok unload removed #2\n6 E15 held #3 #1\n\
            7 ok unload removed #1 #3\n",
    },
    // The word isn't aligned.
    Case {
        script: "load k d\nload k m\nspawn k m::go 4\nstep 1 9\nunload k/m\nunload k/b\n",
        status: Status::Done,
        text: "1 ok load #1 patched 0\n2 ok load #2 #3 patched 4\n3 ok spawn t1 pc 10001000\n\
            4 ok step t1 turns 8 done 4\n5 ok unload removed #2\n6 ok unload removed #3\n",
    },
    // The word ends behind the section.
    Case {
        script: "load k d\nload k m\nspawn k m::go 8\nstep 1 9\nunload k/m\nunload k/b\n",
        status: Status::Done,
        text: "1 ok load #1 patched 0\n2 ok load #2 #3 patched 4\n3 ok spawn t1 pc 10001000\n\
            4 ok step t1 turns 8 done 8\n5 ok unload removed #2\n6 ok unload removed #3\n",
    },
    // The word is padding.
    Case {
        script: "load k d\nload k m\nspawn k m::go 16\nstep 1 9\nunload k/m\nunload k/b\n",
        status: Status::Done,
        text: "1 ok load #1 patched 0\n2 ok load #2 #3 patched 4\n3 ok spawn t1 pc 10001000\n\
            4 ok step t1 turns 8 done 16\n5 ok unload removed #2\n6 ok unload removed #3\n",
    },
];

/// Data of 8 bytes, constants and data with numbers that are addresses in it or beside it.
static NUMBERS: [SourceFile; 5] = [
    SourceFile {
        name: "k#d.o",
        source: ".data\n.globl d::x\nd::x: .quad 0",
    },
    SourceFile {
        name: "k#r.o",
        source: ".rodata\n.quad 0x10000000",
    },
    SourceFile {
        name: "k#s.o",
        source: ".data\n.quad 0x10000000",
    },
    SourceFile {
        name: "k#t.o",
        source: ".data\n.quad 0, 0x10000008",
    },
    SourceFile {
        name: "k#u.o",
        source: ".data\n.quad 0x10000009, 0xfffffff",
    },
];

static OF_NUMBERS: [Case; 4] = [
    // Constants don't hold.
    Case {
        script: "load k d\nload k r\nunload k/d\n",
        status: Status::Done,
        text: "1 ok load #1 patched 0\n2 ok load #2 patched 0\n3 ok unload removed #1\n",
    },
    Case {
        script: "load k d\nload k s\nunload k/d\nunload k/s\nunload k/d\n",
        status: Status::SomeRefused,
        text: "1 ok load #1 patched 0\n2 ok load #2 patched 0\n3 E15 held #1 #2\n\
            4 ok unload removed #2\n5 ok unload removed #1\n",
    },
    // The end of the data counts, and nothing beside it.
    Case {
        script: "load k d\nload k u\nload k t\nunload k/d\nunload k/t\nunload k/d\n",
        status: Status::SomeRefused,
        text: "1 ok load #1 patched 0\n2 ok load #2 patched 0\n3 ok load #3 patched 0\n\
            4 E15 held #1 #3\n5 ok unload removed #3\n6 ok unload removed #1\n",
    },
    // The lowest cell is named.
    Case {
        script: "load k d\nload k t\nload k s\nunload k/d\nunload k/t k/s k/d\n",
        status: Status::SomeRefused,
        text: "1 ok load #1 patched 0\n2 ok load #2 patched 0\n3 ok load #3 patched 0\n\
            4 E15 held #1 #2\n5 ok unload removed #1 #2 #3\n",
    },
];

/// Data, three crates in a cycle, and a crate that writes the address of one of them to the data.
static CYCLE_AND_DATA: [SourceFile; 5] = [
    SourceFile {
        name: "k#a.o",
        source: ".rodata\n.globl a::x\na::x: .quad b::x",
    },
    SourceFile {
        name: "k#b.o",
        source: ".rodata\n.globl b::x\nb::x: .quad c::x",
    },
    SourceFile {
        name: "k#c.o",
        source: ".rodata\n.globl c::x\nc::x: .quad a::x",
    },
    SourceFile {
        name: "k#d.o",
        source: ".data\n.globl d::p\nd::p: .quad 0",
    },
    SourceFile {
        name: "k#m.o",
        source: ".text\n.globl m::go\nm::go: la t0,a::x\nla t1,d::p\nsd t0,0(t1)\nli a7,0\necall",
    },
];

static OF_ONE_WORD: [Case; 1] = [Case {
    script: "load k d\nload k m\nspawn k m::go 0\nstep 1 9\nunload k/m\nunload k/a k/b k/c\nunload k/c k/a k/b\n\
        unload k/d\nunload k/a k/b k/c\n",
    status: Status::SomeRefused,
    text: "1 ok load #1 patched 0\n2 ok load #2 #3 #4 #5 patched 7\n3 ok spawn t1 pc 10001000\n\
        4 ok step t1 turns 7 done 0\n5 ok unload removed #2\n6 E15 held #3 #1\n7 E15 held #5 #4\n\
        8 ok unload removed #1\n9 ok unload removed #3 #4 #5\n",
}];

/// Two crates that hold only each other, and one that links to one of them in several ways.
static PAIR: [SourceFile; 3] = [
    SourceFile {
        name: "k#p.o",
        source: ".data\n.globl p::x\np::x: .quad q::x",
    },
    SourceFile {
        name: "k#q.o",
        source: ".data\n.globl q::x\nq::x: .quad p::x, p::x",
    },
    SourceFile {
        name: "k#u.o",
        source: ".data\n.quad p::x\n.text\ncall u::f\nla a0,p::x\n.globl u::f\nu::f: ret",
    },
];

static OF_PAIR: [Case; 2] = [
    Case {
        script: "load k p\nunload k/p\nunload k/q\nunload k/q k/p\n",
        status: Status::SomeRefused,
        text: "1 ok load #1 #2 patched 3\n2 E15 held #1 #2\n3 E15 held #2 #1\n\
            4 ok unload removed #1 #2\n",
    },
    // Links stand by the user's cell and entry.
    Case {
        script: "load k u\ndeps 1\nusers 2\nusers 1\ndeps 3\nusers 3\ndeps 4\n",
        status: Status::SomeRefused,
        text: "1 ok load #1 #2 #3 patched 7\n\
            2 ok deps #1\n  #1.1+0 64 -> #2.1\n  #1.2+0 CALL_PLT -> #1.2\n  #1.2+8 PCREL_HI20 -> #2.1\n  \
            #1.2+c PCREL_LO12_I -> #2.1\n\
            3 ok users #2\n  #1.1+0 64 -> #2.1\n  #1.2+8 PCREL_HI20 -> #2.1\n  #1.2+c PCREL_LO12_I -> #2.1\n  \
            #3.1+0 64 -> #2.1\n  #3.1+8 64 -> #2.1\n\
            4 ok users #1\n  #1.2+0 CALL_PLT -> #1.2\n\
            5 ok deps #3\n  #3.1+0 64 -> #2.1\n  #3.1+8 64 -> #2.1\n\
            6 ok users #3\n  #2.1+0 64 -> #3.1\n7 E1 unknown 4\n",
    },
];

#[test]
fn holding(rt: HostRuntime) -> Result<(), Fail> {
    try_all(&rt, rt.alloc(), &["d", "s"], &CYCLE, &OF_CYCLE)?;
    try_all(&rt, rt.alloc(), &["d", "s"], &PASSES, &OF_TASKS)?;
    try_all(&rt, rt.alloc(), &["d", "s"], &CALLS, &OF_STACKS)?;
    try_all(&rt, rt.alloc(), &["d", "s"], &WRITES, &OF_WORDS)?;
    try_all(&rt, rt.alloc(), &["d", "s"], &NUMBERS, &OF_NUMBERS)?;
    try_all(&rt, rt.alloc(), &["d", "s"], &CYCLE_AND_DATA, &OF_ONE_WORD)?;
    try_all(&rt, rt.alloc(), &["d", "s"], &PAIR, &OF_PAIR)?;
    Ok(())
}
