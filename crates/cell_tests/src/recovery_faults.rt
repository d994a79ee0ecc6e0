//! Tasks that fault, by each cause and in crates that others use, and what is renewed for them.

use crate::cases::{Case, try_all};
use crate::sources::SourceFile;
use cell_run::Status;
use std::test::Fail;

/// A crate for each cause of a fault, by which its task faults.
static CAUSES: [SourceFile; 9] = [
    SourceFile {
        name: "k#brk.o",
        source: ".text\n.globl brk::go\nbrk::go: ebreak",
    },
    SourceFile {
        name: "k#cal.o",
        source: ".text\n.globl cal::go\ncal::go: li a7,9\necall",
    },
    SourceFile {
        name: "k#ill.o",
        source: ".text\n.globl ill::go\nill::go: .word 0",
    },
    SourceFile {
        name: "k#jmp.o",
        source: ".text\n.globl jmp::go\njmp::go: jalr zero,2(a0)",
    },
    SourceFile {
        name: "k#ld.o",
        source: ".text\n.globl ld::go\nld::go: ld t0,0(a0)",
    },
    SourceFile {
        name: "k#lda.o",
        source: ".text\n.globl lda::go\nlda::go: ld t0,1(a0)",
    },
    SourceFile {
        name: "k#st.o",
        source: ".text\n.globl st::go\nst::go: sd t0,0(a0)",
    },
    SourceFile {
        name: "k#sta.o",
        source: ".text\n.globl sta::go\nsta::go: sd t0,1(a0)",
    },
    SourceFile {
        name: "k#fet.o",
        source: ".text\n.globl fet::go\nfet::go: nop\njalr zero,0(a0)",
    },
];

static OF_CAUSES: [Case; 1] = [
    // Each begins again in a fresh instance of its crate, and faults there by the same cause; but for the one that
    // fetched from nowhere, which stands in no crate.
    Case {
        script: "load k brk\nload k cal\nload k ill\nload k jmp\nload k ld\nload k lda\nload k st\nload k sta\n\
            load k fet\nspawn k brk::go 0x1000\nspawn k cal::go 0x1000\nspawn k ill::go 0x1000\n\
            spawn k jmp::go 0x1000\nspawn k ld::go 0x1000\nspawn k lda::go 0x1000\nspawn k st::go 0x1000\n\
            spawn k sta::go 0x1000\nspawn k fet::go 0x1000\nrun 9\nrecover 1\nrecover 2\nrecover 3\nrecover 4\n\
            recover 5\nrecover 6\nrecover 7\nrecover 8\nrecover 9\nrebuild 9\nrun 9\ntasks\n",
        status: Status::SomeRefused,
        text: "1 ok load #1 patched 0\n2 ok load #2 patched 0\n3 ok load #3 patched 0\n4 ok load #4 patched 0\n\
            5 ok load #5 patched 0\n6 ok load #6 patched 0\n7 ok load #7 patched 0\n8 ok load #8 patched 0\n\
            9 ok load #9 patched 0\n10 ok spawn t1 pc 10000000\n11 ok spawn t2 pc 10001000\n\
            12 ok spawn t3 pc 10002000\n13 ok spawn t4 pc 10003000\n14 ok spawn t5 pc 10004000\n\
            15 ok spawn t6 pc 10005000\n16 ok spawn t7 pc 10006000\n17 ok spawn t8 pc 10007000\n\
            18 ok spawn t9 pc 10008000\n19 ok run\n  t1 turns 1 fault break at 10000000\n  \
            t2 turns 2 fault call at 10001004\n  t3 turns 1 fault illegal at 10002000\n  \
            t4 turns 1 fault jump at 10003000\n  t5 turns 1 fault load at 10004000\n  \
            t6 turns 1 fault load-align at 10005000\n  t7 turns 1 fault store at 10006000\n  \
            t8 turns 1 fault store-align at 10007000\n  t9 turns 3 fault fetch at 1000\n\
            20 ok recover t1 swap 1 new #10 patched 0 removed #1 kept -\n\
            21 ok recover t2 swap 2 new #11 patched 0 removed #2 kept -\n\
            22 ok recover t3 swap 3 new #12 patched 0 removed #3 kept -\n\
            23 ok recover t4 swap 4 new #13 patched 0 removed #4 kept -\n\
            24 ok recover t5 swap 5 new #14 patched 0 removed #5 kept -\n\
            25 ok recover t6 swap 6 new #15 patched 0 removed #6 kept -\n\
            26 ok recover t7 swap 7 new #16 patched 0 removed #7 kept -\n\
            27 ok recover t8 swap 8 new #17 patched 0 removed #8 kept -\n28 E17 no-crate t9 1000\n\
            29 ok rebuild t9 swap 9 new #18 patched 0 removed #9 kept -\n30 ok run\n  \
            t1 turns 1 fault break at 1002d000\n  t2 turns 2 fault call at 10000004\n  \
            t3 turns 1 fault illegal at 10001000\n  t4 turns 1 fault jump at 10002000\n  \
            t5 turns 1 fault load at 10003000\n  t6 turns 1 fault load-align at 10004000\n  \
            t7 turns 1 fault store at 10005000\n  t8 turns 1 fault store-align at 10006000\n  \
            t9 turns 3 fault fetch at 1000\n31 ok tasks\n  t1 fault break at 1002d000 root #10\n  \
            t2 fault call at 10000004 root #11\n  t3 fault illegal at 10001000 root #12\n  \
            t4 fault jump at 10002000 root #13\n  t5 fault load at 10003000 root #14\n  \
            t6 fault load-align at 10004000 root #15\n  t7 fault store at 10005000 root #16\n  \
            t8 fault store-align at 10006000 root #17\n  t9 fault fetch at 1000 root #18\n",
    },
];

/// A crate that faults, two that call it, of which one has its address in its data too, and one that takes the
/// address of its data.
static USERS: [SourceFile; 3] = [
    SourceFile {
        name: "k#b.o",
        source: ".text\n.globl b::f\nb::f: la t0,b::n\nld t1,0(t0)\naddi t1,t1,1\nsd t1,0(t0)\nebreak\n.data\n\
            .globl b::n\nb::n: .quad 7",
    },
    SourceFile {
        name: "k#u.o",
        source: ".text\n.globl u::go\nu::go: call b::f\nret",
    },
    SourceFile {
        name: "k#w.o",
        source: ".text\n.globl w::go\nw::go: li a0,5\nj b::f\n.rodata\n.quad b::f, b::n",
    },
];

static OF_USERS: [Case; 1] = [
    // All of them lead to the fresh instance, whose data is that of its file; who only calls it is no part of what
    // is renewed.
    Case {
        script: "load k u\nload k w\nspawn k u::go 0\nstep 1 9\nusers 2\ndump 2 2\ndump 3 2\nrecover 1\nusers 4\n\
            dump 4 2\ndump 3 2\nspawn k w::go 0\nrun 9\nrecover 2\ntasks\n",
        status: Status::Done,
        text: "1 ok load #1 #2 patched 3\n2 ok load #3 patched 3\n3 ok spawn t1 pc 10000000\n\
            4 ok step t1 turns 8 fault break at 10001014\n5 ok users #2\n  #1.1+0 CALL_PLT -> #2.1\n  \
            #2.1+0 PCREL_HI20 -> #2.2\n  #2.1+4 PCREL_LO12_I -> #2.2\n  #3.1+4 JAL -> #2.1\n  #3.2+0 64 -> #2.1\n  \
            #3.2+8 64 -> #2.2\n6 ok dump #2.2\n  10002000 08 00 00 00 00 00 00 00\n7 ok dump #3.2\n  \
            10004000 00 10 00 10 00 00 00 00 00 20 00 10 00 00 00 00\n\
            8 ok recover t1 swap 1 new #4 patched 6 removed #2 kept -\n9 ok users #4\n  #1.1+0 CALL_PLT -> #4.1\n  \
            #3.1+4 JAL -> #4.1\n  #3.2+0 64 -> #4.1\n  #3.2+8 64 -> #4.2\n  #4.1+0 PCREL_HI20 -> #4.2\n  \
            #4.1+4 PCREL_LO12_I -> #4.2\n10 ok dump #4.2\n  1000a000 07 00 00 00 00 00 00 00\n11 ok dump #3.2\n  \
            10004000 00 90 00 10 00 00 00 00 00 a0 00 10 00 00 00 00\n12 ok spawn t2 pc 10003000\n13 ok run\n  \
            t1 turns 8 fault break at 10009014\n  t2 turns 8 fault break at 10009014\n\
            14 ok recover t2 swap 2 new #5 patched 6 removed - kept #4\n15 ok tasks\n  \
            t1 fault break at 10009014 root #1\n  t2 ready pc 10003000 root #3\n",
    },
];

/// Two crates that call each other, until one is trapped.
static ROUND: [SourceFile; 2] = [
    SourceFile {
        name: "k#a.o",
        source: ".text\n.globl a::go\na::go: addi sp,sp,-16\nsd ra,0(sp)\ncall b::f\n.globl a::g\na::g: ebreak",
    },
    SourceFile {
        name: "k#b.o",
        source: ".text\n.globl b::f\nb::f: addi sp,sp,-16\nsd ra,0(sp)\ncall a::g",
    },
];

static OF_ROUND: [Case; 3] = [
    // One is recovered, and the other one leads to it, and it to the other one.
    Case {
        script: "load k a\nspawn k a::go 0\nstep 1 9\ndeps 1\ndeps 2\nrecover 1\ndeps 2\ndeps 3\nstep 1 9\n",
        status: Status::Done,
        text: "1 ok load #1 #2 patched 2\n2 ok spawn t1 pc 10000000\n3 ok step t1 turns 9 fault break at 10000010\n\
            4 ok deps #1\n  #1.1+8 CALL_PLT -> #2.1\n5 ok deps #2\n  #2.1+8 CALL_PLT -> #1.1\n\
            6 ok recover t1 swap 1 new #3 patched 2 removed #1 kept -\n7 ok deps #2\n  #2.1+8 CALL_PLT -> #3.1\n\
            8 ok deps #3\n  #3.1+8 CALL_PLT -> #2.1\n9 ok step t1 turns 9 fault break at 10006010\n",
    },
    // Both are rebuilt, and lead to each other. The old ones lead to each other too, and yet go both.
    Case {
        script: "load k a\nspawn k a::go 0\nstep 1 9\nrebuild 1\ndeps 3\ndeps 4\nstep 1 9\nmap\n",
        status: Status::Done,
        text: "1 ok load #1 #2 patched 2\n2 ok spawn t1 pc 10000000\n3 ok step t1 turns 9 fault break at 10000010\n\
            4 ok rebuild t1 swap 1 new #3 #4 patched 2 removed #1 #2 kept -\n5 ok deps #3\n  \
            #3.1+8 CALL_PLT -> #4.1\n6 ok deps #4\n  #4.1+8 CALL_PLT -> #3.1\n\
            7 ok step t1 turns 9 fault break at 10006010\n8 ok map\n  #3 k/a attached k#a.o\n    \
            1 rx 10006000 20\n  #4 k/b attached k#b.o\n    1 rx 10007000 16\n",
    },
    // Another task stands in the old ones: they stay, and go on leading to each other.
    Case {
        script: "load k a\nspawn k a::go 0\nspawn k a::go 0\nstep 2 5\nstep 1 9\nrebuild 1\ndeps 1\ndeps 2\n\
            step 2 9\nrun 9\nkill 2\npurge\n",
        status: Status::Done,
        text: "1 ok load #1 #2 patched 2\n2 ok spawn t1 pc 10000000\n3 ok spawn t2 pc 10000000\n\
            4 ok step t2 turns 5 ready\n5 ok step t1 turns 9 fault break at 10000010\n\
            6 ok rebuild t1 swap 1 new #3 #4 patched 2 removed - kept #1 #2\n7 ok deps #1\n  \
            #1.1+8 CALL_PLT -> #2.1\n8 ok deps #2\n  #2.1+8 CALL_PLT -> #1.1\n\
            9 ok step t2 turns 4 fault break at 10000010\n10 ok run\n  t1 turns 9 fault break at 1000a010\n\
            11 ok kill t2\n12 ok purge removed #1 #2\n",
    },
];

/// A crate with data that faults, and another one whose task takes the address of the data, yields, writes
/// there, and puts out what the data has by its name.
static HOLDER: [SourceFile; 2] = [
    SourceFile {
        name: "k#d.o",
        source: ".text\n.globl d::go\nd::go: ebreak\n.data\n.globl d::v\nd::v: .quad 1",
    },
    SourceFile {
        name: "k#h.o",
        source: ".text\n.globl h::go\nh::go: la s0,d::v\nli a7,3\necall\nli t0,9\nsd t0,0(s0)\nla t1,d::v\n\
            ld a0,0(t1)\nli a7,2\necall\nli a7,0\necall",
    },
];

static OF_HOLDER: [Case; 1] = [
    // The old data is kept for the address. What is written there is lost to who asks by name.
    Case {
        script: "load k h\nspawn k d::go 0\nspawn k h::go 0\nrun 9\nrecover 1\nmap\nstep 2 20\ndump 2 2\ndump 3 2\n\
            purge\n",
        status: Status::Done,
        text: "1 ok load #1 #2 patched 4\n2 ok spawn t1 pc 10001000\n3 ok spawn t2 pc 10000000\n4 ok run\n  \
            t1 turns 1 fault break at 10001000\n  t2 turns 4 ready\n\
            5 ok recover t1 swap 1 new #3 patched 4 removed - kept #2\n6 ok map\n  #1 k/h attached k#h.o\n    \
            1 rx 10000000 52\n  #2 k/d detached 1 k#d.o\n    1 rx 10001000 4\n    2 rw 10002000 8\n  \
            #3 k/d attached k#d.o\n    1 rx 1000b000 4\n    2 rw 1000c000 8\n7 ok step t2 turns 9 done 1\n  \
            out t2 1\n8 ok dump #2.2\n  10002000 09 00 00 00 00 00 00 00\n9 ok dump #3.2\n  \
            1000c000 01 00 00 00 00 00 00 00\n10 ok purge removed #2\n",
    },
];

/// A crate with data, and one that puts its address on its stack below its stack pointer, which it takes away
/// where its argument isn't 0, and is trapped.
static WORDS: [SourceFile; 2] = [
    SourceFile {
        name: "k#c.o",
        source: ".data\n.globl c::v\nc::v: .quad 1",
    },
    SourceFile {
        name: "k#s.o",
        source: ".text\n.globl s::go\ns::go: la t0,c::v\nsd t0,-16(sp)\nli t0,0\nbeq a0,zero,s::low\nli sp,0\n\
            s::low: ebreak",
    },
];

static OF_WORDS: [Case; 1] = [
    // What stands below the stack pointer is no word of the task, but where that points outside the stack all of
    // it counts.
    Case {
        script: "load k s\nspawn k s::go 0\nstep 1 9\nrebuild 1\nspawn k s::go 1\nstep 2 9\nrebuild 2\nmap\ntasks\n\
            run 9\n",
        status: Status::Done,
        text: "1 ok load #1 #2 patched 3\n2 ok spawn t1 pc 10000000\n3 ok step t1 turns 6 fault break at 10000018\n\
            4 ok rebuild t1 swap 1 new #3 patched 3 removed #1 kept -\n5 ok spawn t2 pc 10006000\n\
            6 ok step t2 turns 7 fault break at 10006018\n\
            7 ok rebuild t2 swap 2 new #4 #5 patched 3 removed - kept #2 #3\n8 ok map\n  \
            #2 k/c detached 2 k#c.o\n    1 rw 10001000 8\n  #3 k/s detached 2 k#s.o\n    1 rx 10006000 28\n  \
            #4 k/c attached k#c.o\n    1 rw 10000000 8\n  #5 k/s attached k#s.o\n    1 rx 1000b000 28\n\
            9 ok tasks\n  t1 ready pc 10006000 root #3\n  t2 ready pc 1000b000 root #5\n10 ok run\n  \
            t1 turns 6 fault break at 10006018\n  t2 turns 7 fault break at 1000b018\n",
    },
];

/// A crate in two forms, with names that end in a hash.
static NAMES: [SourceFile; 2] = [
    SourceFile {
        name: "k#f.o",
        source: ".text\n.globl f::go::h01\nf::go::h01: ebreak",
    },
    SourceFile {
        name: "n#f-2.o",
        source: ".text\nnop\n.globl f::go::h02\nf::go::h02: ebreak",
    },
];

static OF_NAMES: [Case; 1] = [
    // A fresh instance has the names that the cell took over from an earlier one. Who began in a cell that was put
    // aside, and has no other one, is lost.
    Case {
        script: "load k f\nspawn k f::go::h01 0\nstep 1 9\nswap k/f=n#f-2.o reexport\nrecover 1\nrebuild 1\n\
            spawn k f::go::h01 0\nstep 2 9\nrecover 2\nfind k f::go::h01\nfind k f::go::h02\nstep 2 9\nkill 1\n\
            purge\n",
        status: Status::SomeRefused,
        text: "1 ok load #1 patched 0\n2 ok spawn t1 pc 10000000\n3 ok step t1 turns 1 fault break at 10000000\n\
            4 ok swap 1 new #2 patched 0 removed - kept #1\n5 E17 no-crate t1 10000000\n\
            6 E17 no-crate t1 10000000\n7 ok spawn t2 pc 10005004\n8 ok step t2 turns 1 fault break at 10005004\n\
            9 ok recover t2 swap 2 new #3 patched 0 removed #2 kept #1\n10 ok find #3.1+4 1000a004\n\
            11 ok find #3.1+4 1000a004\n12 ok step t2 turns 1 fault break at 1000a004\n13 ok kill t1\n\
            14 ok purge removed #1\n",
    },
];

/// A default of a name in a namespace, and one below it.
static SPACES: [SourceFile; 2] = [
    SourceFile {
        name: "k#d.o",
        source: ".text\n.weak x::go\nx::go: ebreak",
    },
    SourceFile {
        name: "u#e.o",
        source: ".text\nnop\n.weak x::go\nx::go: ebreak",
    },
];

static OF_SPACES: [Case; 1] = [
    // The name is looked up anew in the namespace of the spawn, and not in that of the cell.
    Case {
        script: "ns u under k\nload k d\nspawn u x::go 0\nspawn k x::go 0\nrun 9\nload u e\nrecover 1\ntasks\n\
            run 9\nrecover 1\nrecover 2\ntasks\nrun 9\n",
        status: Status::SomeRefused,
        text: "1 ok ns u\n2 ok load #1 patched 0\n3 ok spawn t1 pc 10000000\n4 ok spawn t2 pc 10000000\n\
            5 ok run\n  t1 turns 1 fault break at 10000000\n  t2 turns 1 fault break at 10000000\n\
            6 ok load #2 patched 0\n7 ok recover t1 swap 1 new #3 patched 0 removed - kept #1\n8 ok tasks\n  \
            t1 ready pc 10009004 root #2\n  t2 fault break at 10000000 root #1\n9 ok run\n  \
            t1 turns 1 fault break at 10009004\n10 ok recover t1 swap 2 new #4 patched 0 removed #2 kept #1\n\
            11 E17 no-crate t2 10000000\n12 ok tasks\n  t1 ready pc 1000b004 root #4\n  \
            t2 fault break at 10000000 root #1\n13 ok run\n  t1 turns 1 fault break at 1000b004\n",
    },
];

#[test]
fn recovery_faults(rt: HostRuntime) -> Result<(), Fail> {
    try_all(&rt, rt.alloc(), &["d", "s"], &CAUSES, &OF_CAUSES)?;
    try_all(&rt, rt.alloc(), &["d", "s"], &USERS, &OF_USERS)?;
    try_all(&rt, rt.alloc(), &["d", "s"], &ROUND, &OF_ROUND)?;
    try_all(&rt, rt.alloc(), &["d", "s"], &HOLDER, &OF_HOLDER)?;
    try_all(&rt, rt.alloc(), &["d", "s"], &WORDS, &OF_WORDS)?;
    try_all(&rt, rt.alloc(), &["d", "s"], &NAMES, &OF_NAMES)?;
    try_all(&rt, rt.alloc(), &["d", "s"], &SPACES, &OF_SPACES)?;
    Ok(())
}
