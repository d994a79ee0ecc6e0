//! Swaps by which names are given up to weak holders, or taken from them, and the way back.

use crate::cases::{Case, try_all};
use crate::sources::SourceFile;
use cell_run::Status;
use std::test::Fail;

/// A crate that yields and calls a name, a default of the name, forms of both, and the name for good.
static GROUP: [SourceFile; 6] = [
    SourceFile {
        name: "k#m.o",
        source: ".text\n.globl m::go\nm::go: li a7,3\necall\ncall x::f\nli a7,0\necall",
    },
    SourceFile {
        name: "k#d.o",
        source: ".text\n.weak x::f\nx::f: li a0,1\nret\n.globl d::go\nd::go: ret\n.rodata\n.quad x::f",
    },
    SourceFile {
        name: "n#m-2.o",
        source: ".text\n.globl m::go\nm::go: li a7,3\necall\ncall x::f\nli a7,0\necall",
    },
    SourceFile {
        name: "n#d-2.o",
        source: ".text\n.weak x::f\nx::f: li a0,2\nret\n.globl d::go\nd::go: ret\n.rodata\n.quad x::f",
    },
    SourceFile {
        name: "k#x.o",
        source: ".text\n.globl x::f\nx::f: li a0,3\nret",
    },
    SourceFile {
        name: "n#x-2.o",
        source: ".text\n.weak x::f\nx::f: li a0,4\nret",
    },
];

static OF_GROUP: [Case; 2] = [
    // A default that was put aside goes on for those beside it, until the name comes for good; then it comes back.
    Case {
        script: "load k d\nload k m\nspawn k m::go 0\nspawn k m::go 0\nspawn k m::go 0\n\
            swap k/m=n#m-2.o k/d=n#d-2.o\ndeps 1\ndeps 2\ndeps 3\nstep 1 9\nload k x\nusers 5\nstep 2 9\n\
            find k x::f\nswap k/x=n#x-2.o\ndeps 1\ndeps 2\ndeps 3\nfind k x::f\nstep 3 9\npurge\n",
        status: Status::Done,
        text: "1 ok load #1 patched 1\n2 ok load #2 patched 1\n3 ok spawn t1 pc 10002000\n\
            4 ok spawn t2 pc 10002000\n5 ok spawn t3 pc 10002000\n\
            6 ok swap 1 new #3 #4 patched 2 removed - kept #1 #2\n7 ok deps #1\n  #1.2+0 64 -> #1.1\n\
            8 ok deps #2\n  #2.1+8 CALL_PLT -> #1.1\n9 ok deps #3\n  #3.1+8 CALL_PLT -> #4.1\n\
            10 ok step t1 turns 8 done 1\n11 ok load #5 patched 4\n12 ok users #5\n  #1.2+0 64 -> #5.1\n  \
            #2.1+8 CALL_PLT -> #5.1\n  #3.1+8 CALL_PLT -> #5.1\n  #4.2+0 64 -> #5.1\n13 ok step t2 turns 8 done 3\n\
            14 ok find #5.1+0 10003000\n15 ok swap 2 new #6 patched 4 removed #5 kept #1 #2\n16 ok deps #1\n  \
            #1.2+0 64 -> #1.1\n17 ok deps #2\n  #2.1+8 CALL_PLT -> #1.1\n18 ok deps #3\n  #3.1+8 CALL_PLT -> #4.1\n\
            19 ok find #4.1+0 10010000\n20 ok step t3 turns 8 done 1\n21 ok purge removed #1 #2\n",
    },
    // What has the name for good stays with those that were put aside beside it, before any default.
    Case {
        script: "load k x\nload k m\nload k d\nspawn k m::go 0\nspawn k d::go 0\n\
            swap k/m=n#m-2.o k/x=n#x-2.o k/d=n#d-2.o\ndeps 2\ndeps 3\ndeps 4\nfind k x::f\nrun 9\nrun 9\n\
            spawn k m::go 0\nrun 9\nrun 9\npurge\n",
        status: Status::Done,
        text: "1 ok load #1 patched 0\n2 ok load #2 patched 1\n3 ok load #3 patched 1\n4 ok spawn t1 pc 10001000\n\
            5 ok spawn t2 pc 10002008\n6 ok swap 1 new #4 #5 #6 patched 2 removed - kept #1 #2 #3\n7 ok deps #2\n  \
            #2.1+8 CALL_PLT -> #1.1\n8 ok deps #3\n  #3.2+0 64 -> #1.1\n9 ok deps #4\n  #4.1+8 CALL_PLT -> #5.1\n\
            10 ok find #5.1+0 1000d000\n11 ok run\n  t1 turns 2 ready\n  t2 turns 1 done 0\n12 ok run\n  \
            t1 turns 6 done 3\n13 ok spawn t3 pc 1000c000\n14 ok run\n  t3 turns 2 ready\n15 ok run\n  \
            t3 turns 6 done 4\n16 ok purge removed #1 #2 #3\n",
    },
];

/// A crate that calls a name with a hash, a default of that name, and forms of the crate that has it: under another hash, and
/// under another with a default of the old name.
static HASHES: [SourceFile; 5] = [
    SourceFile {
        name: "k#app.o",
        source: ".text\n.globl app::go\napp::go: call log::put::h01\nret",
    },
    SourceFile {
        name: "k#log-01.o",
        source: ".text\n.globl log::put::h01\nlog::put::h01: ret",
    },
    SourceFile {
        name: "k#def.o",
        source: ".text\n.globl def::go\n.weak log::put::h01\ndef::go: call log::put::h01\nret\nlog::put::h01: ret",
    },
    SourceFile {
        name: "n#log-02.o",
        source: ".text\n.globl log::put::h02\nlog::put::h02: ret",
    },
    SourceFile {
        name: "n#log-03.o",
        source: ".text\n.globl log::put::h02\nlog::put::h02: nop\n.weak log::put::h01\nlog::put::h01: ret",
    },
];

static OF_HASHES: [Case; 2] = [
    // A name that was taken over goes before a default. It isn't taken over by a crate that has a default of it.
    Case {
        script: "load k app\nload k def\ndeps 3\nswap k/log=n#log-02.o reexport\ndeps 1\ndeps 3\n\
            swap k/log=n#log-03.o reexport\nfind k log::put::h01\nfind k log::put::h02\ndeps 1\ndeps 3\n\
            swap k/log=n#log-02.o reexport\nfind k log::put::h01\nswap k/log=k#log-01.o\nfind k log::put::h01\n\
            deps 1\n",
        status: Status::Done,
        text: "1 ok load #1 #2 patched 1\n2 ok load #3 patched 1\n3 ok deps #3\n  #3.1+0 CALL_PLT -> #2.1\n\
            4 ok swap 1 new #4 patched 2 removed #2 kept -\n5 ok deps #1\n  #1.1+0 CALL_PLT -> #4.1\n\
            6 ok deps #3\n  #3.1+0 CALL_PLT -> #4.1\n7 ok swap 2 new #5 patched 2 removed #4 kept -\n\
            8 ok find #3.1+c 1000200c\n9 ok find #5.1+0 10001000\n10 ok deps #1\n  #1.1+0 CALL_PLT -> #3.1\n\
            11 ok deps #3\n  #3.1+0 CALL_PLT -> #3.1\n12 ok swap 3 new #6 patched 0 removed #5 kept -\n\
            13 ok find #3.1+c 1000200c\n14 ok swap 4 new #7 patched 2 removed #6 kept -\n\
            15 ok find #7.1+0 10001000\n16 ok deps #1\n  #1.1+0 CALL_PLT -> #7.1\n",
    },
    // Without another default its own serves.
    Case {
        script: "load k app\nswap k/log=n#log-03.o reexport\nfind k log::put::h01\ndeps 1\nswap k/log=n#log-02.o\n\
            unload k/app\nswap k/log=n#log-02.o\n",
        status: Status::SomeRefused,
        text: "1 ok load #1 #2 patched 1\n2 ok swap 1 new #3 patched 1 removed #2 kept -\n\
            3 ok find #3.1+4 10002004\n4 ok deps #1\n  #1.1+0 CALL_PLT -> #3.1\n5 E9 missing log::put::h01 #1\n\
            6 ok unload removed #1\n7 ok swap 2 new #4 patched 0 removed #3 kept -\n",
    },
];

/// A name for good, a crate with a default of it, one that needs it, one that can do without, and two forms of the first: with a
/// default, and without the name.
static GIVEN_UP: [SourceFile; 7] = [
    SourceFile {
        name: "k#x.o",
        source: ".rodata\n.globl x::v\nx::v: .quad 3",
    },
    SourceFile {
        name: "k#d.o",
        source: ".rodata\n.weak x::v\nx::v: .quad 1\n.quad x::v",
    },
    SourceFile {
        name: "k#u.o",
        source: ".rodata\n.quad x::v",
    },
    SourceFile {
        name: "k#o.o",
        source: ".rodata\n.weak x::v\n.quad x::v",
    },
    SourceFile {
        name: "n#x-2.o",
        source: ".rodata\n.weak x::v\nx::v: .quad 4\n.quad x::v",
    },
    SourceFile {
        name: "n#x-3.o",
        source: ".rodata\n.quad 5",
    },
    SourceFile {
        name: "n#e.o",
        source: ".rodata\n.quad 6",
    },
];

static OF_GIVEN_UP: [Case; 1] = [
    // Those that the default serves lead to it, of two to the lower; who has its own leads to that.
    Case {
        script: "load k u\nload k o\nswap k/x=n#x-2.o\ndeps 1\ndeps 3\ndeps 4\nload k d\ndeps 1\nswap k/x=k#x.o\n\
            users 6\nswap k/x=n#x-3.o\ndeps 1\ndeps 3\ndeps 5\ndump 5 1\nunload k/d\nswap k/d=n#e.o\nunload k/u\n\
            swap k/d=n#e.o\ndeps 3\ndump 3 1\n",
        status: Status::SomeRefused,
        text: "1 ok load #1 #2 patched 1\n2 ok load #3 patched 1\n3 ok swap 1 new #4 patched 3 removed #2 kept -\n\
            4 ok deps #1\n  #1.1+0 64 -> #4.1\n5 ok deps #3\n  #3.1+0 64 -> #4.1\n6 ok deps #4\n  \
            #4.1+8 64 -> #4.1\n7 ok load #5 patched 1\n8 ok deps #1\n  #1.1+0 64 -> #4.1\n\
            9 ok swap 2 new #6 patched 4 removed #4 kept -\n10 ok users #6\n  #1.1+0 64 -> #6.1\n  \
            #3.1+0 64 -> #6.1\n  #5.1+8 64 -> #6.1\n11 ok swap 3 new #7 patched 3 removed #6 kept -\n\
            12 ok deps #1\n  #1.1+0 64 -> #5.1\n13 ok deps #3\n  #3.1+0 64 -> #5.1\n14 ok deps #5\n  \
            #5.1+8 64 -> #5.1\n15 ok dump #5.1\n  10001000 01 00 00 00 00 00 00 00 00 10 00 10 00 00 00 00\n\
            16 E15 held #5 #1\n17 E9 missing x::v #1\n18 ok unload removed #1\n\
            19 ok swap 4 new #8 patched 1 removed #5 kept -\n20 ok deps #3\n21 ok dump #3.1\n  \
            10002000 00 00 00 00 00 00 00 00\n",
    },
];

/// Two names, a crate that can do without them and without a third, one with defaults of the second and the third, one that needs
/// the first, and a form of the first crate with the first and the third and with routines, of which one stores something and fails.
static BACK: [SourceFile; 5] = [
    SourceFile {
        name: "k#x.o",
        source: ".data\n.globl x::a\n.globl x::b\nx::a: .quad 1\nx::b: .quad 2",
    },
    SourceFile {
        name: "k#o.o",
        source: ".data\n.globl o::n\no::n: .quad 9\n.rodata\n.weak x::a\n.weak x::b\n.weak x::c\n\
            .quad x::a, x::b, x::c",
    },
    SourceFile {
        name: "k#d.o",
        source: ".rodata\n.weak x::b\n.weak x::c\nx::b: .quad 3\nx::c: .quad 4\n.quad x::b, x::c",
    },
    SourceFile {
        name: "k#u.o",
        source: ".rodata\n.quad x::a",
    },
    SourceFile {
        name: "n#x-2.o",
        source: ".data\n.globl x::a\n.globl x::c\nx::c: .quad 5\nx::a: .quad 6\n.text\n.globl x::mv\n\
            x::mv: la t0,o::n\nsd t0,0(t0)\nli a0,7\nret\n.globl x::ok\nx::ok: li a0,0\nret",
    },
];

static OF_BACK: [Case; 2] = [
    // A swap that fails late leaves all as it was: what was bound, what was let go and what was led elsewhere.
    Case {
        script: "load k o\nload k x\nload k u\ndumpall\nswap k/x=n#x-2.o transfer x::mv\ndumpall\n\
            swap k/x=n#x-2.o transfer x::ok\ndumpall\n",
        status: Status::SomeRefused,
        text: "1 ok load #1 patched 3\n2 ok load #2 patched 2\n3 ok load #3 patched 1\n4 ok dumpall\n  \
            space 10000000 1024\n  ns 0 k -\n  cell 1 0 o k#o.o attached\n  place 1 1 10001000\n  \
            place 1 2 10000000\n  cell 2 0 x k#x.o attached\n  place 2 1 10002000\n  cell 3 0 u k#u.o attached\n  \
            place 3 1 10003000\n  link 1.2 0 2.1\n  link 1.2 1 2.1\n  link 3.1 0 2.1\n  name 0 o::n 1.1+0\n  \
            name 0 x::a 2.1+0\n  name 0 x::b 2.1+8\n  bytes 1.1 10001000 0900000000000000\n  \
            bytes 1.2 10000000 002000100000000008200010000000000000000000000000\n  \
            bytes 2.1 10002000 01000000000000000200000000000000\n  bytes 3.1 10003000 0020001000000000\n  end\n\
            5 E14 transfer x::mv returned 7\n6 ok dumpall\n  space 10000000 1024\n  ns 0 k -\n  \
            cell 1 0 o k#o.o attached\n  place 1 1 10001000\n  place 1 2 10000000\n  cell 2 0 x k#x.o attached\n  \
            place 2 1 10002000\n  cell 3 0 u k#u.o attached\n  place 3 1 10003000\n  link 1.2 0 2.1\n  \
            link 1.2 1 2.1\n  link 3.1 0 2.1\n  name 0 o::n 1.1+0\n  name 0 x::a 2.1+0\n  name 0 x::b 2.1+8\n  \
            bytes 1.1 10001000 0900000000000000\n  \
            bytes 1.2 10000000 002000100000000008200010000000000000000000000000\n  \
            bytes 2.1 10002000 01000000000000000200000000000000\n  bytes 3.1 10003000 0020001000000000\n  end\n\
            7 ok swap 1 new #4 patched 6 removed #2 kept -\n8 ok dumpall\n  space 10000000 1024\n  ns 0 k -\n  \
            cell 1 0 o k#o.o attached\n  place 1 1 10001000\n  place 1 2 10000000\n  cell 3 0 u k#u.o attached\n  \
            place 3 1 10003000\n  cell 4 0 x n#x-2.o attached\n  place 4 1 10005000\n  place 4 2 10004000\n  \
            link 1.2 0 4.1\n  link 1.2 2 4.1\n  link 3.1 0 4.1\n  link 4.2 0 1.1\n  link 4.2 1 1.1\n  \
            name 0 o::n 1.1+0\n  name 0 x::a 4.1+8\n  name 0 x::c 4.1+0\n  name 0 x::mv 4.2+0\n  \
            name 0 x::ok 4.2+14\n  bytes 1.1 10001000 0900000000000000\n  \
            bytes 1.2 10000000 085000100000000000000000000000000050001000000000\n  \
            bytes 3.1 10003000 0850001000000000\n  bytes 4.1 10005000 05000000000000000600000000000000\n  \
            bytes 4.2 10004000 97d2ffff9382020023b0520013057000678000001305000067800000\n  end\n",
    },
    // So it is where defaults take over.
    Case {
        script: "load k o\nload k x\nload k u\nload k d\ndeps 1\ndeps 4\nswap k/x=n#x-2.o transfer x::mv\ndeps 1\n\
            deps 3\ndeps 4\nusers 2\ndump 1 1\ndump 1 2\ndump 4 1\nswap k/x=n#x-2.o transfer x::ok\ndeps 1\n\
            deps 4\ndump 1 2\ndump 4 1\n",
        status: Status::SomeRefused,
        text: "1 ok load #1 patched 3\n2 ok load #2 patched 2\n3 ok load #3 patched 1\n4 ok load #4 patched 3\n\
            5 ok deps #1\n  #1.2+0 64 -> #2.1\n  #1.2+8 64 -> #2.1\n  #1.2+10 64 -> #4.1\n6 ok deps #4\n  \
            #4.1+10 64 -> #2.1\n  #4.1+18 64 -> #4.1\n7 E14 transfer x::mv returned 7\n8 ok deps #1\n  \
            #1.2+0 64 -> #2.1\n  #1.2+8 64 -> #2.1\n  #1.2+10 64 -> #4.1\n9 ok deps #3\n  #3.1+0 64 -> #2.1\n\
            10 ok deps #4\n  #4.1+10 64 -> #2.1\n  #4.1+18 64 -> #4.1\n11 ok users #2\n  #1.2+0 64 -> #2.1\n  \
            #1.2+8 64 -> #2.1\n  #3.1+0 64 -> #2.1\n  #4.1+10 64 -> #2.1\n12 ok dump #1.1\n  \
            10001000 09 00 00 00 00 00 00 00\n13 ok dump #1.2\n  \
            10000000 00 20 00 10 00 00 00 00 08 20 00 10 00 00 00 00\n  10000010 08 40 00 10 00 00 00 00\n\
            14 ok dump #4.1\n  10004000 03 00 00 00 00 00 00 00 04 00 00 00 00 00 00 00\n  \
            10004010 08 20 00 10 00 00 00 00 08 40 00 10 00 00 00 00\n\
            15 ok swap 1 new #5 patched 8 removed #2 kept -\n16 ok deps #1\n  #1.2+0 64 -> #5.1\n  \
            #1.2+8 64 -> #4.1\n  #1.2+10 64 -> #5.1\n17 ok deps #4\n  #4.1+10 64 -> #4.1\n  #4.1+18 64 -> #5.1\n\
            18 ok dump #1.2\n  10000000 08 60 00 10 00 00 00 00 00 40 00 10 00 00 00 00\n  \
            10000010 00 60 00 10 00 00 00 00\n19 ok dump #4.1\n  \
            10004000 03 00 00 00 00 00 00 00 04 00 00 00 00 00 00 00\n  \
            10004010 00 40 00 10 00 00 00 00 00 60 00 10 00 00 00 00\n",
    },
];

/// A task in a crate that has a name, and its form without the name but with another one; a crate that can do without both.
static HELD_BACK: [SourceFile; 3] = [
    SourceFile {
        name: "k#x.o",
        source: ".text\n.globl x::f\nx::f: li a7,3\necall\nret",
    },
    SourceFile {
        name: "n#x-2.o",
        source: ".text\n.globl x::g\nx::g: nop\nret",
    },
    SourceFile {
        name: "k#o.o",
        source: ".rodata\n.weak x::f\n.weak x::g\n.quad x::g, x::f",
    },
];

static OF_HELD_BACK: [Case; 1] = [
    // A strict swap is refused once all was bound anew.
    Case {
        script: "load k o\nload k x\nspawn k x::f 0\nstep 1 1\ndumpall\nswap k/x=n#x-2.o strict\ndumpall\n\
            step 1 9\nswap k/x=n#x-2.o strict\ndeps 1\n",
        status: Status::SomeRefused,
        text: "1 ok load #1 patched 2\n2 ok load #2 patched 1\n3 ok spawn t1 pc 10001000\n\
            4 ok step t1 turns 1 ready\n5 ok dumpall\n  space 10000000 1024\n  ns 0 k -\n  \
            cell 1 0 o k#o.o attached\n  place 1 1 10000000\n  cell 2 0 x k#x.o attached\n  place 2 1 10001000\n  \
            link 1.1 1 2.1\n  name 0 x::f 2.1+0\n  bytes 1.1 10000000 00000000000000000010001000000000\n  \
            bytes 2.1 10001000 930830007300000067800000\n  end\n6 E15 held #2 t1\n7 ok dumpall\n  \
            space 10000000 1024\n  ns 0 k -\n  cell 1 0 o k#o.o attached\n  place 1 1 10000000\n  \
            cell 2 0 x k#x.o attached\n  place 2 1 10001000\n  link 1.1 1 2.1\n  name 0 x::f 2.1+0\n  \
            bytes 1.1 10000000 00000000000000000010001000000000\n  bytes 2.1 10001000 930830007300000067800000\n  \
            end\n8 ok step t1 turns 2 done 0\n9 ok swap 1 new #3 patched 2 removed #2 kept -\n10 ok deps #1\n  \
            #1.1+0 64 -> #3.1\n",
    },
];

/// A crate, and forms of it whose routine has a weak name, or asks for one.
static ROUTINES: [SourceFile; 3] = [
    SourceFile {
        name: "k#c.o",
        source: ".text\n.globl c::f\nc::f: ret",
    },
    SourceFile {
        name: "n#c-2.o",
        source: ".text\n.globl c::f\nc::f: ret\n.weak c::mv\nc::mv: ret",
    },
    SourceFile {
        name: "n#c-3.o",
        source: ".text\n.globl c::f\nc::f: ret\n.weak c::g\nc::g: ret\n.globl c::mv\nc::mv: la a0,c::name\n\
            li a1,4\nli a7,5\necall\nret\n.rodata\nc::name: .byte 99,58,58,103",
    },
];

static OF_ROUTINES: [Case; 1] = [
    // A routine has a name for good, and no other name is answered.
    Case {
        script: "load k c\nswap k/c=n#c-2.o transfer c::mv\nswap k/c=n#c-3.o transfer c::mv\nfind k c::g\n",
        status: Status::SomeRefused,
        text: "1 ok load #1 patched 0\n2 E10 no-entry c::mv\n3 ok swap 1 new #2 patched 2 removed #1 kept -\n\
            4 ok find #2.1+4 10001004\n",
    },
];

#[test]
fn weak_swaps(rt: HostRuntime) -> Result<(), Fail> {
    try_all(&rt, rt.alloc(), &["d", "s"], &GROUP, &OF_GROUP)?;
    try_all(&rt, rt.alloc(), &["d", "s"], &HASHES, &OF_HASHES)?;
    try_all(&rt, rt.alloc(), &["d", "s"], &GIVEN_UP, &OF_GIVEN_UP)?;
    try_all(&rt, rt.alloc(), &["d", "s"], &BACK, &OF_BACK)?;
    try_all(&rt, rt.alloc(), &["d", "s"], &HELD_BACK, &OF_HELD_BACK)?;
    try_all(&rt, rt.alloc(), &["d", "s"], &ROUTINES, &OF_ROUTINES)?;
    Ok(())
}
