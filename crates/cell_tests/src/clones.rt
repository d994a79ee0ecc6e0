//! Clones of namespaces: what they have, and what happens in one of two siblings.

use crate::cases::{Case, try_all};
use crate::sources::SourceFile;
use cell_run::Status;
use std::test::Fail;

/// Ends with 1, and another form that ends with 2.
static ENDERS: [SourceFile; 2] = [
    SourceFile {
        name: "u#a.o",
        source: ".text\n.globl a::go\na::go: li a0,1\nli a7,0\necall",
    },
    SourceFile {
        name: "n#a-2.o",
        source: ".text\n.globl a::go\na::go: li a0,2\nli a7,0\necall",
    },
];

static OF_ENDERS: [Case; 6] = [
    // A swap in the one leaves the other.
    Case {
        script: "ns u under k\nload u a\nclone u as v\nswap u/a=n#a-2.o\nspawn v a::go 0\nstep 1 9\n\
            spawn u a::go 0\nstep 2 9\n",
        status: Status::Done,
        text: "1 ok ns u\n2 ok load #1 patched 0\n3 ok clone v #2 patched 0\n\
            4 ok swap 1 new #3 patched 0 removed #1 kept -\n5 ok spawn t1 pc 10001000\n\
            6 ok step t1 turns 3 done 1\n7 ok spawn t2 pc 10002000\n8 ok step t2 turns 3 done 2\n",
    },
    // `k` has no sibling, a name isn't taken twice, a namespace that isn't there has none either, and one without
    // a cell has a sibling without one.
    Case {
        script: "clone k as z\nns u under k\nclone u as u\nclone u as k\nclone x as y\nclone u as w\nclone w as x\n\
            load w a\n",
        status: Status::SomeRefused,
        text: "1 E18 no-parent k\n2 ok ns u\n3 E2 taken u\n4 E2 taken k\n5 E1 unknown x\n6 ok clone w - patched 0\n\
            7 ok clone x - patched 0\n8 E5 no-object a\n",
    },
    // A sibling of a sibling, and what the names are afterwards.
    Case {
        script: "ns u under k\nload u a\nclone u as v\nclone v as w\nswap v/a=n#a-2.o\nclone v as x\nmap\n\
            unload w/a\nclone w as y\nfind x a::go\nfind y a::go\n",
        status: Status::Done,
        text: "1 ok ns u\n2 ok load #1 patched 0\n3 ok clone v #2 patched 0\n4 ok clone w #3 patched 0\n\
            5 ok swap 1 new #4 patched 0 removed #2 kept -\n6 ok clone x #5 patched 0\n7 ok map\n  \
            #1 u/a attached u#a.o\n    1 rx 10000000 12\n  #3 w/a attached u#a.o\n    1 rx 10002000 12\n  \
            #4 v/a attached n#a-2.o\n    1 rx 10003000 12\n  #5 x/a attached n#a-2.o\n    1 rx 10001000 12\n\
            8 ok unload removed #3\n9 ok clone y - patched 0\n10 ok find #5.1+0 10001000\n11 ok find -\n",
    },
    // What a swap brought is copied from the file that it brought, and so is it renewed.
    Case {
        script: "ns u under k\nload u a\nswap u/a=n#a-2.o\nclone u as v\nspawn v a::go 0\nstep 1 9\n\
            swap v/a=u#a.o\nclone v as w\nmap\n",
        status: Status::Done,
        text: "1 ok ns u\n2 ok load #1 patched 0\n3 ok swap 1 new #2 patched 0 removed #1 kept -\n\
            4 ok clone v #3 patched 0\n5 ok spawn t1 pc 10000000\n6 ok step t1 turns 3 done 2\n\
            7 ok swap 2 new #4 patched 0 removed #3 kept -\n8 ok clone w #5 patched 0\n9 ok map\n  \
            #2 u/a attached n#a-2.o\n    1 rx 10001000 12\n  #4 v/a attached u#a.o\n    1 rx 10002000 12\n  \
            #5 w/a attached u#a.o\n    1 rx 10000000 12\n",
    },
    // The new namespace stands beside its original, so it has no part in what stands below that. Cells below
    // aren't copied.
    Case {
        script: "ns u under k\nns low under u\nload u a\nswap u/a=n#a-2.o\nclone u as v\nclone low as side\n\
            find side a::go\nfind low a::go\ndumpall\n",
        status: Status::Done,
        text: "1 ok ns u\n2 ok ns low\n3 ok load #1 patched 0\n4 ok swap 1 new #2 patched 0 removed #1 kept -\n\
            5 ok clone v #3 patched 0\n6 ok clone side - patched 0\n7 ok find #2.1+0 10001000\n\
            8 ok find #2.1+0 10001000\n9 ok dumpall\n  space 10000000 1024\n  ns 0 k -\n  ns 1 u 0\n  \
            ns 2 low 1\n  ns 3 v 0\n  ns 4 side 1\n  cell 2 1 a n#a-2.o attached\n  place 2 1 10001000\n  \
            cell 3 3 a n#a-2.o attached\n  place 3 1 10000000\n  name 1 a::go 2.1+0\n  name 3 a::go 3.1+0\n  \
            bytes 2.1 10001000 130520009308000073000000\n  bytes 3.1 10000000 130520009308000073000000\n  end\n",
    },
    // Only what is attached is copied: what a task keeps stays where it is.
    Case {
        script: "ns u under k\nload u a\nspawn u a::go 0\nswap u/a=n#a-2.o\nclone u as v\nmap\nstep 1 9\npurge\n\
            spawn v a::go 0\nstep 2 9\n",
        status: Status::Done,
        text: "1 ok ns u\n2 ok load #1 patched 0\n3 ok spawn t1 pc 10000000\n\
            4 ok swap 1 new #2 patched 0 removed - kept #1\n5 ok clone v #3 patched 0\n6 ok map\n  \
            #1 u/a detached 1 u#a.o\n    1 rx 10000000 12\n  #2 u/a attached n#a-2.o\n    1 rx 10005000 12\n  \
            #3 v/a attached n#a-2.o\n    1 rx 10006000 12\n7 ok step t1 turns 3 done 1\n8 ok purge removed #1\n\
            9 ok spawn t2 pc 10006000\n10 ok step t2 turns 3 done 2\n",
    },
];

/// Two crates that lead to each other, and both up to `k`; and another form of the second.
static CYCLE: [SourceFile; 4] = [
    SourceFile {
        name: "k#base.o",
        source: ".text\n.globl base::one\nbase::one: li a0,1\nret",
    },
    SourceFile {
        name: "u#p.o",
        source: ".text\n.globl p::go\np::go: call q::two\nli a7,2\necall\nli a7,3\necall\nbeq zero,zero,p::go\n\
            .globl p::half\np::half: ret",
    },
    SourceFile {
        name: "u#q.o",
        source: ".text\n.globl q::two\nq::two: mv s0,ra\ncall base::one\naddi a0,a0,1\nmv ra,s0\nret\n.data\n\
            .quad p::half",
    },
    SourceFile {
        name: "n#q-2.o",
        source: ".text\n.globl q::two\nq::two: li a0,7\nret",
    },
];

static OF_CYCLE: [Case; 3] = [
    // The copies lead to each other, and to what their originals find further up.
    Case {
        script: "ns u under k\nload u p\nclone u as v\ndeps 4\ndeps 5\nusers 3\nfind v q::two\nfind v base::one\n\
            clone v as w\ndeps 6\n",
        status: Status::Done,
        text: "1 ok ns u\n2 ok load #1 #2 #3 patched 4\n3 ok clone v #4 #5 patched 4\n4 ok deps #4\n  \
            #4.1+0 CALL_PLT -> #5.1\n  #4.1+18 BRANCH -> #4.1\n5 ok deps #5\n  #5.1+4 CALL_PLT -> #3.1\n  \
            #5.2+0 64 -> #4.1\n6 ok users #3\n  #2.1+4 CALL_PLT -> #3.1\n  #5.1+4 CALL_PLT -> #3.1\n\
            7 ok find #5.1+0 10005000\n8 ok find #3.1+0 10003000\n9 ok clone w #6 #7 patched 4\n10 ok deps #6\n  \
            #6.1+0 CALL_PLT -> #7.1\n  #6.1+18 BRANCH -> #6.1\n",
    },
    // Tasks in both siblings go on while a crate of the one is swapped: the other's puts out what it did.
    Case {
        script: "ns u under k\nload u p\nclone u as v\nspawn u p::go 0\nspawn v p::go 0\nrun 50\nstep 1 3\n\
            step 2 3\nswap u/q=n#q-2.o\nrun 50\nrun 50\nswap v/q=n#q-2.o\nrun 50\nrun 50\npurge\n",
        status: Status::Done,
        text: "1 ok ns u\n2 ok load #1 #2 #3 patched 4\n3 ok clone v #4 #5 patched 4\n4 ok spawn t1 pc 10000000\n\
            5 ok spawn t2 pc 10004000\n6 ok run\n  t1 turns 14 ready\n  out t1 2\n  t2 turns 14 ready\n  out t2 2\n\
            7 ok step t1 turns 3 ready\n8 ok step t2 turns 3 ready\n\
            9 ok swap 1 new #6 patched 1 removed - kept #2\n10 ok run\n  t1 turns 12 ready\n  out t1 2\n  \
            t2 turns 12 ready\n  out t2 2\n11 ok run\n  t1 turns 9 ready\n  out t1 7\n  t2 turns 15 ready\n  \
            out t2 2\n12 ok swap 2 new #7 patched 1 removed #2 #5 kept -\n13 ok run\n  t1 turns 9 ready\n  \
            out t1 7\n  t2 turns 9 ready\n  out t2 7\n14 ok run\n  t1 turns 9 ready\n  out t1 7\n  \
            t2 turns 9 ready\n  out t2 7\n15 ok purge removed -\n",
    },
    // And the other way round.
    Case {
        script: "ns u under k\nload u p\nclone u as v\nspawn u p::go 0\nspawn v p::go 0\nrun 50\nswap v/q=n#q-2.o\n\
            run 50\nrun 50\nunload u/p u/q\nkill 1\nunload u/p u/q\nrun 50\n",
        status: Status::SomeRefused,
        text: "1 ok ns u\n2 ok load #1 #2 #3 patched 4\n3 ok clone v #4 #5 patched 4\n4 ok spawn t1 pc 10000000\n\
            5 ok spawn t2 pc 10004000\n6 ok run\n  t1 turns 14 ready\n  out t1 2\n  t2 turns 14 ready\n  out t2 2\n\
            7 ok swap 1 new #6 patched 1 removed #5 kept -\n8 ok run\n  t1 turns 15 ready\n  out t1 2\n  \
            t2 turns 9 ready\n  out t2 7\n9 ok run\n  t1 turns 15 ready\n  out t1 2\n  t2 turns 9 ready\n  \
            out t2 7\n10 E15 held #1 t1\n11 ok kill t1\n12 ok unload removed #1 #2\n13 ok run\n  \
            t2 turns 9 ready\n  out t2 7\n",
    },
];

/// A crate under an old name, which a swap hands on.
static OLD_NAMES: [SourceFile; 3] = [
    SourceFile {
        name: "u#q.o",
        source: ".text\n.globl q::f::h1\nq::f::h1: li a0,1\nret",
    },
    SourceFile {
        name: "n#q-2.o",
        source: ".text\n.globl q::f::h2\nq::f::h2: li a0,2\nret",
    },
    SourceFile {
        name: "u#use.o",
        source: ".text\n.globl use::go\nuse::go: call q::f::h1\nli a7,0\necall",
    },
];

static OF_OLD_NAMES: [Case; 2] = [
    // The old name is copied too: who needs it there finds it.
    Case {
        script: "ns u under k\nload u q\nload u use\nswap u/q=n#q-2.o reexport\nclone u as v\nfind v q::f::h1\n\
            spawn v use::go 0\nstep 1 9\ndumpall\n",
        status: Status::Done,
        text: "1 ok ns u\n2 ok load #1 patched 0\n3 ok load #2 patched 1\n\
            4 ok swap 1 new #3 patched 1 removed #1 kept -\n5 ok clone v #4 #5 patched 1\n\
            6 ok find #5.1+0 10003000\n7 ok spawn t1 pc 10000000\n8 ok step t1 turns 6 done 2\n9 ok dumpall\n  \
            space 10000000 1024\n  ns 0 k -\n  ns 1 u 0\n  ns 2 v 0\n  cell 2 1 use u#use.o attached\n  \
            place 2 1 10001000\n  cell 3 1 q n#q-2.o attached\n  place 3 1 10002000\n  alias 3 0 q::f::h1\n  \
            cell 4 2 use u#use.o attached\n  place 4 1 10000000\n  cell 5 2 q n#q-2.o attached\n  \
            place 5 1 10003000\n  alias 5 0 q::f::h1\n  link 2.1 0 3.1\n  link 4.1 0 5.1\n  \
            name 1 use::go 2.1+0\n  name 1 q::f::h2 3.1+0\n  name 1 q::f::h1 3.1+0\n  name 2 use::go 4.1+0\n  \
            name 2 q::f::h2 5.1+0\n  name 2 q::f::h1 5.1+0\n  \
            bytes 2.1 10001000 97100000e78000009308000073000000\n  bytes 3.1 10002000 1305200067800000\n  \
            bytes 4.1 10000000 97300000e78000009308000073000000\n  bytes 5.1 10003000 1305200067800000\n  end\n",
    },
    // And a copy of the copy has it.
    Case {
        script: "ns u under k\nload u q\nswap u/q=n#q-2.o reexport\nclone u as v\nclone v as w\nfind w q::f::h1\n\
            find w q::f::h2\n",
        status: Status::Done,
        text: "1 ok ns u\n2 ok load #1 patched 0\n3 ok swap 1 new #2 patched 0 removed #1 kept -\n\
            4 ok clone v #3 patched 0\n5 ok clone w #4 patched 0\n6 ok find #4.1+0 10002000\n\
            7 ok find #4.1+0 10002000\n",
    },
];

/// A weak name, and the crate that defines it, in a namespace and in the one above.
static LATE_NAMES: [SourceFile; 2] = [
    SourceFile {
        name: "u#w.o",
        source: ".text\n.globl w::go\nw::go: ret\n.data\n.weak late::v\n.quad late::v",
    },
    SourceFile {
        name: "u#late.o",
        source: ".data\n.globl late::v\nlate::v: .quad 9",
    },
];

static OF_LATE_NAMES: [Case; 1] = [
    // Each copy leads to its own definition; who was there leads where it did.
    Case {
        script: "ns u under k\nload u w\nclone u as v\nload u late\nclone u as x\ndeps 1\ndeps 2\nusers 3\ndeps 4\n",
        status: Status::Done,
        text: "1 ok ns u\n2 ok load #1 patched 1\n3 ok clone v #2 patched 1\n4 ok load #3 patched 1\n\
            5 ok clone x #4 #5 patched 1\n6 ok deps #1\n  #1.2+0 64 -> #3.1\n7 ok deps #2\n8 ok users #3\n  \
            #1.2+0 64 -> #3.1\n9 ok deps #4\n  #4.2+0 64 -> #5.1\n",
    },
];

/// A crate of five pages.
static LARGE: [SourceFile; 1] = [SourceFile {
    name: "u#big.o",
    source: ".bss\n.globl big::b\nbig::b: .zero 20480",
}];

static OF_LARGE: [Case; 1] = [
    // Where there is no room for a copy, no namespace comes either: its name is free.
    Case {
        script: "ns u under k\nload u big\nclone u as v\nclone u as w\nclone u as x\nspawn x big::b 0\n\
            ns x under k\nfind x big::b\nunload v/big\nclone u as x\nclone u as y\nmap\n",
        status: Status::SomeRefused,
        text: "1 ok ns u\n2 ok load #1 patched 0\n3 ok clone v #2 patched 0\n4 ok clone w #3 patched 0\n\
            5 E11 exhausted 5 1\n6 E1 unknown x\n7 ok ns x\n8 ok find -\n9 ok unload removed #2\n10 E2 taken x\n\
            11 ok clone y #4 patched 0\n12 ok map\n  #1 u/big attached u#big.o\n    1 rw 10000000 20480\n  \
            #3 w/big attached u#big.o\n    1 rw 1000a000 20480\n  #4 y/big attached u#big.o\n    \
            1 rw 10005000 20480\n",
    },
];

/// Ends with its argument the first time, and is trapped where its data says that it has run before.
static ONCE: [SourceFile; 1] = [SourceFile {
    name: "u#f.o",
    source: ".text\n.globl f::go\nf::go: la t0,f::v\nld t1,0(t0)\nbeq t1,zero,f::bad\nsd zero,0(t0)\nli a7,0\n\
        ecall\nf::bad: ebreak\n.data\nf::v: .quad 1",
}];

static OF_ONCE: [Case; 1] = [
    // A copy's data is its own, and begins anew. It is recovered where it stands, from the file of its original.
    Case {
        script: "ns u under k\nload u f\nclone u as v\nspawn v f::go 5\nstep 1 20\nspawn v f::go 6\nstep 2 20\n\
            spawn u f::go 7\nstep 3 20\nrecover 2\nmap\nstep 2 20\nclone v as w\nspawn w f::go 8\nstep 4 20\n",
        status: Status::Done,
        text: "1 ok ns u\n2 ok load #1 patched 3\n3 ok clone v #2 patched 3\n4 ok spawn t1 pc 10002000\n\
            5 ok step t1 turns 7 done 5\n6 ok spawn t2 pc 10002000\n\
            7 ok step t2 turns 5 fault break at 1000201c\n8 ok spawn t3 pc 10000000\n\
            9 ok step t3 turns 7 done 7\n10 ok recover t2 swap 1 new #3 patched 3 removed #2 kept -\n\
            11 ok map\n  #1 u/f attached u#f.o\n    1 rx 10000000 32\n    2 rw 10001000 8\n  \
            #3 v/f attached u#f.o\n    1 rx 10008000 32\n    2 rw 10009000 8\n12 ok step t2 turns 7 done 6\n\
            13 ok clone w #4 patched 3\n14 ok spawn t4 pc 10002000\n15 ok step t4 turns 7 done 8\n",
    },
];

#[test]
fn clones(rt: HostRuntime) -> Result<(), Fail> {
    try_all(&rt, rt.alloc(), &["d", "s"], &ENDERS, &OF_ENDERS)?;
    try_all(&rt, rt.alloc(), &["d", "s"], &CYCLE, &OF_CYCLE)?;
    try_all(&rt, rt.alloc(), &["d", "s"], &OLD_NAMES, &OF_OLD_NAMES)?;
    try_all(&rt, rt.alloc(), &["d", "s"], &LATE_NAMES, &OF_LATE_NAMES)?;
    try_all(&rt, rt.alloc(), &["d", "s"], &ONCE, &OF_ONCE)?;
    try_all(
        &rt,
        rt.alloc(),
        &["d", "s", "--pages", "16"],
        &LARGE,
        &OF_LARGE,
    )?;
    Ok(())
}
