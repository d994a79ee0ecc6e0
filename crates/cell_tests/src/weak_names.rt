//! Names that are held weakly: who has them for whom.

use crate::cases::{Case, try_all};
use crate::sources::SourceFile;
use cell_run::Status;
use std::test::Fail;

/// A word that is 0 until the crate comes that has its name, that crate, and a form of it without the name.
static LATE: [SourceFile; 3] = [
    SourceFile {
        name: "k#u.o",
        source: ".rodata\n.weak v::w\n.quad v::w",
    },
    SourceFile {
        name: "k#v.o",
        source: ".data\n.globl v::w\nv::w: .quad 5",
    },
    SourceFile {
        name: "n#v-2.o",
        source: ".data\n.zero 8",
    },
];

static OF_LATE: [Case; 2] = [
    // The word is bound and let go again. It holds the crate, and brings none.
    Case {
        script: "load k u\ndump 1 1\nload k v\ndump 1 1\nunload k/v\nswap k/v=n#v-2.o\ndump 1 1\n",
        status: Status::SomeRefused,
        text: "1 ok load #1 patched 1\n2 ok dump #1.1\n  10000000 00 00 00 00 00 00 00 00\n3 ok load #2 patched 1\n\
            4 ok dump #1.1\n  10000000 00 10 00 10 00 00 00 00\n5 E15 held #2 #1\n\
            6 ok swap 1 new #3 patched 1 removed #2 kept -\n7 ok dump #1.1\n  10000000 00 00 00 00 00 00 00 00\n",
    },
    // So it is with links both ways.
    Case {
        script: "load k u\ndeps 1\nload k v\ndeps 1\nusers 2\nunload k/u\nunload k/v\nload k v\nload k u\n\
            dump 4 1\nswap k/v=n#v-2.o\ndeps 4\ndump 4 1\nswap k/v=k#v.o\ndump 4 1\n",
        status: Status::Done,
        text: "1 ok load #1 patched 1\n2 ok deps #1\n3 ok load #2 patched 1\n4 ok deps #1\n  #1.1+0 64 -> #2.1\n\
            5 ok users #2\n  #1.1+0 64 -> #2.1\n6 ok unload removed #1\n7 ok unload removed #2\n\
            8 ok load #3 patched 0\n9 ok load #4 patched 1\n10 ok dump #4.1\n  10001000 00 00 00 10 00 00 00 00\n\
            11 ok swap 1 new #5 patched 1 removed #3 kept -\n12 ok deps #4\n13 ok dump #4.1\n  \
            10001000 00 00 00 00 00 00 00 00\n14 ok swap 2 new #6 patched 1 removed #5 kept -\n15 ok dump #4.1\n  \
            10001000 00 00 00 10 00 00 00 00\n",
    },
];

/// Two crates with a default each of one name and a word that leads to it, one that has the name for good, two that lead
/// to it, of which one can do without, and one that has it for good too.
static DEFAULTS: [SourceFile; 6] = [
    SourceFile {
        name: "k#d.o",
        source: ".rodata\n.weak x::v\nx::v: .quad 1\n.quad x::v",
    },
    SourceFile {
        name: "k#e.o",
        source: ".rodata\n.zero 8\n.weak x::v\nx::v: .quad 2\n.quad x::v",
    },
    SourceFile {
        name: "k#x.o",
        source: ".rodata\n.globl x::v\nx::v: .quad 3",
    },
    SourceFile {
        name: "k#u.o",
        source: ".rodata\n.quad x::v",
    },
    SourceFile {
        name: "k#o.o",
        source: ".rodata\n.weak x::v\n.quad x::v+1",
    },
    SourceFile {
        name: "k#z.o",
        source: ".rodata\n.globl x::v\nx::v: .quad 4",
    },
];

static OF_DEFAULTS: [Case; 3] = [
    // First the defaults. Each leads to itself, and who has none to the lowest; no crate is brought. Then all lead
    // to the one.
    Case {
        script: "load k d\nload k e\nload k u\nload k o\nfind k x::v\ndump 1 1\ndump 2 1\ndump 3 1\ndump 4 1\n\
            load k x\nfind k x::v\ndump 1 1\ndump 2 1\ndump 3 1\ndump 4 1\nusers 5\nload k z\nunload k/x\n",
        status: Status::SomeRefused,
        text: "1 ok load #1 patched 1\n2 ok load #2 patched 1\n3 ok load #3 patched 1\n4 ok load #4 patched 1\n\
            5 ok find #1.1+0 10000000\n6 ok dump #1.1\n  10000000 01 00 00 00 00 00 00 00 00 00 00 10 00 00 00 00\n\
            7 ok dump #2.1\n  10001000 00 00 00 00 00 00 00 00 02 00 00 00 00 00 00 00\n  \
            10001010 08 10 00 10 00 00 00 00\n8 ok dump #3.1\n  10002000 00 00 00 10 00 00 00 00\n\
            9 ok dump #4.1\n  10003000 01 00 00 10 00 00 00 00\n10 ok load #5 patched 4\n\
            11 ok find #5.1+0 10004000\n12 ok dump #1.1\n  \
            10000000 01 00 00 00 00 00 00 00 00 40 00 10 00 00 00 00\n13 ok dump #2.1\n  \
            10001000 00 00 00 00 00 00 00 00 02 00 00 00 00 00 00 00\n  10001010 00 40 00 10 00 00 00 00\n\
            14 ok dump #3.1\n  10002000 00 40 00 10 00 00 00 00\n15 ok dump #4.1\n  \
            10003000 01 40 00 10 00 00 00 00\n16 ok users #5\n  #1.1+8 64 -> #5.1\n  #2.1+10 64 -> #5.1\n  \
            #3.1+0 64 -> #5.1\n  #4.1+0 64 -> #5.1\n17 E8 duplicate x::v #5\n18 E15 held #5 #1\n",
    },
    // The other way round.
    Case {
        script: "load k u\nload k d\nload k o\nload k e\nmap\ndump 3 1\ndump 4 1\ndump 5 1\nusers 2\nunload k/u\n\
            unload k/x\n",
        status: Status::SomeRefused,
        text: "1 ok load #1 #2 patched 1\n2 ok load #3 patched 1\n3 ok load #4 patched 1\n4 ok load #5 patched 1\n\
            5 ok map\n  #1 k/u attached k#u.o\n    1 ro 10000000 8\n  #2 k/x attached k#x.o\n    \
            1 ro 10001000 8\n  #3 k/d attached k#d.o\n    1 ro 10002000 16\n  #4 k/o attached k#o.o\n    \
            1 ro 10003000 8\n  #5 k/e attached k#e.o\n    1 ro 10004000 24\n6 ok dump #3.1\n  \
            10002000 01 00 00 00 00 00 00 00 00 10 00 10 00 00 00 00\n7 ok dump #4.1\n  \
            10003000 01 10 00 10 00 00 00 00\n8 ok dump #5.1\n  \
            10004000 00 00 00 00 00 00 00 00 02 00 00 00 00 00 00 00\n  10004010 00 10 00 10 00 00 00 00\n\
            9 ok users #2\n  #1.1+0 64 -> #2.1\n  #3.1+8 64 -> #2.1\n  #4.1+0 64 -> #2.1\n  #5.1+10 64 -> #2.1\n\
            10 ok unload removed #1\n11 E15 held #2 #3\n",
    },
    // What goes by itself leaves the others as they are.
    Case {
        script: "load k o\nload k d\nload k e\nunload k/d\nunload k/o k/d\ndump 3 1\nload k o\ndump 4 1\n",
        status: Status::SomeRefused,
        text: "1 ok load #1 patched 1\n2 ok load #2 patched 2\n3 ok load #3 patched 1\n4 E15 held #2 #1\n\
            5 ok unload removed #1 #2\n6 ok dump #3.1\n  \
            10002000 00 00 00 00 00 00 00 00 02 00 00 00 00 00 00 00\n  10002010 08 20 00 10 00 00 00 00\n\
            7 ok load #4 patched 1\n8 ok dump #4.1\n  10000000 09 20 00 10 00 00 00 00\n",
    },
];

/// A default of one name in each of three namespaces, and a word that leads to it in each; a sibling that has a word alone;
/// and the name for good in the middle one.
static FAR_AND_NEAR: [SourceFile; 10] = [
    SourceFile {
        name: "k#d.o",
        source: ".rodata\n.weak x::v\nx::v: .quad 1\n.quad x::v",
    },
    SourceFile {
        name: "u#e.o",
        source: ".rodata\n.weak x::v\nx::v: .quad 1\n.quad x::v",
    },
    SourceFile {
        name: "w#f.o",
        source: ".rodata\n.weak x::v\nx::v: .quad 1\n.quad x::v",
    },
    SourceFile {
        name: "k#a.o",
        source: ".rodata\n.quad x::v",
    },
    SourceFile {
        name: "u#b.o",
        source: ".rodata\n.quad x::v",
    },
    SourceFile {
        name: "w#c.o",
        source: ".rodata\n.quad x::v",
    },
    SourceFile {
        name: "v#s.o",
        source: ".rodata\n.weak x::v\n.quad x::v",
    },
    SourceFile {
        name: "u#x.o",
        source: ".rodata\n.globl x::v\nx::v: .quad 3",
    },
    SourceFile {
        name: "k#z.o",
        source: ".rodata\n.globl x::v\nx::v: .quad 4",
    },
    SourceFile {
        name: "v#z.o",
        source: ".rodata\n.globl x::v\nx::v: .quad 5",
    },
];

static OF_FAR_AND_NEAR: [Case; 1] = [
    // The nearest one decides, and not the lowest number. Who stands above or beside sees nothing of it.
    Case {
        script: "ns u under k\nns w under u\nns v under k\nload k d\nload k a\nload u b\nload w c\nload v s\n\
            dump 4 1\nload u e\ndump 3 1\ndump 4 1\ndump 5 1\nload w f\ndump 3 1\ndump 4 1\nfind k x::v\n\
            find u x::v\nfind w x::v\nfind v x::v\nload u x\ndump 1 1\ndump 2 1\ndump 3 1\ndump 4 1\ndump 5 1\n\
            dump 6 1\ndump 7 1\nfind k x::v\nfind w x::v\nload k z\nload v z\ndump 5 1\ndump 1 1\n",
        status: Status::SomeRefused,
        text: "1 ok ns u\n2 ok ns w\n3 ok ns v\n4 ok load #1 patched 1\n5 ok load #2 patched 1\n\
            6 ok load #3 patched 1\n7 ok load #4 patched 1\n8 ok load #5 patched 1\n9 ok dump #4.1\n  \
            10003000 00 00 00 10 00 00 00 00\n10 ok load #6 patched 3\n11 ok dump #3.1\n  \
            10002000 00 50 00 10 00 00 00 00\n12 ok dump #4.1\n  10003000 00 50 00 10 00 00 00 00\n\
            13 ok dump #5.1\n  10004000 00 00 00 10 00 00 00 00\n14 ok load #7 patched 2\n15 ok dump #3.1\n  \
            10002000 00 50 00 10 00 00 00 00\n16 ok dump #4.1\n  10003000 00 60 00 10 00 00 00 00\n\
            17 ok find #1.1+0 10000000\n18 ok find #6.1+0 10005000\n19 ok find #7.1+0 10006000\n\
            20 ok find #1.1+0 10000000\n21 ok load #8 patched 4\n22 ok dump #1.1\n  \
            10000000 01 00 00 00 00 00 00 00 00 00 00 10 00 00 00 00\n23 ok dump #2.1\n  \
            10001000 00 00 00 10 00 00 00 00\n24 ok dump #3.1\n  10002000 00 70 00 10 00 00 00 00\n\
            25 ok dump #4.1\n  10003000 00 70 00 10 00 00 00 00\n26 ok dump #5.1\n  \
            10004000 00 00 00 10 00 00 00 00\n27 ok dump #6.1\n  \
            10005000 01 00 00 00 00 00 00 00 00 70 00 10 00 00 00 00\n28 ok dump #7.1\n  \
            10006000 01 00 00 00 00 00 00 00 00 70 00 10 00 00 00 00\n29 ok find #1.1+0 10000000\n\
            30 ok find #8.1+0 10007000\n31 E8 duplicate x::v #8\n32 ok load #9 patched 1\n33 ok dump #5.1\n  \
            10004000 00 80 00 10 00 00 00 00\n34 ok dump #1.1\n  \
            10000000 01 00 00 00 00 00 00 00 00 00 00 10 00 00 00 00\n",
    },
];

/// A crate that needs a name, a default of the name, a crate of the name's own, one that has a label of that binding, one that
/// reckons with the name, one with the label's name for good, and one that has a slot for the name.
static OTHERS: [SourceFile; 7] = [
    SourceFile {
        name: "k#u.o",
        source: ".text\n.globl u::go\nu::go: call x::f\nli a7,0\necall",
    },
    SourceFile {
        name: "k#d.o",
        source: ".text\n.weak x::f\nx::f: li a0,5\nret",
    },
    SourceFile {
        name: "k#x.o",
        source: ".text\n.globl x::f\nx::f: li a0,6\nret",
    },
    SourceFile {
        name: "k#l.o",
        source: ".text\n.weak l::at\nnop\nl::at: auipc a0,%pcrel_hi(x::f)\naddi a0,a0,%pcrel_lo(l::at)\nret",
    },
    SourceFile {
        name: "k#r.o",
        source: ".rodata\n.weak x::f\n.word x::f-r::at\n.half r::at-x::f\nr::at: .byte 1",
    },
    SourceFile {
        name: "k#s.o",
        source: ".text\n.globl l::at\nl::at: ret",
    },
    SourceFile {
        name: "k#g.o",
        source: ".text\n.weak x::f\n.globl g::go\ng::go: auipc a0,%got_pcrel_hi(x::f)\nld a0,%pcrel_lo(g::go)(a0)\n\
            li a7,0\necall",
    },
];

static OF_OTHERS: [Case; 4] = [
    // A default serves a need, so nothing is brought; a task may begin in it.
    Case {
        script: "load k d\nload k u\nfind k x::f\nspawn k x::f 0\nspawn k u::go 0\nstep 1 9\nstep 2 9\nload k x\n\
            spawn k x::f 0\nspawn k u::go 0\nrun 9\n",
        status: Status::Done,
        text: "1 ok load #1 patched 0\n2 ok load #2 patched 1\n3 ok find #1.1+0 10000000\n\
            4 ok spawn t1 pc 10000000\n5 ok spawn t2 pc 10001000\n6 ok step t1 turns 2 done 5\n\
            7 ok step t2 turns 6 done 5\n8 ok load #3 patched 1\n9 ok spawn t3 pc 10002000\n\
            10 ok spawn t4 pc 10001000\n11 ok run\n  t3 turns 2 done 6\n  t4 turns 6 done 6\n",
    },
    // What stands at a label goes with the label, whatever its name leads to elsewhere.
    Case {
        script: "load k x\nload k l\ndump 2 1\nload k s\nfind k l::at\ndump 2 1\n",
        status: Status::Done,
        text: "1 ok load #1 patched 0\n2 ok load #2 patched 2\n3 ok dump #2.1\n  \
            10001000 13 00 00 00 17 f5 ff ff 13 05 c5 ff 67 80 00 00\n4 ok load #3 patched 0\n\
            5 ok find #3.1+0 10002000\n6 ok dump #2.1\n  10001000 13 00 00 00 17 f5 ff ff 13 05 c5 ff 67 80 00 00\n",
    },
    // Two entries at one field are one field.
    Case {
        script: "load k r\ndump 1 1\nload k x\ndump 1 1\n",
        status: Status::Done,
        text: "1 ok load #1 patched 2\n2 ok dump #1.1\n  10000000 fa ff ff ef 06 00 01\n3 ok load #2 patched 2\n\
            4 ok dump #1.1\n  10000000 fa 0f 00 00 06 f0 01\n",
    },
    // A slot is bound as any other word is. A task may stand between the two instructions that load from it.
    Case {
        script: "load k g\ndeps 1\nspawn k g::go 1\nspawn k g::go 1\nrun 9\nspawn k g::go 1\nstep 3 1\nload k d\n\
            deps 1\nstep 3 9\nspawn k g::go 1\nload k x\nstep 4 9\nusers 3\n",
        status: Status::Done,
        text: "1 ok load #1 patched 3\n2 ok deps #1\n  #1.1+0 PCREL_HI20 -> #1.2\n  #1.1+4 PCREL_LO12_I -> #1.2\n\
            3 ok spawn t1 pc 10000000\n4 ok spawn t2 pc 10000000\n5 ok run\n  t1 turns 4 done 0\n  \
            t2 turns 4 done 0\n6 ok spawn t3 pc 10000000\n7 ok step t3 turns 1 ready\n8 ok load #2 patched 1\n\
            9 ok deps #1\n  #1.1+0 PCREL_HI20 -> #1.2\n  #1.1+4 PCREL_LO12_I -> #1.2\n  #1.2+0 64 -> #2.1\n\
            10 ok step t3 turns 3 done 268460032\n11 ok spawn t4 pc 10000000\n12 ok load #3 patched 1\n\
            13 ok step t4 turns 4 done 268464128\n14 ok users #3\n  #1.2+0 64 -> #3.1\n",
    },
];

#[test]
fn weak_names(rt: HostRuntime) -> Result<(), Fail> {
    try_all(&rt, rt.alloc(), &["d", "s"], &LATE, &OF_LATE)?;
    try_all(&rt, rt.alloc(), &["d", "s"], &DEFAULTS, &OF_DEFAULTS)?;
    try_all(
        &rt,
        rt.alloc(),
        &["d", "s"],
        &FAR_AND_NEAR,
        &OF_FAR_AND_NEAR,
    )?;
    try_all(&rt, rt.alloc(), &["d", "s"], &OTHERS, &OF_OTHERS)?;
    Ok(())
}
