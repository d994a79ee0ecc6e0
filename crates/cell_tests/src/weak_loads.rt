//! Loads that change what other cells lead to, and those that can't.

use crate::cases::{Case, try_all};
use crate::sources::SourceFile;
use cell_run::Status;
use std::test::Fail;

/// A crate that calls its own default, and one that has the name for good.
static GOES_ON: [SourceFile; 2] = [
    SourceFile {
        name: "k#d.o",
        source: ".text\n.weak d::f\n.globl d::go\nd::go: call d::f\nret\nd::f: ret",
    },
    SourceFile {
        name: "k#e.o",
        source: ".text\n.globl d::f\nd::f: ret",
    },
];

static OF_GOES_ON: [Case; 1] = [
    // A task stands between the two instructions of the call.
    Case {
        script: "load k d\nspawn k d::go 0\nstep 1 1\nload k e\nstep 1 1\nload k e\nfind k d::f\n",
        status: Status::SomeRefused,
        text: "1 ok load #1 patched 1\n2 ok spawn t1 pc 10000000\n3 ok step t1 turns 1 ready\n\
            4 E13 torn t1 #1.1+0\n5 ok step t1 turns 1 ready\n6 ok load #2 patched 1\n7 ok find #2.1+0 10005000\n",
    },
];

/// A crate that takes the address of a name that nobody has, one that has it and needs another, and that one.
static ADDRESS: [SourceFile; 4] = [
    SourceFile {
        name: "k#o.o",
        source: ".text\n.weak x::v\n.globl o::go\no::go: la t0,x::v\nlui t1,%hi(x::v)\naddi t1,t1,%lo(x::v)\nret",
    },
    SourceFile {
        name: "k#x.o",
        source: ".data\n.globl x::v\nx::v: .quad y::v",
    },
    SourceFile {
        name: "k#y.o",
        source: ".data\n.globl y::v\ny::v: .quad 1",
    },
    SourceFile {
        name: "n#o-2.o",
        source: ".text\n.globl o::go\no::go: ret",
    },
];

static OF_ADDRESS: [Case; 2] = [
    // The lowest task is named, with the field that it stands in; nothing has come, and no number is used up.
    Case {
        script: "load k o\nspawn k o::go 0\nspawn k o::go 0\nstep 1 3\nstep 2 1\nload k x\nstep 1 1\nload k x\n\
            step 2 1\nmap\nload k x\ndump 1 1\nstep 2 9\ntasks\n",
        status: Status::SomeRefused,
        text: "1 ok load #1 patched 4\n2 ok spawn t1 pc 10000000\n3 ok spawn t2 pc 10000000\n\
            4 ok step t1 turns 3 ready\n5 ok step t2 turns 1 ready\n6 E13 torn t1 #1.1+8\n\
            7 ok step t1 turns 1 ready\n8 E13 torn t2 #1.1+0\n9 ok step t2 turns 1 ready\n10 ok map\n  \
            #1 k/o attached k#o.o\n    1 rx 10000000 20\n11 ok load #2 #3 patched 5\n12 ok dump #1.1\n  \
            10000000 97 92 00 00 93 82 02 00 37 93 00 10 13 03 03 00\n  10000010 67 80 00 00\n\
            13 ok step t2 turns 3 done 0\n14 ok tasks\n  t1 ready pc 10000010 root #1\n",
    },
    // So it is in a cell that was put aside.
    Case {
        script: "load k o\nspawn k o::go 0\nstep 1 1\nswap k/o=n#o-2.o\nload k x\nkill 1\nload k x\nmap\n",
        status: Status::SomeRefused,
        text: "1 ok load #1 patched 4\n2 ok spawn t1 pc 10000000\n3 ok step t1 turns 1 ready\n\
            4 ok swap 1 new #2 patched 0 removed - kept #1\n5 E13 torn t1 #1.1+0\n6 ok kill t1\n\
            7 ok load #3 #4 patched 5\n8 ok map\n  #1 k/o detached 1 k#o.o\n    1 rx 10000000 20\n  \
            #2 k/o attached n#o-2.o\n    1 rx 10005000 4\n  #3 k/x attached k#x.o\n    1 rw 10001000 8\n  \
            #4 k/y attached k#y.o\n    1 rw 10002000 8\n",
    },
];

/// Crates in a memory of which two pages are in reach of `lui`: one that takes the address of a name that nobody has, one that
/// fills a page, one that has the name, and one that has it and takes it too.
static REACH: [SourceFile; 4] = [
    SourceFile {
        name: "k#o.o",
        source: ".text\n.weak x::v\n.globl o::go\no::go: lui a0,%hi(x::v)\naddi a0,a0,%lo(x::v)\nret",
    },
    SourceFile {
        name: "k#g.o",
        source: ".data\n.quad 1",
    },
    SourceFile {
        name: "k#x.o",
        source: ".data\n.globl x::v\nx::v: .quad 2",
    },
    SourceFile {
        name: "k#y.o",
        source: ".data\n.globl x::v\nx::v: .quad 3\n.text\nlui a0,%hi(x::v)\nret",
    },
];

static OF_REACH: [Case; 2] = [
    // What has come doesn't fit elsewhere; its own entries are looked at first.
    Case {
        script: "load k o\nload k g\ndump 1 1\nload k x\nload k y\ndump 1 1\nmap\nunload k/g\nload k x\ndump 1 1\n",
        status: Status::SomeRefused,
        text: "1 ok load #1 patched 2\n2 ok load #2 patched 0\n3 ok dump #1.1\n  \
            7fffe000 37 05 00 00 13 05 05 00 67 80 00 00\n4 E12 overflow #1.1+0 HI20\n5 E12 overflow #3.2+0 HI20\n\
            6 ok dump #1.1\n  7fffe000 37 05 00 00 13 05 05 00 67 80 00 00\n7 ok map\n  #1 k/o attached k#o.o\n    \
            1 rx 7fffe000 12\n  #2 k/g attached k#g.o\n    1 rw 7ffff000 8\n8 ok unload removed #2\n\
            9 ok load #3 patched 2\n10 ok dump #1.1\n  7fffe000 37 f5 ff 7f 13 05 05 00 67 80 00 00\n",
    },
    // It is looked at before tasks are.
    Case {
        script: "load k o\nload k g\nspawn k o::go 0\nstep 1 1\nload k x\nunload k/g\nload k x\nstep 1 1\n\
            load k x\nstep 1 9\n",
        status: Status::SomeRefused,
        text: "1 ok load #1 patched 2\n2 ok load #2 patched 0\n3 ok spawn t1 pc 7fffe000\n\
            4 ok step t1 turns 1 ready\n5 E12 overflow #1.1+0 HI20\n6 ok unload removed #2\n7 E13 torn t1 #1.1+0\n\
            8 ok step t1 turns 1 ready\n9 ok load #3 patched 2\n10 ok step t1 turns 1 done 0\n",
    },
];

/// A crate above what `auipc` reaches that takes the address of a name that nobody has.
static BELOW: [SourceFile; 2] = [
    SourceFile {
        name: "k#o.o",
        source: ".text\n.weak x::v\nla a0,x::v\nret",
    },
    SourceFile {
        name: "k#x.o",
        source: ".data\n.globl x::v\nx::v: .quad 2",
    },
];

static OF_BELOW: [Case; 1] = [
    // A name that nobody has is the number 0, and that is out of reach.
    Case {
        script: "load k o\nload k x\nload k o\ndump 2 1\n",
        status: Status::SomeRefused,
        text: "1 E12 overflow #1.1+0 PCREL_HI20\n2 ok load #1 patched 0\n3 ok load #2 patched 2\n4 ok dump #2.1\n  \
            80002000 17 f5 ff ff 13 05 05 00 67 80 00 00\n",
    },
];

#[test]
fn weak_loads(rt: HostRuntime) -> Result<(), Fail> {
    try_all(&rt, rt.alloc(), &["d", "s"], &GOES_ON, &OF_GOES_ON)?;
    try_all(&rt, rt.alloc(), &["d", "s"], &ADDRESS, &OF_ADDRESS)?;
    try_all(
        &rt,
        rt.alloc(),
        &["d", "s", "--base", "0x7fffe000", "--pages", "16"],
        &REACH,
        &OF_REACH,
    )?;
    try_all(
        &rt,
        rt.alloc(),
        &["d", "s", "--base", "0x80001000", "--pages", "16"],
        &BELOW,
        &OF_BELOW,
    )?;
    Ok(())
}
