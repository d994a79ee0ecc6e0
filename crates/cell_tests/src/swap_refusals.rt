//! Swaps that are refused, and the same swaps once the cause is gone.

use crate::cases::{Case, try_all, try_script};
use crate::folder::ObjectFile;
use crate::sources::{SourceFile, object_files};
use crate::swap_keeping::{CALLER, GIVES_ONE, NINE};
use cell_run::Status;
use std::alloc::Global;
use std::test::Fail;

/// A crate and another form of it.
static NOTHING: [SourceFile; 2] = [
    SourceFile {
        name: "k#a.o",
        source: ".rodata\n.globl a::x\na::x: .byte 1",
    },
    SourceFile {
        name: "n#a-2.o",
        source: ".rodata\n.globl a::x\na::x: .byte 2",
    },
];

static OF_NOTHING: [Case; 1] = [
    // The items are looked up one whole after the other.
    Case {
        script: "swap k/a=n#a-2.o\nload k a\nswap q/a=n#a-2.o\nswap k/a=n#a-3.o\n\
            swap k/a=n#a-3.o q/b=n#a-2.o\nswap k/a=n#a-2.o q/b=n#a-3.o\nswap k/a=n#a=2.o\nswap k/a=s\n\
            swap k/a=n/a\nswap k/a=n#a-2.o\n",
        status: Status::SomeRefused,
        text: "1 E1 unknown k/a\n2 ok load #1 patched 0\n3 E1 unknown q/a\n4 E1 unknown n#a-3.o\n\
            5 E1 unknown n#a-3.o\n6 E1 unknown q/b\n7 E1 unknown n#a=2.o\n8 E1 unknown s\n9 E1 unknown n/a\n\
            10 ok swap 1 new #2 patched 0 removed #1 kept -\n",
    },
];

/// Crates of one function each, and other forms of them with other stems and names.
static TAKEN: [SourceFile; 9] = [
    SourceFile {
        name: "k#a.o",
        source: ".text\n.globl a::f\na::f: ret",
    },
    SourceFile {
        name: "k#b.o",
        source: ".text\n.globl b::f\nb::f: ret",
    },
    SourceFile {
        name: "u#d.o",
        source: ".text\n.globl d::f\nd::f: ret",
    },
    SourceFile {
        name: "n#a-2.o",
        source: ".text\n.globl a::f\na::f: nop\nret",
    },
    SourceFile {
        name: "n#a-3.o",
        source: ".text\n.globl a::f\na::f: ret\n.globl d::f\nd::f: ret",
    },
    SourceFile {
        name: "n#b-2.o",
        source: ".text\n.globl b::f\nb::f: nop\nret",
    },
    SourceFile {
        name: "n#c.o",
        source: ".text\n.globl c::f\nc::f: ret\n.globl b::f\nb::f: ret",
    },
    SourceFile {
        name: "n#c-2.o",
        source: ".text\n.globl c::g\nc::g: ret",
    },
    SourceFile {
        name: "n#d-2.o",
        source: ".text\n.globl d::g\nd::g: ret",
    },
];

static OF_TAKEN: [Case; 2] = [
    // By another cell, or by an earlier new one. Two cells may exchange their names.
    Case {
        script: "load k a\nload k b\nswap k/a=n#b-2.o\nswap k/a=n#c.o\nswap k/a=n#c-2.o k/b=n#c.o\n\
            swap k/a=n#c.o k/b=n#b-2.o\nswap k/a=n#b-2.o k/b=n#a-2.o\nmap\n",
        status: Status::SomeRefused,
        text: "1 ok load #1 patched 0\n2 ok load #2 patched 0\n3 E8 duplicate b #2\n4 E8 duplicate b::f #2\n\
            5 E8 duplicate c #3\n6 E8 duplicate b::f #3\n\
            7 ok swap 1 new #3 #4 patched 0 removed #1 #2 kept -\n8 ok map\n  #3 k/b attached n#b-2.o\n    \
            1 rx 10002000 8\n  #4 k/a attached n#a-2.o\n    1 rx 10003000 8\n",
    },
    // By a cell of a namespace below.
    Case {
        script: "load k a\nns u under k\nload u d\nswap k/a=n#a-3.o\nswap k/a=n#d-2.o\nunload u/d\n\
            swap k/a=n#a-3.o\nload u d\nswap k/a=n#d-2.o\nload u d\n",
        status: Status::SomeRefused,
        text: "1 ok load #1 patched 0\n2 ok ns u\n3 ok load #2 patched 0\n4 E8 duplicate d::f #2\n\
            5 E8 duplicate d #2\n6 ok unload removed #2\n7 ok swap 1 new #3 patched 0 removed #1 kept -\n\
            8 E8 duplicate d::f #3\n9 ok swap 2 new #4 patched 0 removed #3 kept -\n10 E8 duplicate d #4\n",
    },
];

/// A crate that another one needs, forms of it that need more or define less, and a crate that meets these
/// needs.
static NEEDS: [SourceFile; 11] = [
    SourceFile {
        name: "k#u.o",
        source: ".rodata\n.quad a::x",
    },
    SourceFile {
        name: "k#a.o",
        source: ".rodata\n.globl a::x\na::x: .quad 1",
    },
    SourceFile {
        name: "n#a-2.o",
        source: ".rodata\n.globl a::x\na::x: .quad y::v",
    },
    SourceFile {
        name: "n#a-3.o",
        source: ".rodata\n.globl a::x\na::x: .quad gone::v",
    },
    SourceFile {
        name: "n#a-4.o",
        source: ".rodata\n.globl a::x\na::x: .quad a::y",
    },
    SourceFile {
        name: "n#a-5.o",
        source: ".rodata\n.globl a::x\na::x: .quad bare",
    },
    SourceFile {
        name: "n#a-6.o",
        source: ".rodata\n.globl a::other\na::other: .quad 1",
    },
    SourceFile {
        name: "n#a-7.o",
        source: ".rodata\n.globl a::other\na::other: .quad gone::v",
    },
    SourceFile {
        name: "k#y-1.o",
        source: ".rodata\n.globl y::v\ny::v: .quad 1",
    },
    SourceFile {
        name: "k#y-2.o",
        source: ".rodata\n.globl y::v\ny::v: .quad 1",
    },
    SourceFile {
        name: "k#h.o",
        source: ".rodata\n.globl y::v\n.globl gone::v\n.globl a::y\n.globl bare\ny::v: .quad 2\n\
            gone::v: .quad 3\na::y: .quad 4\nbare: .quad 5",
    },
];

static OF_NEEDS: [Case; 1] = [
    // Those of the new cell come before those of others.
    Case {
        script: "load k u\nswap k/a=n#a-2.o\nswap k/a=n#a-3.o\nswap k/a=n#a-4.o\nswap k/a=n#a-5.o\n\
            swap k/a=n#a-7.o\nswap k/a=n#a-6.o\nload k h\nswap k/a=n#a-2.o\nswap k/a=n#a-3.o\n\
            swap k/a=n#a-4.o\nswap k/a=n#a-5.o\nswap k/a=n#a-7.o\nunload k/u\nswap k/a=n#a-7.o\n",
        status: Status::SomeRefused,
        text: "1 ok load #1 #2 patched 1\n2 E6 ambiguous k#y-1.o k#y-2.o\n3 E9 missing gone::v #3\n\
            4 E9 missing a::y #3\n5 E9 missing bare #3\n6 E9 missing gone::v #3\n7 E9 missing a::x #1\n\
            8 ok load #3 patched 0\n9 ok swap 1 new #4 patched 2 removed #2 kept -\n\
            10 ok swap 2 new #5 patched 2 removed #4 kept -\n11 ok swap 3 new #6 patched 2 removed #5 kept -\n\
            12 ok swap 4 new #7 patched 2 removed #6 kept -\n13 E9 missing a::x #1\n14 ok unload removed #1\n\
            15 ok swap 5 new #8 patched 1 removed #7 kept -\n",
    },
];

/// A crate that yields and then calls another one, a form of it that doesn't, and one of the other without
/// the name.
static ASIDE: [SourceFile; 4] = [
    SourceFile {
        name: "k#m.o",
        source: CALLER,
    },
    SourceFile {
        name: "k#o.o",
        source: GIVES_ONE,
    },
    SourceFile {
        name: "n#m-2.o",
        source: NINE,
    },
    SourceFile {
        name: "n#o-3.o",
        source: ".text\n.globl o::g\no::g: ret",
    },
];

static OF_ASIDE: [Case; 1] = [
    // They count until the cell is removed.
    Case {
        script: "load k m\nspawn k m::go 0\nswap k/m=n#m-2.o\nswap k/o=n#o-3.o\nstep 1 100\nswap k/o=n#o-3.o\n\
            purge\nswap k/o=n#o-3.o\n",
        status: Status::SomeRefused,
        text: "1 ok load #1 #2 patched 1\n2 ok spawn t1 pc 10000000\n\
            3 ok swap 1 new #3 patched 0 removed - kept #1\n4 E9 missing o::f #1\n\
            5 ok step t1 turns 8 done 1\n6 E9 missing o::f #1\n7 ok purge removed #1\n\
            8 ok swap 2 new #4 patched 0 removed #2 kept -\n",
    },
];

/// A crate, and a form of it of twelve pages.
static LARGE: [SourceFile; 3] = [
    SourceFile {
        name: "k#c.o",
        source: ".text\n.globl c::f\nc::f: ret",
    },
    SourceFile {
        name: "n#c-4.o",
        source: ".bss\n.globl c::f\nc::f: .zero 49152",
    },
    SourceFile {
        name: "n#c-5.o",
        source: ".text\n.globl c::f\nc::f: ret\n.bss\n.zero 28672",
    },
];

static OF_LARGE: [Case; 2] = [
    // Of the new cell.
    Case {
        script: "load k c\nspawn k c::f 0\nswap k/c=n#c-4.o\nkill 1\nswap k/c=n#c-4.o\n",
        status: Status::SomeRefused,
        text: "1 ok load #1 patched 0\n2 ok spawn t1 pc 10000000\n3 E11 exhausted 12 11\n4 ok kill t1\n\
            5 ok swap 1 new #2 patched 0 removed #1 kept -\n",
    },
    // Of the routine's stack, once the new cell has its eight.
    Case {
        script: "load k c\nspawn k c::f 0\nswap k/c=n#c-5.o transfer c::f\nkill 1\nswap k/c=n#c-5.o transfer c::f\n",
        status: Status::SomeRefused,
        text: "1 ok load #1 patched 0\n2 ok spawn t1 pc 10000000\n3 E11 exhausted 4 3\n4 ok kill t1\n\
            5 ok swap 1 new #2 patched 0 removed #1 kept -\n",
    },
];

/// Crates in a memory of which two pages are in reach of `lui`, and forms of them.
static FAR: [SourceFile; 7] = [
    SourceFile {
        name: "k#g.o",
        source: ".text\n.globl g::f\ng::f: ret",
    },
    SourceFile {
        name: "k#h.o",
        source: ".text\n.globl h::f\nh::f: ret",
    },
    SourceFile {
        name: "n#h-2.o",
        source: ".text\n.globl h::f\nh::f: lui a0,%hi(h::x)\n.zero 2048\nh::x: ret",
    },
    SourceFile {
        name: "k#p.o",
        source: ".data\n.globl p::x\np::x: .quad 0",
    },
    SourceFile {
        name: "n#p-2.o",
        source: ".data\n.globl p::x\np::x: .quad 1",
    },
    SourceFile {
        name: "n#p-3.o",
        source: ".data\n.globl p::x\np::x: .quad 2\n.text\nlui a0,%hi(p::x)\nret",
    },
    SourceFile {
        name: "k#u.o",
        source: ".text\n.globl u::f\nu::f: lui a0,%hi(p::x)\nret",
    },
];

static OF_FAR: [Case; 3] = [
    // In the new cell.
    Case {
        script: "load k g\nload k h\nswap k/h=n#h-2.o\nunload k/g\nswap k/h=n#h-2.o\nfind k h::f\n",
        status: Status::SomeRefused,
        text: "1 ok load #1 patched 0\n2 ok load #2 patched 0\n3 E12 overflow #3.1+0 HI20\n\
            4 ok unload removed #1\n5 ok swap 1 new #3 patched 1 removed #2 kept -\n\
            6 ok find #3.1+0 7fffe000\n",
    },
    // The routine's stack comes before all numbers.
    Case {
        script: "load k g\nload k h\nspawn k g::f 0\nspawn k g::f 0\nspawn k g::f 0\n\
            swap k/h=n#h-2.o transfer h::f\nkill 3\nswap k/h=n#h-2.o transfer h::f\n",
        status: Status::SomeRefused,
        text: "1 ok load #1 patched 0\n2 ok load #2 patched 0\n3 ok spawn t1 pc 7fffe000\n\
            4 ok spawn t2 pc 7fffe000\n5 ok spawn t3 pc 7fffe000\n6 E11 exhausted 4 1\n7 ok kill t3\n\
            8 E12 overflow #3.1+0 HI20\n",
    },
    // In a cell that needs the old one, after those in the new cell.
    Case {
        script: "load k g\nload k p\nload k u\nswap k/p=n#p-3.o\nswap k/p=n#p-2.o\nmap\nunload k/g\n\
            swap k/p=n#p-2.o\ndump 3 1\n",
        status: Status::SomeRefused,
        text: "1 ok load #1 patched 0\n2 ok load #2 patched 0\n3 ok load #3 patched 1\n\
            4 E12 overflow #4.2+0 HI20\n5 E12 overflow #3.1+0 HI20\n6 ok map\n  #1 k/g attached k#g.o\n    \
            1 rx 7fffe000 4\n  #2 k/p attached k#p.o\n    1 rw 7ffff000 8\n  #3 k/u attached k#u.o\n    \
            1 rx 80000000 8\n7 ok unload removed #1\n8 ok swap 1 new #4 patched 1 removed #2 kept -\n\
            9 ok dump #3.1\n  80000000 37 e5 ff 7f 67 80 00 00\n",
    },
];

/// Three crates, a form of one of them that needs a crate of a broken file, and one under the stem of another.
static BROKEN: [SourceFile; 6] = [
    SourceFile {
        name: "k#a.o",
        source: ".rodata\n.globl a::x\na::x: .quad 1",
    },
    SourceFile {
        name: "k#b.o",
        source: ".rodata\n.quad 2",
    },
    SourceFile {
        name: "k#c.o",
        source: ".rodata\n.quad 3",
    },
    SourceFile {
        name: "n#a-2.o",
        source: ".rodata\n.globl a::x\na::x: .quad 4",
    },
    SourceFile {
        name: "n#a-3.o",
        source: ".rodata\n.globl a::x\na::x: .quad bad::v",
    },
    SourceFile {
        name: "n#c-2.o",
        source: ".rodata\n.quad 5",
    },
];

/// All that is to be known of one item comes before the next.
const OF_BROKEN: Case = Case {
    script: "load k a\nload k b\nload k c\nswap k/a=n#bad.o\nswap k/a=n#a-3.o\nswap k/a=n#c-2.o k/b=n#bad.o\n\
        swap k/b=n#bad.o k/a=n#c-2.o\nswap k/a=n#a-2.o\n",
    status: Status::SomeRefused,
    text: "1 ok load #1 patched 0\n2 ok load #2 patched 0\n3 ok load #3 patched 0\n\
        4 E7 object n#bad.o rule 1 at 0\n5 E7 object k#bad.o rule 1 at 0\n6 E8 duplicate c #3\n\
        7 E7 object n#bad.o rule 1 at 0\n8 ok swap 1 new #4 patched 0 removed #1 kept -\n",
};

/// The files, and two that are empty.
fn with_broken(alloc: Global) -> Result<Vec<ObjectFile<'static>>, Fail> {
    let mut files = object_files(alloc, &BROKEN)?;
    for name in &["k#bad.o", "n#bad.o"] {
        files.push(ObjectFile {
            name: *name,
            bytes: Vec::new(alloc),
        })?;
    }
    Ok(files)
}

#[test]
fn files_that_are_no_objects(rt: HostRuntime) -> Result<(), Fail> {
    let files = with_broken(rt.alloc())?;
    let Case {
        script,
        status,
        text,
    } = OF_BROKEN;
    try_script(&rt, rt.alloc(), &["d", "s"], &files, script, status, text)
}

#[test]
fn swap_refusals(rt: HostRuntime) -> Result<(), Fail> {
    try_all(&rt, rt.alloc(), &["d", "s"], &NOTHING, &OF_NOTHING)?;
    try_all(&rt, rt.alloc(), &["d", "s"], &TAKEN, &OF_TAKEN)?;
    try_all(&rt, rt.alloc(), &["d", "s"], &NEEDS, &OF_NEEDS)?;
    try_all(&rt, rt.alloc(), &["d", "s"], &ASIDE, &OF_ASIDE)?;
    try_all(
        &rt,
        rt.alloc(),
        &["d", "s", "--pages", "16"],
        &LARGE,
        &OF_LARGE,
    )?;
    try_all(
        &rt,
        rt.alloc(),
        &["d", "s", "--base", "0x7fffe000", "--pages", "16"],
        &FAR,
        &OF_FAR,
    )?;
    Ok(())
}
