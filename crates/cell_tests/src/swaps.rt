//! Cells in the place of others, and who follows them.

use crate::cases::{Case, try_all};
use crate::sources::SourceFile;
use cell_run::Status;
use std::test::Fail;

const LIBRARY: &str = ".rodata\n.globl lib::x\nlib::x: .quad 1";

/// Leads into `LIBRARY`.
const USER: &str = ".rodata\n.globl app::p\napp::p: .quad lib::x";

/// A crate that needs nothing, and others that could stand in its place.
static SINGLE: [SourceFile; 5] = [
    SourceFile {
        name: "k#a.o",
        source: ".data\n.globl a::n\na::n: .quad 7",
    },
    SourceFile {
        name: "n#a-2.o",
        source: ".data\n.globl a::n\na::n: .quad 8",
    },
    SourceFile {
        name: "n#z.o",
        source: ".data\n.globl a::n\na::n: .quad 9",
    },
    SourceFile {
        name: "k#e.o",
        source: "",
    },
    SourceFile {
        name: "n#e-2.o",
        source: "",
    },
];

static OF_SINGLE: [Case; 3] = [
    // Numbers go on, and the pages are free again.
    Case {
        script: "load k a\nmap\nswap k/a=n#a-2.o\nfind k a::n\ndump 1 1\ndump 2 1\nmap\nswap k/a=k#a.o\n\
            find k a::n\npurge\n",
        status: Status::SomeRefused,
        text: "1 ok load #1 patched 0\n2 ok map\n  #1 k/a attached k#a.o\n    1 rw 10000000 8\n\
            3 ok swap 1 new #2 patched 0 removed #1 kept -\n4 ok find #2.1+0 10001000\n5 E1 unknown 1\n\
            6 ok dump #2.1\n  10001000 08 00 00 00 00 00 00 00\n7 ok map\n  #2 k/a attached n#a-2.o\n    \
            1 rw 10001000 8\n8 ok swap 2 new #3 patched 0 removed #2 kept -\n9 ok find #3.1+0 10000000\n\
            10 ok purge removed -\n",
    },
    // The new cell has the stem of its file.
    Case {
        script: "load k a\nswap k/a=n#z.o\nmap\nload k a\nunload k/a\nswap k/a=n#a-2.o\nswap k/z=k#a.o\n\
            unload k/a\nload k a\n",
        status: Status::SomeRefused,
        text: "1 ok load #1 patched 0\n2 ok swap 1 new #2 patched 0 removed #1 kept -\n3 ok map\n  \
            #2 k/z attached n#z.o\n    1 rw 10001000 8\n4 E8 duplicate a::n #2\n5 E1 unknown k/a\n\
            6 E1 unknown k/a\n7 ok swap 2 new #3 patched 0 removed #2 kept -\n8 ok unload removed #3\n\
            9 ok load #4 patched 0\n",
    },
    // A cell without sections.
    Case {
        script: "load k e\nswap k/e=n#e-2.o\nmap\n",
        status: Status::Done,
        text: "1 ok load #1 patched 0\n2 ok swap 1 new #2 patched 0 removed #1 kept -\n3 ok map\n  \
            #2 k/e attached n#e-2.o\n",
    },
];

/// Constants that are as far apart as two other crates, and another form of one of these.
static PROVIDER: [SourceFile; 4] = [
    SourceFile {
        name: "k#t.o",
        source: ".rodata\n.word p::hi-q::lo",
    },
    SourceFile {
        name: "k#p.o",
        source: ".rodata\n.zero 16\n.globl p::hi\np::hi: .word 0",
    },
    SourceFile {
        name: "n#p-2.o",
        source: ".rodata\n.zero 32\n.globl p::hi\np::hi: .word 0",
    },
    SourceFile {
        name: "k#q.o",
        source: ".rodata\n.globl q::lo\nq::lo: .word 0",
    },
];

static OF_PROVIDER: [Case; 1] = [Case {
    script: "load k t\ndump 1 1\nswap k/p=n#p-2.o\ndump 1 1\n",
    status: Status::Done,
    text: "1 ok load #1 #2 #3 patched 1\n2 ok dump #1.1\n  10000000 10 f0 ff ff\n\
            3 ok swap 1 new #4 patched 1 removed #2 kept -\n4 ok dump #1.1\n  10000000 20 10 00 00\n",
}];

/// Two crates that lead into each other, and other forms of both.
static PAIR: [SourceFile; 4] = [
    SourceFile {
        name: "k#p.o",
        source: ".data\n.globl p::x\np::x: .quad q::x",
    },
    SourceFile {
        name: "k#q.o",
        source: ".data\n.globl q::x\nq::x: .quad p::x",
    },
    SourceFile {
        name: "n#p-2.o",
        source: ".data\n.globl p::x\np::x: .quad q::x, 1",
    },
    SourceFile {
        name: "n#q-2.o",
        source: ".data\n.globl q::x\n.quad 5\nq::x: .quad p::x",
    },
];

static OF_PAIR: [Case; 1] = [
    // First the one alone, then both at once.
    Case {
        script: "load k p\nswap k/p=n#p-2.o\ndump 2 1\ndump 3 1\nswap k/q=n#q-2.o k/p=n#p-2.o\ndump 4 1\n\
            dump 5 1\nmap\n",
        status: Status::Done,
        text: "1 ok load #1 #2 patched 2\n2 ok swap 1 new #3 patched 2 removed #1 kept -\n3 ok dump #2.1\n  \
            10001000 00 20 00 10 00 00 00 00\n4 ok dump #3.1\n  \
            10002000 00 10 00 10 00 00 00 00 01 00 00 00 00 00 00 00\n\
            5 ok swap 2 new #4 #5 patched 2 removed #2 #3 kept -\n6 ok dump #4.1\n  \
            10000000 05 00 00 00 00 00 00 00 00 30 00 10 00 00 00 00\n7 ok dump #5.1\n  \
            10003000 08 00 00 10 00 00 00 00 01 00 00 00 00 00 00 00\n8 ok map\n  #4 k/q attached n#q-2.o\n    \
            1 rw 10000000 16\n  #5 k/p attached n#p-2.o\n    1 rw 10003000 16\n",
    },
];

/// Three crates, each of which leads into the next one, and another form of one of them.
static CYCLE: [SourceFile; 4] = [
    SourceFile {
        name: "k#a.o",
        source: ".rodata\n.globl a::x\na::x: .quad b::x",
    },
    SourceFile {
        name: "k#b.o",
        source: ".rodata\n.globl b::x\nb::x: .quad c::x",
    },
    SourceFile {
        name: "k#c.o",
        source: ".rodata\n.globl c::x\nc::x: .quad a::x",
    },
    SourceFile {
        name: "n#b-2.o",
        source: ".rodata\n.globl b::x\nb::x: .quad c::x, a::x",
    },
];

static OF_CYCLE: [Case; 1] = [
    // First one of the three, then all at once.
    Case {
        script: "load k a\nswap k/b=n#b-2.o\nusers 4\nusers 1\ndeps 4\nswap k/c=k#c.o k/a=k#a.o k/b=k#b.o\n\
            map\ndeps 5\ndeps 6\ndeps 7\n",
        status: Status::Done,
        text: "1 ok load #1 #2 #3 patched 3\n2 ok swap 1 new #4 patched 3 removed #2 kept -\n3 ok users #4\n  \
            #1.1+0 64 -> #4.1\n4 ok users #1\n  #3.1+0 64 -> #1.1\n  #4.1+8 64 -> #1.1\n5 ok deps #4\n  \
            #4.1+0 64 -> #3.1\n  #4.1+8 64 -> #1.1\n\
            6 ok swap 2 new #5 #6 #7 patched 3 removed #1 #3 #4 kept -\n7 ok map\n  #5 k/c attached k#c.o\n    \
            1 ro 10001000 8\n  #6 k/a attached k#a.o\n    1 ro 10004000 8\n  #7 k/b attached k#b.o\n    \
            1 ro 10005000 8\n8 ok deps #5\n  #5.1+0 64 -> #6.1\n9 ok deps #6\n  #6.1+0 64 -> #7.1\n\
            10 ok deps #7\n  #7.1+0 64 -> #5.1\n",
    },
];

/// A crate of one name in two sibling namespaces, with a user of each: one in a namespace below, one in the
/// same namespace.
static SPACES: [SourceFile; 5] = [
    SourceFile {
        name: "u#lib.o",
        source: LIBRARY,
    },
    SourceFile {
        name: "v#lib.o",
        source: LIBRARY,
    },
    SourceFile {
        name: "w#app.o",
        source: USER,
    },
    SourceFile {
        name: "v#app.o",
        source: USER,
    },
    SourceFile {
        name: "n#lib-2.o",
        source: ".rodata\n.zero 8\n.globl lib::x\nlib::x: .quad 2",
    },
];

static OF_SPACES: [Case; 1] = [
    // A namespace below follows the new cell, and a sibling doesn't.
    Case {
        script: "ns u under k\nns v under k\nns w under u\nload w app\nload v app\nswap u/lib=n#lib-2.o\n\
            dump 1 1\ndump 3 1\nfind w lib::x\nfind v lib::x\nfind k lib::x\nswap v/lib=n#lib-2.o\ndump 1 1\n\
            dump 3 1\nswap u/app=w#app.o\nmap\n",
        status: Status::SomeRefused,
        text: "1 ok ns u\n2 ok ns v\n3 ok ns w\n4 ok load #1 #2 patched 1\n5 ok load #3 #4 patched 1\n\
            6 ok swap 1 new #5 patched 1 removed #2 kept -\n7 ok dump #1.1\n  \
            10000000 08 40 00 10 00 00 00 00\n8 ok dump #3.1\n  10002000 00 30 00 10 00 00 00 00\n\
            9 ok find #5.1+8 10004008\n10 ok find #4.1+0 10003000\n11 ok find -\n\
            12 ok swap 2 new #6 patched 1 removed #4 kept -\n13 ok dump #1.1\n  \
            10000000 08 40 00 10 00 00 00 00\n14 ok dump #3.1\n  10002000 08 10 00 10 00 00 00 00\n\
            15 E1 unknown u/app\n16 ok map\n  #1 w/app attached w#app.o\n    1 ro 10000000 8\n  \
            #3 v/app attached v#app.o\n    1 ro 10002000 8\n  #5 u/lib attached n#lib-2.o\n    \
            1 ro 10004000 16\n  #6 v/lib attached n#lib-2.o\n    1 ro 10001000 16\n",
    },
];

/// Crates, a form of one of them that needs others, and one in place of another that needs the old name.
static BRINGS: [SourceFile; 7] = [
    SourceFile {
        name: "k#a.o",
        source: ".rodata\n.globl a::x\na::x: .quad 1",
    },
    SourceFile {
        name: "u#b.o",
        source: ".rodata\n.globl b::x\nb::x: .quad a::x",
    },
    SourceFile {
        name: "n#b-2.o",
        source: ".rodata\n.globl b::x\nb::x: .quad y::v, a::x",
    },
    SourceFile {
        name: "k#y.o",
        source: ".rodata\n.globl y::v\ny::v: .quad z::v",
    },
    SourceFile {
        name: "k#z.o",
        source: ".rodata\n.globl z::v\nz::v: .quad y::v",
    },
    SourceFile {
        name: "n#y.o",
        source: ".rodata\n.globl y::v\ny::v: .quad 3",
    },
    SourceFile {
        name: "n#c.o",
        source: ".rodata\n.globl c::x\nc::x: .quad a::x",
    },
];

static OF_BRINGS: [Case; 2] = [
    // From the depots of the old cell's chain, beside the new cell.
    Case {
        script: "ns u under k\nload u b\nswap u/b=n#b-2.o\nmap\nusers 4\n",
        status: Status::Done,
        text: "1 ok ns u\n2 ok load #1 #2 patched 1\n3 ok swap 1 new #3 #4 #5 patched 4 removed #1 kept -\n\
            4 ok map\n  #2 k/a attached k#a.o\n    1 ro 10001000 8\n  #3 u/b attached n#b-2.o\n    \
            1 ro 10002000 16\n  #4 k/y attached k#y.o\n    1 ro 10003000 8\n  #5 k/z attached k#z.o\n    \
            1 ro 10004000 8\n5 ok users #4\n  #3.1+0 64 -> #4.1\n  #5.1+0 64 -> #4.1\n",
    },
    // The old cell provides nothing any more, so its crate is brought again.
    Case {
        script: "ns u under k\nload u b\nswap k/a=n#c.o\ndump 1 1\nmap\n",
        status: Status::Done,
        text: "1 ok ns u\n2 ok load #1 #2 patched 1\n3 ok swap 1 new #3 #4 patched 2 removed #2 kept -\n\
            4 ok dump #1.1\n  10000000 00 30 00 10 00 00 00 00\n5 ok map\n  #1 u/b attached u#b.o\n    \
            1 ro 10000000 8\n  #3 k/c attached n#c.o\n    1 ro 10002000 8\n  #4 k/a attached k#a.o\n    \
            1 ro 10003000 8\n",
    },
];

#[test]
fn swaps(rt: HostRuntime) -> Result<(), Fail> {
    try_all(&rt, rt.alloc(), &["d", "s"], &SINGLE, &OF_SINGLE)?;
    try_all(&rt, rt.alloc(), &["d", "s"], &PROVIDER, &OF_PROVIDER)?;
    try_all(&rt, rt.alloc(), &["d", "s"], &PAIR, &OF_PAIR)?;
    try_all(&rt, rt.alloc(), &["d", "s"], &CYCLE, &OF_CYCLE)?;
    try_all(&rt, rt.alloc(), &["d", "s"], &SPACES, &OF_SPACES)?;
    try_all(&rt, rt.alloc(), &["d", "s"], &BRINGS, &OF_BRINGS)?;
    Ok(())
}
