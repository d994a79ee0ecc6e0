//! The routines of swaps: those that carry state over, and those that don't succeed.

use crate::cases::{Case, try_all};
use crate::folder::{ObjectFile, outcome};
use crate::sources::{SourceFile, assembled, object_files};
use cell_run::Status;
use std::alloc::{AllocError, Global};
use std::test::Fail;

const VALUE: &str = ".data\n.globl s::v\ns::v: .quad 1";

const BARE: &str = ".text\n.globl c::f\nc::f: ret";

/// A value, a crate, and two forms of that whose routine changes the value.
pub static MOVES: [SourceFile; 4] = [
    SourceFile {
        name: "k#s.o",
        source: VALUE,
    },
    SourceFile {
        name: "k#c.o",
        source: BARE,
    },
    SourceFile {
        name: "n#c-2.o",
        source: ".text\n.globl c::f\nc::f: ret\n.globl c::mv\nc::mv: la t0,s::v\nli t1,9\nsd t1,0(t0)\nli a0,7\nret",
    },
    SourceFile {
        name: "n#c-3.o",
        source: ".text\n.globl c::f\nc::f: ret\n.globl c::mv\nc::mv: la t0,s::v\nli t1,9\nsd t1,0(t0)\nli a0,0\nret",
    },
];

/// The routine fails, lacks one turn, and carries the value over.
pub const MOVING: &str = "load k s\nload k c\nswap k/c=n#c-2.o transfer c::mv\ndump 1 1\n\
    swap k/c=n#c-3.o transfer c::mv budget 5\nswap k/c=n#c-3.o transfer c::mv budget 6\ndump 1 1\n";

pub const MOVING_TEXT: &str =
    "1 ok load #1 patched 0\n2 ok load #2 patched 0\n3 E14 transfer c::mv returned 7\n\
    4 ok dump #1.1\n  10000000 01 00 00 00 00 00 00 00\n5 E14 transfer c::mv budget\n\
    6 ok swap 1 new #3 patched 2 removed #2 kept -\n\
    7 ok dump #1.1\n  10000000 09 00 00 00 00 00 00 00\n";

static OF_MOVES: [Case; 2] = [
    Case {
        script: MOVING,
        status: Status::SomeRefused,
        text: MOVING_TEXT,
    },
    // A task stands in the old crate until it ends.
    Case {
        script: "load k s\nload k c\nspawn k c::f 4\nswap k/c=n#c-3.o strict transfer c::mv\ndump 1 1\n\
            step 1 9\nswap k/c=n#c-3.o strict transfer c::mv\ndump 1 1\n",
        status: Status::SomeRefused,
        text: "1 ok load #1 patched 0\n2 ok load #2 patched 0\n3 ok spawn t1 pc 10001000\n4 E15 held #2 t1\n\
            5 ok dump #1.1\n  10000000 01 00 00 00 00 00 00 00\n6 ok step t1 turns 1 done 4\n\
            7 ok swap 1 new #3 patched 2 removed #2 kept -\n\
            8 ok dump #1.1\n  10000000 09 00 00 00 00 00 00 00\n",
    },
];

/// Crates whose routines ask for names, and one whose routine is in a crate that comes beside it.
static ASKS: [SourceFile; 6] = [
    SourceFile {
        name: "k#s.o",
        source: VALUE,
    },
    SourceFile {
        name: "k#c.o",
        source: BARE,
    },
    SourceFile {
        name: "n#c-old.o",
        source: ".text\n.globl c::f\nc::f: ret\n.globl c::mv\nc::mv: la a0,c::name\nli a1,4\nli a7,4\necall\n\
            la t0,s::v\nsd a0,0(t0)\nli a0,0\nret\n.rodata\nc::name: .byte 99,58,58,102",
    },
    SourceFile {
        name: "n#c-new.o",
        source: ".text\n.globl c::f\nc::f: ret\n.globl c::mv\nc::mv: la a0,c::name\nli a1,4\nli a7,5\necall\n\
            la t0,s::v\nsd a0,0(t0)\nli a0,0\nret\n.rodata\nc::name: .byte 99,58,58,102",
    },
    SourceFile {
        name: "n#c-by.o",
        source: ".text\n.globl c::f\nc::f: call d::mv\nret",
    },
    SourceFile {
        name: "k#d.o",
        source: ".text\n.globl d::mv\nd::mv: la t0,s::v\nsd sp,0(t0)\nret",
    },
];

static OF_ASKS: [Case; 3] = [
    // What the old cell has under the name, at 10001000, stays, since the value is in writable data by then.
    Case {
        script: "load k s\nload k c\nswap k/c=n#c-old.o transfer c::mv\ndump 1 1\n",
        status: Status::Done,
        text: "1 ok load #1 patched 0\n2 ok load #2 patched 0\n\
            3 ok swap 1 new #3 patched 4 removed - kept #2\n\
            4 ok dump #1.1\n  10000000 00 10 00 10 00 00 00 00\n",
    },
    // What the new one has under it is at 10002000.
    Case {
        script: "load k s\nload k c\nswap k/c=n#c-new.o transfer c::mv\ndump 1 1\n",
        status: Status::Done,
        text: "1 ok load #1 patched 0\n2 ok load #2 patched 0\n\
            3 ok swap 1 new #3 patched 4 removed #2 kept -\n\
            4 ok dump #1.1\n  10000000 00 20 00 10 00 00 00 00\n",
    },
    // New cells at 10002000 and 10003000, the stack from 10004000 to 10008000.
    Case {
        script: "load k s\nload k c\nswap k/c=n#c-by.o transfer d::mv\ndump 1 1\n",
        status: Status::Done,
        text: "1 ok load #1 patched 0\n2 ok load #2 patched 0\n\
            3 ok swap 1 new #3 #4 patched 3 removed #2 kept -\n\
            4 ok dump #1.1\n  10000000 f0 7f 00 10 00 00 00 00\n",
    },
];

/// A routine `c::mv` of a new crate, the words of the swap, and its refusal.
#[derive(Drop)]
struct Failing {
    code: &'static str,
    words: &'static str,
    refusal: &'static str,
}

/// What the new crate has beside its routine: one that succeeds at once, one that fails, data, and a name. Its text
/// begins at 10007000, and `c::mv` at 10007010.
const BEFORE_ROUTINE: &str =
    ".text\n.globl c::f\nc::f: ret\n.globl c::end\nc::end: li a0,3\nret\nnop\n.globl c::mv\nc::mv: ";

const BEHIND_ROUTINE: &str =
    "\n.data\n.globl c::own\nc::own: .quad 5\n.rodata\nc::name: .byte 99,58,58,102\n";

static FAILING: [Failing; 28] = [
    // Each cause of a trap.
    Failing {
        code: "jalr zero,8(zero)",
        words: "transfer c::mv",
        refusal: "E14 transfer c::mv trap fetch at 8",
    },
    Failing {
        code: ".word 0xffffffff",
        words: "transfer c::mv",
        refusal: "E14 transfer c::mv trap illegal at 10007010",
    },
    Failing {
        code: "ebreak",
        words: "transfer c::mv",
        refusal: "E14 transfer c::mv trap break at 10007010",
    },
    Failing {
        code: "jalr zero,2(zero)",
        words: "transfer c::mv",
        refusal: "E14 transfer c::mv trap jump at 10007010",
    },
    Failing {
        code: "ld t0,1(zero)",
        words: "transfer c::mv",
        refusal: "E14 transfer c::mv trap load-align at 10007010",
    },
    Failing {
        code: "sd t0,1(zero)",
        words: "transfer c::mv",
        refusal: "E14 transfer c::mv trap store-align at 10007010",
    },
    Failing {
        code: "ld t0,0(zero)",
        words: "transfer c::mv",
        refusal: "E14 transfer c::mv trap load at 10007010",
    },
    Failing {
        code: "sd t0,0(zero)",
        words: "transfer c::mv",
        refusal: "E14 transfer c::mv trap store at 10007010",
    },
    Failing {
        code: "li a7,6\necall",
        words: "transfer c::mv",
        refusal: "E14 transfer c::mv trap call at 10007014",
    },
    // A name that is too long, and one that can't be loaded.
    Failing {
        code: "la a0,c::name\nli a1,1025\nli a7,4\necall",
        words: "transfer c::mv",
        refusal: "E14 transfer c::mv trap call at 10007020",
    },
    Failing {
        code: "li a1,1\nli a7,5\necall",
        words: "transfer c::mv",
        refusal: "E14 transfer c::mv trap call at 10007018",
    },
    // Stores to a field and to the new text, and to what may be written: another crate's data, the new crate's,
    // and a task's stack.
    Failing {
        code: "la t0,s::p\nsd t0,0(t0)",
        words: "transfer c::mv",
        refusal: "E14 transfer c::mv trap store at 10007018",
    },
    Failing {
        code: "la t0,c::mv\nsw zero,0(t0)",
        words: "transfer c::mv",
        refusal: "E14 transfer c::mv trap store at 10007018",
    },
    Failing {
        code: "la t0,s::v\nsd t0,0(t0)\nli a0,7\nret",
        words: "transfer c::mv",
        refusal: "E14 transfer c::mv returned 7",
    },
    Failing {
        code: "la t0,c::own\nsd t0,0(t0)\nli a0,1\nli a7,0\necall",
        words: "transfer c::mv",
        refusal: "E14 transfer c::mv returned 1",
    },
    Failing {
        code: "lui t0,0x10007\nsd t0,-16(t0)\nli a0,1\nret",
        words: "transfer c::mv",
        refusal: "E14 transfer c::mv returned 1",
    },
    // Calls that do nothing.
    Failing {
        code: "li a7,1\necall\nli a7,2\necall\nli a7,3\necall\nli a0,2\nret",
        words: "transfer c::mv",
        refusal: "E14 transfer c::mv returned 2",
    },
    // The name of an old cell, of a new one, and one that none has.
    Failing {
        code: "la a0,c::name\nli a1,4\nli a7,4\necall\nret",
        words: "transfer c::mv",
        refusal: "E14 transfer c::mv returned 268443648",
    },
    Failing {
        code: "la a0,c::name\nli a1,4\nli a7,5\necall\nret",
        words: "transfer c::mv",
        refusal: "E14 transfer c::mv returned 268464128",
    },
    Failing {
        code: "la a0,c::name\nli a1,3\nli a7,4\necall\nsltiu a0,a0,1\nret",
        words: "transfer c::mv",
        refusal: "E14 transfer c::mv returned 1",
    },
    Failing {
        code: "la a0,c::name\nli a1,3\nli a7,5\necall\nsltiu a0,a0,1\nret",
        words: "transfer c::mv",
        refusal: "E14 transfer c::mv returned 1",
    },
    // Turns that are used up, of one routine and of all together.
    Failing {
        code: "la t0,s::v\nsd t0,0(t0)\nj c::mv",
        words: "transfer c::mv budget 50",
        refusal: "E14 transfer c::mv budget",
    },
    Failing {
        code: "ret",
        words: "transfer c::f transfer c::mv budget 1",
        refusal: "E14 transfer c::mv budget",
    },
    // The second routine fails.
    Failing {
        code: "la t0,s::v\nsd t0,0(t0)\nret",
        words: "transfer c::mv transfer c::end",
        refusal: "E14 transfer c::end returned 3",
    },
    // The routine is in a crate that is brought.
    Failing {
        code: "call d::mv\nret",
        words: "transfer d::mv",
        refusal: "E14 transfer d::mv returned 4",
    },
    // Names that are no entry, and one of a cell that isn't new.
    Failing {
        code: "ret",
        words: "transfer c::mv transfer c::own",
        refusal: "E10 no-entry c::own",
    },
    Failing {
        code: "ret",
        words: "transfer t::go",
        refusal: "E10 no-entry t::go",
    },
    // The routine stores a pointer to the old cell where it stays.
    Failing {
        code: "la a0,c::name\nli a1,4\nli a7,4\necall\nla t0,s::v\nsd a0,0(t0)\nli a0,0\nret",
        words: "strict transfer c::mv",
        refusal: "E15 held #3 #2",
    },
];

/// A task that reads from its stack what it stored there; a value, a field that leads to it, and one that leads to
/// the crate that is swapped; that crate; a form of it without a routine; and a crate that one with a routine needs.
static STANDING: [SourceFile; 5] = [
    SourceFile {
        name: "k#t.o",
        source: ".text\n.globl t::go\nt::go: sd a0,0(sp)\nli a7,3\necall\nld a0,0(sp)\nret",
    },
    SourceFile {
        name: "k#s.o",
        source: ".data\n.globl s::v\ns::v: .quad 1\n.globl s::p\ns::p: .quad s::v\n.quad c::f",
    },
    SourceFile {
        name: "k#c.o",
        source: BARE,
    },
    SourceFile {
        name: "n#c-3.o",
        source: BARE,
    },
    SourceFile {
        name: "k#d.o",
        source: ".text\n.globl d::mv\nd::mv: la t0,s::v\nsd t0,0(t0)\nli a0,4\nret",
    },
];

/// What stands before a swap, in lines of the script and of the transcript, and then all that shows of the machine.
#[derive(Drop)]
struct Scene {
    lines: &'static str,
    answers: &'static str,
    shown: &'static str,
}

/// At the end a swap that isn't refused, the task and a second one.
const OF_STANDING: Scene = Scene {
    lines: "load k t\nload k s\n# c comes with s\nspawn k t::go 5\nstep 1 3\n",
    answers: "1 ok load #1 patched 0\n2 ok load #2 #3 patched 2\n\
        4 ok spawn t1 pc 10000000\n5 ok step t1 turns 3 ready\n",
    shown: "map\ntasks\ndump 1 1\ndump 2 1\ndump 3 1\ndeps 1\ndeps 2\ndeps 3\nusers 1\nusers 2\nusers 3\n\
        find k s::v\nfind k c::f\nfind k c::mv\nswap k/c=n#c-3.o\nspawn k t::go 6\nmap\nstep 1 9\nstep 2 9\n",
};

impl Scene {
    /// What is written for the line, and then for what shows.
    fn shown_after(&self, alloc: Global, files: &[ObjectFile], line: &str) -> Result<String, Fail> {
        let script = format!(in alloc; "{}{line}\n{}", self.lines, self.shown)?;
        let (_, sink) = outcome(alloc, &["d", "s"], script.as_str(), files)?;
        let text = std::str::from_utf8(sink.written()).ok().ok_or("UTF-8")?;
        let rest = text
            .strip_prefix(self.answers)
            .ok_or("other first answers")?;
        Ok(String::from_str(alloc, rest)?)
    }
}

/// The files of the tests, with a new crate of that routine.
fn files_with(alloc: Global, code: &str) -> Result<Vec<ObjectFile<'static>>, Fail> {
    let mut files = object_files(alloc, &STANDING)?;
    let source = format!(in alloc; "{BEFORE_ROUTINE}{code}{BEHIND_ROUTINE}")?;
    files.push(assembled(alloc, "n#c-2.o", source.as_str())?)?;
    Ok(files)
}

/// After a swap that its routines refuse, everything is as if a comment had stood in its place.
#[test]
fn routines_that_fail(rt: HostRuntime) -> Result<(), Fail> {
    let alloc = rt.alloc();
    let files = object_files(alloc, &STANDING)?;
    let before = OF_STANDING.shown_after(alloc, files.as_slice(), "#")?;
    assert!(rt; before.contains(" ok step t1 turns 2 done 5\n"), "{before}");
    for failing in &FAILING {
        let files = files_with(alloc, failing.code)?;
        let line = format!(in alloc; "swap k/c=n#c-2.o {}", failing.words)?;
        let text = OF_STANDING.shown_after(alloc, files.as_slice(), line.as_str())?;
        let wanted = format!(in alloc; "6 {}\n{before}", failing.refusal)?;
        assert!(rt;
            text == wanted,
            "{} with {} gave {text}",
            failing.code,
            failing.words
        );
    }
    Ok(())
}

/// Two crates that need each other, one that needs the first of them, and forms of the two whose names have other
/// hashes, with a routine that fails or succeeds.
static PAIR: [SourceFile; 6] = [
    SourceFile {
        name: "k#u.o",
        source: ".data\n.globl u::p\nu::p: .quad a::f::h1",
    },
    SourceFile {
        name: "k#a.o",
        source: ".text\n.globl a::f::h1\na::f::h1: call b::g::h1\nret",
    },
    SourceFile {
        name: "k#b.o",
        source: ".text\n.globl b::g::h1\nb::g::h1: call a::f::h1\nret",
    },
    SourceFile {
        name: "n#a-2.o",
        source: ".text\n.globl a::f::h2\na::f::h2: call b::g::h2\nret\n.globl a::mv\na::mv: li a0,1\nret",
    },
    SourceFile {
        name: "n#a-3.o",
        source: ".text\n.globl a::f::h2\na::f::h2: call b::g::h2\nret\n.globl a::mv\na::mv: li a0,0\nret",
    },
    SourceFile {
        name: "n#b-2.o",
        source: ".text\n.globl b::g::h2\nb::g::h2: ret",
    },
];

/// At the end the swap with the routine that succeeds.
const OF_PAIR: Scene = Scene {
    lines: "load k u\n",
    answers: "1 ok load #1 #2 #3 patched 3\n",
    shown: "map\ndump 1 1\ndump 2 1\ndump 3 1\ndeps 1\ndeps 2\ndeps 3\nusers 1\nusers 2\nusers 3\n\
        find k a::f::h1\nfind k a::f::h2\nfind k b::g::h1\nfind k b::g::h2\n\
        swap k/a=n#a-3.o k/b=n#b-2.o reexport transfer a::mv\nfind k a::f::h1\nfind k a::f::h2\ndump 1 1\n",
};

/// Two cells of one group are attached again, with their names alone, and what led into them does so again.
#[test]
fn a_routine_of_two_new_cells_that_fails(rt: HostRuntime) -> Result<(), Fail> {
    let alloc = rt.alloc();
    let files = object_files(alloc, &PAIR)?;
    let before = OF_PAIR.shown_after(alloc, files.as_slice(), "#")?;
    let end = "17 ok swap 1 new #4 #5 patched 2 removed #2 #3 kept -\n18 ok find #4.1+0 10003000\n\
        19 ok find #4.1+0 10003000\n20 ok dump #1.1\n  10000000 00 30 00 10 00 00 00 00\n";
    assert!(rt; before.ends_with(end), "{before}");
    let line = "swap k/a=n#a-2.o k/b=n#b-2.o reexport transfer a::mv";
    let text = OF_PAIR.shown_after(alloc, files.as_slice(), line)?;
    let wanted = format!(in alloc; "2 E14 transfer a::mv returned 1\n{before}")?;
    assert!(rt; text == wanted, "{text}");
    Ok(())
}

#[test]
fn swap_transfer(rt: HostRuntime) -> Result<(), Fail> {
    try_all(&rt, rt.alloc(), &["d", "s"], &MOVES, &OF_MOVES)?;
    try_all(&rt, rt.alloc(), &["d", "s"], &ASKS, &OF_ASKS)?;
    Ok(())
}
