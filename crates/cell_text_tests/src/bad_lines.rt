//! Scripts without a reading.

use crate::script::read;
use cell_script::ScriptFail;
use std::alloc::Global;
use std::process::Abort;
use std::test::*;

/// The number of the first line without a reading.
fn bad_line(alloc: Global, text: &[u8]) -> Option<u32> {
    match read(alloc, text) {
        Err(ScriptFail::Bad { line }) => Some(line),
        _ => None,
    }
}

#[test]
fn long_symbols(rt: HostRuntime) {
    let mut text = [b'a'; 1032];
    text[..7].copy_from_slice(b"find k ");
    assert_eq!(rt; bad_line(rt.alloc(), &text[..1031]), None);
    assert_eq!(rt; bad_line(rt.alloc(), &text), Some(1));
}

#[test]
fn long_files(rt: HostRuntime) {
    let mut text = [b'a'; 265];
    text[..9].copy_from_slice(b"swap k/a=");
    assert_eq!(rt; bad_line(rt.alloc(), &text[..264]), None);
    assert_eq!(rt; bad_line(rt.alloc(), &text), Some(1));
}

/// A script, and the number of its first line without a reading.
struct Bad(&'static [u8], u32);

const LATER: [Bad; 4] = [
    Bad(b"\nload K a", 2),
    Bad(b"dump 1 1\n\rdump 1 1", 2),
    Bad(b"dump 1 1\n\n\x0b", 3),
    Bad(b"load k a\nfrob\nfrob", 2),
];

/// Swaps without a reading.
const SWAPS: [&[u8]; 25] = [
    b"swap",
    b"swap reexport",
    b"swap k/a",
    b"swap k/a=",
    b"swap k=n#a.o",
    b"swap k/=n#a.o",
    b"swap /a=n#a.o",
    b"swap a=n#a.o",
    b"swap =n#a.o",
    b"swap k/a/b=n#a.o",
    b"swap K/a=n#a.o",
    b"swap k/a=n#a.o again",
    b"swap k/a=n#a.o reexport reexport",
    b"swap k/a=n#a.o strict reexport",
    b"swap k/a=n#a.o strict strict",
    b"swap k/a=n#a.o reexport strict strict",
    b"swap k/a=n#a.o strict k/b=n#a.o",
    b"swap strict",
    b"swap reexport k/a=n#a.o",
    b"swap k/a=n#a.o k/b",
    b"swap k/a=n#a.o reexport k/b=n#a.o",
    b"swap k/a=n#a.o k/a=n#a.o",
    b"swap k/a=n#a.o n/a=n#a.o k/a=n#c.o",
    b"swap k/a=n#a.o\r\n",
    b"swaps k/a=n#a.o",
];

/// Commands that show or remove, without a reading.
const SHOWN_OR_REMOVED: [&[u8]; 42] = [
    b"dump 00 0",
    b"dump +1 0",
    b"dump 0x1 0",
    b"dump 1",
    b"dump 4294967296 0",
    b"dump 01 0",
    b"find k",
    b"find k a b",
    b"find K a",
    b"find k \x7f",
    b"find k a\r\n",
    b"find k \xc3\xa9",
    b"dumpall 1",
    b"dumpall all",
    b"Dumpall",
    b"map k",
    b"map\r",
    b"maps",
    b"unload",
    b"unload k",
    b"unload k a",
    b"unload k/",
    b"unload /a",
    b"unload /",
    b"unload k//a",
    b"unload k/a/b",
    b"unload k/a/",
    b"unload K/a",
    b"unload k/a-b",
    b"unload k/a\r\n",
    b"unload k/a k/b k",
    b"unload k/a k/a",
    b"unload k/a n/a k/b k/a",
    b"purge k/a",
    b"deps",
    b"deps 1 1",
    b"deps #1",
    b"deps 4294967296",
    b"users",
    b"users 1 1",
    b"users 01",
    b"user 1",
];

/// Other lines without a reading.
const OTHERS: [&[u8]; 38] = [
    b"load k",
    b"load k a\r\n",
    b"load k a b",
    b"Load k a",
    b"load k a\0",
    b"load k a #",
    b"load k a-b",
    b"ns a",
    b"ns a k",
    b"ns a k under",
    b"ns under a k",
    b"ns a below k",
    b"ns a Under k",
    b"ns a under",
    b"ns a under k k",
    b"ns A under k",
    b"ns a under k#",
    b"spawn k a::b",
    b"spawn k a::b 0 0",
    b"spawn K a::b 0",
    b"spawn k \x7f 0",
    b"step 1 100001",
    b"step 4294967296 1",
    b"step 01 1",
    b"step 1 01",
    b"step 1 0x1",
    b"step 1",
    b"step 1 1 1",
    b"run 10001",
    b"run 00",
    b"run",
    b"run 1 1",
    b"kill 4294967296",
    b"kill t1",
    b"kill",
    b"kill 1 1",
    b"tasks 1",
    b"task",
];

/// Sees that the first line of each text has no reading.
fn try_each(rt: &impl Abort, alloc: Global, texts: &[&[u8]]) {
    for (number, text) in texts.iter().enumerate() {
        assert_eq!(rt; bad_line(alloc, *text), Some(1), "text {number}");
    }
}

#[test]
fn first_lines(rt: HostRuntime) {
    try_each(&rt, rt.alloc(), &SWAPS);
    try_each(&rt, rt.alloc(), &SHOWN_OR_REMOVED);
    try_each(&rt, rt.alloc(), &OTHERS);
}

#[test]
fn later_lines(rt: HostRuntime) {
    for (number, case) in LATER.iter().enumerate() {
        assert_eq!(rt; bad_line(rt.alloc(), case.0), Some(case.1), "case {number}");
    }
}
