//! Command lines, and what comes of them.

use crate::cases::try_script;
use crate::folder::outcome;
use crate::sources::{SourceFile, object_files};
use cell_run::Status;
use std::alloc::{AllocError, Global};
use std::process::Abort;
use std::test::Fail;

const USAGE: &str = "usage: cells DIR SCRIPT [--base HEX] [--pages N] | --generate N --seed S\n";

/// A command line, words between single spaces, and what comes of it over a folder with the empty script `s`.
#[derive(Drop)]
struct Line {
    words: &'static str,
    status: Status,
    text: &'static str,
}

const LINES: [Line; 8] = [
    Line {
        words: "d s",
        status: Status::Done,
        text: "",
    },
    Line {
        words: "--base=0x1000 d s",
        status: Status::Done,
        text: "",
    },
    Line {
        words: "d --pages 4096 s",
        status: Status::Done,
        text: "",
    },
    Line {
        words: "-- d s",
        status: Status::Done,
        text: "",
    },
    Line {
        words: "d -- s",
        status: Status::Done,
        text: "",
    },
    Line {
        words: "d t",
        status: Status::NoScript,
        text: "no script t\n",
    },
    Line {
        words: "d ",
        status: Status::NoScript,
        text: "no script \n",
    },
    Line {
        words: "d -- --base",
        status: Status::NoScript,
        text: "no script --base\n",
    },
];

/// Command lines without a reading.
const UNREADABLE: [&str; 17] = [
    "d",
    "",
    "d s x",
    "d s s",
    "-d s",
    "d -s",
    "d s --help",
    "d s --base",
    "d s --base 0x10000001",
    "d s --base 0x0",
    "d s --base 0xA0000000",
    "d s --base 0x01000",
    "d s --base 0x1000 --base 0x1000",
    "d s --pages 15",
    "d s --pages 4097",
    "d s --pages 016",
    "d --generate 1 --seed 1",
];

fn split(alloc: Global, line: &'static str) -> Result<Vec<&'static str>, AllocError> {
    let mut words = Vec::new(alloc);
    for word in line.split(' ') {
        words.push(word)?;
    }
    Ok(words)
}

/// Sees what comes of a command line.
fn try_line(rt: &impl Abort, alloc: Global, line: &Line) -> Result<(), Fail> {
    let words = split(alloc, line.words)?;
    let (status, sink) = outcome(alloc, words.as_slice(), "", &[])?;
    assert!(rt; status == line.status, "{}", line.words);
    assert!(rt; sink.written() == line.text.as_bytes(), "{}", line.words);
    Ok(())
}

/// Generated runs. Of n crates each patches nine fields, but for the draws that name the crate itself: these
/// patch none in the old cell. A load is accepted where no earlier one has brought the crate. Both were counted
/// from the draws, by another program.
const GENERATED: [Line; 4] = [
    Line {
        words: "--generate 1 --seed 0",
        status: Status::Done,
        text: "commands 3 accepted 3 refused 0 cells 1 patched 6\n",
    },
    Line {
        words: "--generate 400 --seed 0",
        status: Status::SomeRefused,
        text: "commands 801 accepted 434 refused 367 cells 400 patched 3597\n",
    },
    Line {
        words: "--generate 400 --seed 1",
        status: Status::SomeRefused,
        text: "commands 801 accepted 426 refused 375 cells 400 patched 3597\n",
    },
    Line {
        words: "--generate 2 --seed 18446744073709551615",
        status: Status::SomeRefused,
        text: "commands 5 accepted 4 refused 1 cells 2 patched 16\n",
    },
];

/// How many crates are made at most.
const CRATES: u64 = 400;

/// How many of the draws for so many crates name the crate that they are drawn for. A draw takes the high
/// bits of a linear congruential generator.
fn own_draws(seed: u64) -> u64 {
    let mut state = seed;
    let mut own: u64 = 0;
    for number in 1..CRATES + 1 {
        for _ in 0..3 {
            state = state
                .wrapping_mul(6364136223846793005)
                .wrapping_add(1442695040888963407);
            if 1 + (state >> 33) % CRATES == number {
                own = own.saturating_add(1);
            }
        }
    }
    own
}

/// The numbers among the words of a line.
fn numbers_in(alloc: Global, line: &str) -> Result<Vec<u64>, AllocError> {
    let mut numbers = Vec::new(alloc);
    for word in line.trim_end().split(' ') {
        if let Ok(number) = word.parse::<u64>() {
            numbers.push(number)?;
        }
    }
    Ok(numbers)
}

/// Of each crate a load patches three fields, a swap three in the new cell, and one more for each draw that
/// names another crate.
#[test]
fn generated_totals(rt: HostRuntime) -> Result<(), Fail> {
    let alloc = rt.alloc();
    for seed in 0..2 {
        let last = format!(in alloc; "{seed}")?;
        let words = ["--generate", "400", "--seed", last.as_str()];
        let (status, sink) = outcome(alloc, &words, "", &[])?;
        assert!(rt; status == Status::SomeRefused, "seed {seed}");
        let text = std::str::from_utf8(sink.written()).ok().ok_or("UTF-8")?;
        let numbers = numbers_in(alloc, text)?;
        let [commands, accepted, refused, cells, patched] = numbers.as_slice() else {
            return Err(Fail::from("there are not five numbers"));
        };
        assert_eq!(rt; *commands, 2 * CRATES + 1);
        assert_eq!(rt; accepted.saturating_add(*refused), *commands);
        assert_eq!(rt; *cells, CRATES);
        assert_eq!(rt; patched.saturating_add(own_draws(seed)), 9 * CRATES);
    }
    Ok(())
}

#[test]
fn command_lines(rt: HostRuntime) -> Result<(), Fail> {
    for line in &LINES {
        try_line(&rt, rt.alloc(), line)?;
    }
    for line in &GENERATED {
        try_line(&rt, rt.alloc(), line)?;
    }
    for words in &UNREADABLE {
        let line = Line {
            words: *words,
            status: Status::Usage,
            text: USAGE,
        };
        try_line(&rt, rt.alloc(), &line)?;
    }
    try_script(&rt, rt.alloc(), &[], &[], "", Status::Usage, USAGE)
}

/// A source at the end of the memory that HI20 reaches, and what comes of it.
struct Upper {
    source: &'static str,
    status: Status,
    text: &'static str,
}

const UPPERS: [Upper; 2] = [
    // The address is 0x7ffff7ff, so its upper part is 0x7ffff: lui a0,0x7ffff.
    Upper {
        source: ".text\nlui a0,%hi(h::x)\n.data\n.zero 2047\n.globl h::x\nh::x: .byte 1",
        status: Status::Done,
        text: "1 ok load #1 patched 1\n2 ok dump #1.1\n  7fffe000 37 f5 ff 7f\n",
    },
    Upper {
        source: ".text\nlui a0,%hi(h::x)\n.data\n.zero 2048\n.globl h::x\nh::x: .byte 1",
        status: Status::SomeRefused,
        text: "1 E12 overflow #1.1+0 HI20\n2 E1 unknown 1\n",
    },
];

#[test]
fn the_end_of_the_range(rt: HostRuntime) -> Result<(), Fail> {
    let words = ["d", "s", "--base", "0x7fffe000", "--pages", "16"];
    for upper in &UPPERS {
        let file = SourceFile {
            name: "k#h.o",
            source: upper.source,
        };
        let files = object_files(rt.alloc(), &[file])?;
        let script = "load k h\ndump 1 1";
        try_script(
            &rt,
            rt.alloc(),
            &words,
            &files,
            script,
            upper.status,
            upper.text,
        )?;
    }
    Ok(())
}

/// `h` and `g` bring `i`, whose data is out of reach. The numbers of `h` come before those of `i`,
/// and of `h` the second is the first that doesn't fit; in `g` all fit.
const OUT_OF_REACH: [SourceFile; 4] = [
    SourceFile {
        name: "k#h.o",
        source: ".text\n.globl h::go\nh::go: lui a0,%hi(h::go)\nlui a0,%hi(i::y)",
    },
    SourceFile {
        name: "k#g.o",
        source: ".text\nlui a0,%hi(i::go)",
    },
    SourceFile {
        name: "k#i.o",
        source: ".text\n.globl i::go\ni::go: lui a0,%hi(i::y)\n.data\n.globl i::y\ni::y: .byte 1",
    },
    SourceFile {
        name: "k#e.o",
        source: ".data\n.quad 7",
    },
];

#[test]
fn the_first_that_does_not_fit(rt: HostRuntime) -> Result<(), Fail> {
    let files = object_files(rt.alloc(), &OUT_OF_REACH)?;
    let words = ["d", "s", "--base", "0x7fffe000", "--pages", "16"];
    let script = "load k h\nload k g\nload k e\nmap";
    let text = "1 E12 overflow #1.1+4 HI20\n\
        2 E12 overflow #2.1+0 HI20\n\
        3 ok load #1 patched 0\n\
        4 ok map\n  \
        #1 k/e attached k#e.o\n    \
        1 rw 7fffe000 8\n";
    try_script(
        &rt,
        rt.alloc(),
        &words,
        &files,
        script,
        Status::SomeRefused,
        text,
    )
}
