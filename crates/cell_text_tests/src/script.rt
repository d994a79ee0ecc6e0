//! What the lines of a script say.

use cell_script::*;
use std::alloc::Global;
use std::test::*;

/// The reading of a text, which is short.
pub fn read(alloc: Global, text: &[u8]) -> Result<Script, ScriptFail> {
    if text.len() > 2000 {
        return Err(ScriptFail::OutOfMemory);
    }
    read_script(alloc, text)
}

/// The line of a swap: how many items and routines it has, how many turns these may have, whether names are
/// taken over, and whether no old cell may stay.
struct Swap(&'static [u8], usize, usize, u32, bool, bool);

const SWAPS: [Swap; 12] = [
    Swap(b"swap k/a=n#a-2.o", 1, 0, 10000, false, false),
    Swap(
        b"swap  k/a=k/a=b\tn/a=~! reexport ",
        2,
        0,
        10000,
        true,
        false,
    ),
    Swap(b"swap k/reexport=reexport", 1, 0, 10000, false, false),
    Swap(b"swap k/a=b reexport strict", 1, 0, 10000, true, true),
    Swap(b"swap k/a=strict", 1, 0, 10000, false, false),
    Swap(
        b"swap k/a=b transfer f\ttransfer f",
        1,
        2,
        10000,
        false,
        false,
    ),
    Swap(
        b"swap k/a=b transfer transfer transfer transfer",
        1,
        2,
        10000,
        false,
        false,
    ),
    Swap(
        b"swap k/a=b transfer budget budget 5",
        1,
        1,
        5,
        false,
        false,
    ),
    Swap(
        b"swap k/a=b n/a=c reexport strict transfer f transfer x=y budget 0",
        2,
        2,
        0,
        true,
        true,
    ),
    Swap(
        b"swap k/a=b strict transfer reexport budget 100000",
        1,
        1,
        100000,
        false,
        true,
    ),
    Swap(b"swap k/transfer=budget", 1, 0, 10000, false, false),
    Swap(b"swap k/a=transfer transfer ~! ", 1, 1, 10000, false, false),
];

/// Whether the first line is the swap that is said of it.
fn is_swap(alloc: Global, said: &Swap) -> bool {
    let Ok(script) = read(alloc, said.0) else {
        return false;
    };
    match script.as_slice() {
        [line] => is_said(&line.command, said),
        _ => false,
    }
}

fn is_said(command: &Command, said: &Swap) -> bool {
    match command {
        Command::Swap {
            items,
            reexport,
            strict,
            routines,
            budget,
        } => {
            items.as_slice().len() == said.1
                && routines.as_slice().len() == said.2
                && *budget == said.3
                && *reexport == said.4
                && *strict == said.5
        }
        _ => false,
    }
}

#[test]
fn swaps(rt: HostRuntime) {
    for (number, said) in SWAPS.iter().enumerate() {
        assert!(rt; is_swap(rt.alloc(), said), "swap {number}");
    }
}

/// The line of a command to spawn, and its argument, where it has a reading.
struct Argument(&'static [u8], Option<u64>);

const ARGUMENTS: [Argument; 17] = [
    Argument(b"spawn k a::b 0", Some(0)),
    Argument(b"spawn k a::b 18446744073709551615", Some(u64::MAX)),
    Argument(b"spawn k a::b 18446744073709551616", None),
    Argument(b"spawn k a::b 0x0", Some(0)),
    Argument(b"spawn k a::b 0x1f", Some(31)),
    Argument(b"spawn k a::b 0xffffffffffffffff", Some(u64::MAX)),
    Argument(b"spawn k a::b 0x10000000000000000", None),
    Argument(b"spawn k a::b 0x", None),
    Argument(b"spawn k a::b 0x00", None),
    Argument(b"spawn k a::b 0x01", None),
    Argument(b"spawn k a::b 0X1", None),
    Argument(b"spawn k a::b 0xA", None),
    Argument(b"spawn k a::b 0x0x1", None),
    Argument(b"spawn k a::b 00", None),
    Argument(b"spawn k a::b 1f", None),
    Argument(b"spawn k a::b x1", None),
    Argument(b"spawn k a::b -1", None),
];

/// The argument of the task that the text spawns.
fn argument_in(alloc: Global, text: &[u8]) -> Option<u64> {
    let script = read(alloc, text).ok()?;
    match &script.as_slice().first()?.command {
        Command::Spawn { arg, .. } => Some(*arg),
        _ => None,
    }
}

#[test]
fn arguments_of_tasks(rt: HostRuntime) {
    for (number, case) in ARGUMENTS.iter().enumerate() {
        assert_eq!(rt; argument_in(rt.alloc(), case.0), case.1, "case {number}");
    }
}

/// Lines of swaps that have no reading.
const NO_SWAPS: [&[u8]; 31] = [
    b"swap k/a=b budget 5",
    b"swap k/a=b strict budget 5",
    b"swap k/a=b budget 5 transfer f",
    b"swap k/a=b transfer",
    b"swap k/a=b transfer f transfer",
    b"swap k/a=b transfer f budget",
    b"swap k/a=b transfer f budget 100001",
    b"swap k/a=b transfer f budget 05",
    b"swap k/a=b transfer f budget 0x5",
    b"swap k/a=b transfer f budget -5",
    b"swap k/a=b transfer f budget f",
    b"swap k/a=b transfer f budget 18446744073709551621",
    b"swap k/a=b transfer budget 5",
    b"swap k/a=b transfer transfer f",
    b"swap k/a=b transfer f g",
    b"swap k/a=b transfer f strict",
    b"swap k/a=b transfer f reexport",
    b"swap k/a=b strict reexport transfer f",
    b"swap k/a=b transfer f budget 5 budget 5",
    b"swap k/a=b transfer f budget 5 transfer g",
    b"swap k/a=b transfer f budget 5 strict",
    b"swap k/a=b transfer f budget 5 5",
    b"swap k/a=b transfer f budget 5\r",
    b"swap k/a=b transfer \x7f",
    b"swap k/a=b transfer \xc3\xa9",
    b"swap k/a=b transfer f transfer \x7f",
    b"swap k/a=b Transfer f",
    b"swap k/a=b transfer f Budget 5",
    b"swap k/a=b transfer f k/b=c",
    b"swap transfer f",
    b"swap transfer f k/a=b",
];

/// Whether the first line of the text has no reading.
fn is_bad(alloc: Global, text: &[u8]) -> bool {
    matches!(read(alloc, text), Err(ScriptFail::Bad { line: 1 }))
}

#[test]
fn swaps_without_a_reading(rt: HostRuntime) {
    for (number, text) in NO_SWAPS.iter().enumerate() {
        assert!(rt; is_bad(rt.alloc(), *text), "text {number}");
    }
}

#[test]
fn long_routines(rt: HostRuntime) {
    let mut text = [b'a'; 1045];
    text[..20].copy_from_slice(b"swap k/a=b transfer ");
    assert!(rt; read(rt.alloc(), &text[..1044]).is_ok());
    assert!(rt; is_bad(rt.alloc(), &text));
}
