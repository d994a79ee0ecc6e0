//! Calls of the assembler.

use crate::images::SEVEN;
use cell_asm::AsmKind;
use cell_assemble::*;
use cell_io::{MemFile, MemHost, MemSink, RepeatHost};
use std::alloc::{AllocError, Global};
use std::test::*;

/// A call's words, between single spaces, the source `s` in the folder `d`, and what is answered and
/// written.
struct Case {
    words: &'static str,
    source: &'static str,
    status: AsStatus,
    text: &'static [u8],
}

const CASES: [Case; 5] = [
    Case {
        words: "d s",
        source: ".data\n.globl a::n\na::n: .quad 7\n",
        status: AsStatus::Done,
        text: &SEVEN,
    },
    Case {
        words: "d",
        source: "",
        status: AsStatus::Usage,
        text: b"usage: cellas DIR SOURCE\n",
    },
    Case {
        words: "d s --help",
        source: "",
        status: AsStatus::Usage,
        text: b"usage: cellas DIR SOURCE\n",
    },
    Case {
        words: "d t",
        source: "",
        status: AsStatus::NoSource,
        text: b"no source t\n",
    },
    Case {
        words: "d s",
        source: "frob",
        status: AsStatus::Fault {
            line: 1,
            kind: AsmKind::Word,
        },
        text: b"line 1: Word\n",
    },
];

/// A folder at which the calls with these numbers, from 0, fail.
fn folder(alloc: Global, source: &str, failing: &[u32]) -> Result<MemHost, AllocError> {
    let mut files = Vec::new(alloc);
    files.push(MemFile {
        dir: String::from_str(alloc, "d")?,
        name: String::from_str(alloc, "s")?,
        bytes: Vec::from_slice(alloc, source.as_bytes())?,
    })?;
    Ok(MemHost::new(files, Vec::from_slice(alloc, failing)?))
}

fn words(alloc: Global, text: &str) -> Result<Vec<String>, AllocError> {
    let mut words = Vec::new(alloc);
    for word in text.split(' ') {
        words.push(String::from_str(alloc, word)?)?;
    }
    Ok(words)
}

#[test]
fn calls(rt: HostRuntime) -> Result<(), Fail> {
    let alloc = rt.alloc();
    for case in &CASES {
        let mut host = folder(alloc, case.source, &[])?;
        let mut out = MemSink::new(alloc, 1000, Vec::new(alloc))?;
        let status = cellas(alloc, &words(alloc, case.words)?, &mut host, &mut out);
        assert_eq!(rt; status, case.status);
        assert!(rt; out.written() == case.text);
    }
    Ok(())
}

/// The first call of the host lists the folder, the second reads the source.
#[test]
fn faults_of_reading(rt: HostRuntime) -> Result<(), Fail> {
    let alloc = rt.alloc();
    for number in [0, 1] {
        let mut host = folder(alloc, "", &[number])?;
        let mut out = MemSink::new(alloc, 1000, Vec::new(alloc))?;
        let ended = cellas(alloc, &words(alloc, "d s")?, &mut host, &mut out);
        assert_eq!(rt; ended, AsStatus::ReadFault);
        assert!(rt; out.written() == b"".as_slice());
    }
    Ok(())
}

#[test]
fn a_fault_of_writing(rt: HostRuntime) -> Result<(), Fail> {
    let alloc = rt.alloc();
    let mut host = folder(alloc, "", &[])?;
    let mut out = MemSink::new(alloc, 4, Vec::new(alloc))?;
    let ended = cellas(alloc, &words(alloc, "d s")?, &mut host, &mut out);
    assert_eq!(rt; ended, AsStatus::WriteFault);
    assert!(rt; out.written() == b"\x7fELF".as_slice());
    Ok(())
}

/// So many names in the folder, and so many bytes of a comment as the source.
struct Limit {
    names: u32,
    bytes: usize,
    status: AsStatus,
    text: &'static [u8],
}

/// Each limit, and one past it.
const LIMITS: [Limit; 3] = [
    Limit {
        names: 65535,
        bytes: 1048576,
        status: AsStatus::Done,
        text: b"\x7fELF",
    },
    Limit {
        names: 65536,
        bytes: 0,
        status: AsStatus::TooManyNames,
        text: b"too many names: limit 65536\n",
    },
    Limit {
        names: 0,
        bytes: 1048577,
        status: AsStatus::TooLong,
        text: b"too long: limit 1048576\n",
    },
];

#[test]
fn limits(rt: HostRuntime) -> Result<(), Fail> {
    let alloc = rt.alloc();
    for case in &LIMITS {
        let mut host = RepeatHost {
            alloc,
            names: case.names,
            objects: 0,
            script: vec![in alloc; b'#'; case.bytes]?,
            object: Vec::new(alloc),
        };
        let mut out = MemSink::new(alloc, 1000, Vec::new(alloc))?;
        let ended = cellas(alloc, &words(alloc, "d s")?, &mut host, &mut out);
        assert_eq!(rt; ended, case.status);
        assert!(rt; out.written().starts_with(case.text));
    }
    Ok(())
}

/// Two calls, one after the other, over one host and into one sink.
#[test]
fn two_calls(rt: HostRuntime) -> Result<(), Fail> {
    let alloc = rt.alloc();
    let mut host = folder(alloc, "frob", &[])?;
    let mut out = MemSink::new(alloc, 1000, Vec::new(alloc))?;
    cellas(alloc, &words(alloc, "d t")?, &mut host, &mut out);
    cellas(alloc, &words(alloc, "d s")?, &mut host, &mut out);
    assert!(rt; out.written() == b"no source t\nline 1: Word\n".as_slice());
    Ok(())
}
