//! How the lines of a dump are written.

use cell_dumped::*;
use cell_num::{Bytes, Name};
use cell_world::{DumpLine, Part};
use std::alloc::{AllocError, Global};
use std::test::*;

/// A line, and its text.
#[derive(Drop)]
struct Written {
    line: DumpLine,
    text: &'static [u8],
}

fn said(line: DumpLine, text: &'static [u8]) -> Written {
    Written { line, text }
}

fn part(cell: u64, section: u64) -> Part {
    Part { cell, section }
}

/// The space, namespaces and cells.
fn first_lines(alloc: Global) -> Result<Vec<Written>, AllocError> {
    let space = DumpLine::Space {
        base: 0x1000_0000,
        pages: 1024,
    };
    let kernel = DumpLine::Ns {
        number: 0,
        name: Name::of(alloc, b"k")?,
        parent: None,
    };
    let below = DumpLine::Ns {
        number: 2,
        name: Name::of(alloc, b"user")?,
        parent: Some(1),
    };
    let attached = DumpLine::Cell {
        cell: 1,
        ns: 0,
        stem: Name::of(alloc, b"a")?,
        file: Name::of(alloc, b"k#a.o")?,
        group: None,
    };
    let put_aside = DumpLine::Cell {
        cell: 65535,
        ns: 2,
        stem: Name::of(alloc, b"b-2")?,
        file: Name::of(alloc, b"n#b-2.o")?,
        group: Some(13),
    };
    Ok(vec![in alloc;
        said(space, b"space 10000000 1024"),
        said(kernel, b"ns 0 k -"),
        said(below, b"ns 2 user 1"),
        said(attached, b"cell 1 0 a k#a.o attached"),
        said(put_aside, b"cell 65535 2 b-2 n#b-2.o group 13"),
    ]?)
}

/// What belongs to cells.
fn other_lines(alloc: Global) -> Result<Vec<Written>, AllocError> {
    let place = DumpLine::Place {
        cell: 1,
        section: 2,
        start: 0xabc0,
    };
    let alias = DumpLine::Alias {
        cell: 1,
        symbol: 0,
        name: Name::of(alloc, b"a::n")?,
    };
    let link = DumpLine::Link {
        user: part(2, 1),
        entry: 10,
        target: part(1, 12),
    };
    let provider = DumpLine::Provider {
        ns: 0,
        name: Name::of(alloc, b"b::p")?,
        at: part(2, 1),
        offset: 0x1f,
    };
    let content = DumpLine::Content {
        at: part(2, 1),
        addr: 0x1000_1000,
        bytes: Bytes::from_vec(Vec::from_slice(alloc, b"\x04\x00\xff\x1a")?),
    };
    Ok(vec![in alloc;
        said(place, b"place 1 2 abc0"),
        said(alias, b"alias 1 0 a::n"),
        said(link, b"link 2.1 10 1.12"),
        said(provider, b"name 0 b::p 2.1+1f"),
        said(content, b"bytes 2.1 10001000 0400ff1a"),
        said(DumpLine::End, b"end"),
    ]?)
}

/// The number of the first line that isn't written so.
fn first_wrong(alloc: Global, cases: &[Written]) -> Result<Option<usize>, AllocError> {
    let mut text = Vec::new(alloc);
    for (number, case) in cases.iter().enumerate() {
        text.clear();
        put_line(&mut text, &case.line)?;
        if text.as_slice() != case.text {
            return Ok(Some(number));
        }
    }
    Ok(None)
}

#[test]
fn lines_as_text(rt: HostRuntime) -> Result<(), Fail> {
    let alloc = rt.alloc();
    let first = first_lines(alloc)?;
    assert_eq!(rt; first_wrong(alloc, &first)?, None);
    let others = other_lines(alloc)?;
    assert_eq!(rt; first_wrong(alloc, &others)?, None);
    Ok(())
}
