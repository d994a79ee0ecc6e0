//! Dumps that are read, and damaged ones.

use cell_audit::*;
use std::alloc::{AllocError, Global};
use std::test::*;

/// Two cells, of which the second has a pointer to the number of the first.
const DUMP: &str = "1 ok load #1 patched 0
2 ok load #2 patched 1
3 ok dumpall
  space 10000000 1024
  ns 0 k -
  cell 1 0 a k#a.o attached
  place 1 1 10000000
  cell 2 0 b k#b.o attached
  place 2 1 10001000
  link 2.1 0 1.1
  name 0 a::n 1.1+0
  name 0 b::p 2.1+0
  bytes 1.1 10000000 0700000000000000
  bytes 2.1 10001000 04000010000000000100000000000000
  end
";

/// The dump with other words at the first place where these stand.
fn edited(alloc: Global, old: &str, new: &str) -> Result<String, AllocError> {
    match DUMP.split_once(old) {
        Some((before, behind)) => format!(in alloc; "{before}{new}{behind}"),
        None => format!(in alloc; ""),
    }
}

/// What the text says, which is short.
fn read(alloc: Global, text: &str) -> Result<WrittenDump, AuditFail> {
    let file = text.as_bytes();
    if file.len() > 2000 {
        return Err(AuditFail::OutOfMemory);
    }
    read_dump(alloc, file)
}

#[test]
fn the_lines_are_kept(rt: HostRuntime) {
    let Ok(dump) = read(rt.alloc(), DUMP) else {
        panic!(rt; "not read");
    };
    assert_eq!(rt; (dump.base, dump.pages), (0x1000_0000, 1024));
    assert!(rt; dump.namespaces.len() == 1 && dump.namespaces[0].name.bytes() == b"k".as_slice());
    assert_eq!(rt; dump.cells.len(), 2);
    let b = &dump.cells[1];
    assert_eq!(rt; (b.line, b.cell, b.ns, b.group), (8, 2, 0, None));
    assert!(rt; b.stem.bytes() == b"b".as_slice() && b.file.bytes() == b"k#b.o".as_slice());
    let place = WrittenPlace {
        line: 9,
        section: 1,
        start: 0x1000_1000,
    };
    assert!(rt; b.places.as_slice() == [place].as_slice() && b.aliases.is_empty());
    assert_eq!(rt; dump.told.at(0x1000_0000), 7);
    assert_eq!(rt; dump.told.at(0x1000_1003), 0x10);
    assert_eq!(rt; dump.told.at(0x1000_1010), 0);
}

#[test]
fn a_name_stands_in_the_file(rt: HostRuntime) -> Result<(), Fail> {
    let text = edited(rt.alloc(), "  cell 2", "  alias 1 3 c::m\n  cell 2")?;
    let Ok(dump) = read(rt.alloc(), text.as_str()) else {
        panic!(rt; "not read");
    };
    assert_eq!(rt; dump.cells.len(), 2);
    assert_eq!(rt; dump.cells[0].aliases.len(), 1);
    let alias = &dump.cells[0].aliases[0];
    assert_eq!(rt; (alias.line, alias.symbol.get()), (8, 3));
    let name = text
        .as_bytes()
        .get(alias.name_start as usize..alias.name_end as usize);
    assert!(rt; name == Some(b"c::m".as_slice()));
    Ok(())
}

/// A line of bytes before the others, an address, and the byte that is told of it.
struct Byte(&'static str, u64, u8);

const BYTES: [Byte; 4] = [
    Byte("  bytes 2.1 fffffff ff08\n  bytes 1.1", 0x1000_0000, 8),
    Byte("  bytes 2.1 10000001 08\n  bytes 1.1", 0x1000_0000, 7),
    Byte(
        "  bytes 2.1 ffffffffffffffff 0809\n  bytes 1.1",
        0x1000_0000,
        7,
    ),
    Byte("  bytes 2.1 103fffff 0809\n  bytes 1.1", 0x103f_ffff, 8),
];

#[test]
fn the_first_line_counts(rt: HostRuntime) -> Result<(), Fail> {
    for (number, byte) in BYTES.iter().enumerate() {
        let text = edited(rt.alloc(), "  bytes 1.1", byte.0)?;
        let Ok(dump) = read(rt.alloc(), text.as_str()) else {
            panic!(rt; "case {number} is not read");
        };
        assert_eq!(rt; dump.told.at(byte.1), byte.2, "case {number}");
    }
    Ok(())
}

/// What stands in the dump, what stands there instead, and the line that can't be read then.
struct Case(&'static str, &'static str, u32);

const CASES: [Case; 16] = [
    // A link before the cells.
    Case("  ns 0 k -\n", "  ns 0 k -\n  link 2.1 0 1.1\n", 7),
    // No namespace.
    Case("  ns 0 k -\n", "", 5),
    // A parent that isn't a lower number.
    Case("  ns 0 k -\n", "  ns 0 k -\n  ns 1 u 1\n", 6),
    Case("place 1 1 ", "place 1 01 ", 7),
    Case("cell 1 0 a", "cell 1  0 a", 6),
    Case("cell 1 0 a", "cell 0 0 a", 6),
    // A namespace that isn't there.
    Case("cell 1 0 a", "cell 1 1 a", 6),
    Case("  cell 1 0 a", " cell 1 0 a", 6),
    // 65 bytes.
    Case(
        "0700000000000000",
        "0000000000000000000000000000000000000000000000000000000000000000000000000000000000000000000000000000000000000000000000000000000000",
        13,
    ),
    // A cell number twice.
    Case("cell 2 0 b", "cell 1 0 b", 8),
    // A place of another cell.
    Case("place 2 1", "place 1 1", 9),
    // A place behind an alias.
    Case("  place 1 1", "  alias 1 0 c::m\n  place 1 1", 8),
    // 2^64.
    Case("link 2.1 0", "link 2.1 18446744073709551616", 10),
    Case("space 10000000", "space 10000800", 4),
    // No end, and no beginning.
    Case("  end\n", "", 0),
    Case("3 ok dumpall", "03 ok dumpall", 0),
];

/// The line that can't be read.
fn unread_line(alloc: Global, text: &str) -> Option<u32> {
    match read(alloc, text) {
        Err(AuditFail::Unreadable { line }) => Some(line),
        _ => None,
    }
}

#[test]
fn damaged_dumps(rt: HostRuntime) -> Result<(), Fail> {
    for (number, case) in CASES.iter().enumerate() {
        let text = edited(rt.alloc(), case.0, case.1)?;
        assert_eq!(rt;
            unread_line(rt.alloc(), text.as_str()),
            Some(case.2),
            "case {number}"
        );
    }
    Ok(())
}
