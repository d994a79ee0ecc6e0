//! Dumps of machines with weak holders, of which one line was changed by hand, and what the audit says of each.

use crate::damaged::{Damage, try_damages};
use crate::sources::{SourceFile, object_files};
use cell_verdict::AuditStatus;
use std::test::Fail;

/// A default with a word that leads to its name, and the crate that has the name for good.
static YIELDING: [SourceFile; 2] = [
    SourceFile {
        name: "k#d.o",
        source: ".rodata\n.weak x::v\nx::v: .quad 1\n.quad x::v",
    },
    SourceFile {
        name: "k#x.o",
        source: ".rodata\n.globl x::v\nx::v: .quad 3",
    },
];

/// Lines 4 to 14 have the space, the namespace, two cells of a place each, a link, a name and the bytes of two sections.
const OF_YIELDING: [Damage; 7] = [
    Damage {
        line: 1,
        text: "whatever stands before it",
        status: AuditStatus::Clean,
        said: "ok\n",
    },
    // The default is on a symbol that an alias may not be on.
    Damage {
        line: 7,
        text: "  place 1 1 10000000\n  alias 1 0 z",
        status: AuditStatus::Fault,
        said: "A3 misplaced line 8\n",
    },
    // Nobody has the name for good then.
    Damage {
        line: 8,
        text: "  cell 2 0 x k#x.o group 1",
        status: AuditStatus::Fault,
        said: "A5 differs line 10\n  held link 1.1 0 2.1\n  fresh link 1.1 0 1.1\n",
    },
    // So it is where somebody has it whom the cell doesn't see.
    Damage {
        line: 5,
        text: "  ns 0 k -\n  ns 1 u 0\n  cell 1 0 d k#d.o attached\n  place 1 1 10000000\n  \
            cell 2 1 x k#x.o attached\n  place 2 1 10001000\n  link 1.1 0 2.1\n  end",
        status: AuditStatus::Fault,
        said: "A5 differs line 11\n  held link 1.1 0 2.1\n  fresh link 1.1 0 1.1\n",
    },
    Damage {
        line: 10,
        text: "  link 1.1 0 1.1",
        status: AuditStatus::Fault,
        said: "A5 differs line 10\n  held link 1.1 0 1.1\n  fresh link 1.1 0 2.1\n",
    },
    Damage {
        line: 11,
        text: "  name 0 x::v 1.1+0",
        status: AuditStatus::Fault,
        said: "A5 differs line 11\n  held name 0 x::v 1.1+0\n  fresh name 0 x::v 2.1+0\n",
    },
    // The address of its own.
    Damage {
        line: 12,
        text: "  bytes 1.1 10000000 01000000000000000000001000000000",
        status: AuditStatus::Fault,
        said: "A5 differs line 12\n  \
            held bytes 1.1 10000000 01000000000000000000001000000000\n  \
            fresh bytes 1.1 10000000 01000000000000000010001000000000\n",
    },
];

/// A word that is 0 where nobody has its name, and a default that stands in another file.
static OPTIONAL: [SourceFile; 2] = [
    SourceFile {
        name: "k#o.o",
        source: ".rodata\n.weak x::v\n.quad x::v",
    },
    SourceFile {
        name: "k#d.o",
        source: ".rodata\n.weak x::v\nx::v: .quad 1",
    },
];

/// Lines 3 to 8 have the space, the namespace, a cell of one place, and the bytes of a section.
const OF_OPTIONAL: [Damage; 3] = [
    Damage {
        line: 7,
        text: "  link 1.1 0 1.1\n  bytes 1.1 10000000 0000000000000000",
        status: AuditStatus::Fault,
        said: "A5 differs line 7\n  held link 1.1 0 1.1\n  fresh bytes 1.1 10000000 0000000000000000\n",
    },
    Damage {
        line: 7,
        text: "  bytes 1.1 10000000 0000001000000000",
        status: AuditStatus::Fault,
        said: "A5 differs line 7\n  held bytes 1.1 10000000 0000001000000000\n  \
            fresh bytes 1.1 10000000 0000000000000000\n",
    },
    // With the default beside it, it leads there. A default has no line of its own among the names.
    Damage {
        line: 6,
        text: "  place 1 1 10000000\n  cell 2 0 d k#d.o attached\n  place 2 1 10001000\n  link 1.1 0 2.1\n  \
            bytes 1.1 10000000 0010001000000000\n  bytes 2.1 10001000 0100000000000000\n  end",
        status: AuditStatus::Clean,
        said: "ok\n",
    },
];

#[test]
fn weak_dumps(rt: HostRuntime) -> Result<(), Fail> {
    let yielding = object_files(rt.alloc(), &YIELDING)?;
    try_damages(
        &rt,
        rt.alloc(),
        &yielding,
        "load k d\nload k x\ndumpall\n",
        &OF_YIELDING,
    )?;
    let optional = object_files(rt.alloc(), &OPTIONAL)?;
    try_damages(
        &rt,
        rt.alloc(),
        &optional,
        "load k o\ndumpall\n",
        &OF_OPTIONAL,
    )?;
    Ok(())
}
