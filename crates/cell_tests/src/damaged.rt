//! Dumps of which one line was changed by hand, and what the audit says of each.

use crate::audited::audit_of;
use crate::folder::{ObjectFile, outcome};
use crate::samples::{POINTER, SEVEN};
use cell_verdict::AuditStatus;
use std::alloc::{AllocError, Global};
use std::process::Abort;
use std::test::*;

const SCRIPT: &str = "load k a\nload k b\ndumpall\n";

/// The text that stands in place of a line of the transcript, and what is said then.
pub struct Damage {
    pub line: usize,
    pub text: &'static str,
    pub status: AuditStatus,
    pub said: &'static str,
}

const DAMAGES: [Damage; 25] = [
    Damage {
        line: 1,
        text: "whatever stands before it",
        status: AuditStatus::Clean,
        said: "ok\n",
    },
    Damage {
        line: 3,
        text: "3 ok dump #1.1",
        status: AuditStatus::Fault,
        said: "A1 unreadable line 0\n",
    },
    Damage {
        line: 3,
        text: "03 ok dumpall",
        status: AuditStatus::Fault,
        said: "A1 unreadable line 0\n",
    },
    Damage {
        line: 4,
        text: "  space 10000000 32",
        status: AuditStatus::Clean,
        said: "ok\n",
    },
    Damage {
        line: 4,
        text: "  space 10000800 16",
        status: AuditStatus::Fault,
        said: "A1 unreadable line 4\n",
    },
    Damage {
        line: 4,
        text: "  space 10000000 016",
        status: AuditStatus::Fault,
        said: "A1 unreadable line 4\n",
    },
    Damage {
        line: 5,
        text: "  ns 0 q -",
        status: AuditStatus::Fault,
        said: "A1 unreadable line 5\n",
    },
    Damage {
        line: 6,
        text: "  cell 1 0 a k#c.o attached",
        status: AuditStatus::Fault,
        said: "A2 no-object line 6\n",
    },
    // Nobody provides `a::n` then.
    Damage {
        line: 6,
        text: "  cell 1 0 a k#a.o group 1",
        status: AuditStatus::Fault,
        said: "A4 unlinked line 8 entry 0\n",
    },
    Damage {
        line: 6,
        text: "  cell 1 1 a k#a.o attached",
        status: AuditStatus::Fault,
        said: "A1 unreadable line 6\n",
    },
    Damage {
        line: 7,
        text: "  place 1 1 10000004",
        status: AuditStatus::Fault,
        said: "A3 misplaced line 7\n",
    },
    Damage {
        line: 8,
        text: "  cell 1 0 b k#b.o attached",
        status: AuditStatus::Fault,
        said: "A1 unreadable line 8\n",
    },
    // Another section than the object has.
    Damage {
        line: 9,
        text: "  place 2 2 10001000",
        status: AuditStatus::Fault,
        said: "A3 misplaced line 8\n",
    },
    // On the bytes of `a`.
    Damage {
        line: 9,
        text: "  place 2 1 10000000",
        status: AuditStatus::Fault,
        said: "A3 misplaced line 9\n",
    },
    // Half of it behind the end of the space.
    Damage {
        line: 9,
        text: "  place 2 1 1000fff8",
        status: AuditStatus::Fault,
        said: "A3 misplaced line 9\n",
    },
    // An alias on a name that `b` needs and doesn't define.
    Damage {
        line: 9,
        text: "  place 2 1 10001000\n  alias 2 1 z",
        status: AuditStatus::Fault,
        said: "A3 misplaced line 10\n",
    },
    // One that it defines: the alias has a provider of its own then.
    Damage {
        line: 9,
        text: "  place 2 1 10001000\n  alias 2 0 z",
        status: AuditStatus::Fault,
        said: "A5 differs line 14\n  held bytes 1.1 10000000 0700000000000000\n  fresh name 0 z 2.1+0\n",
    },
    Damage {
        line: 10,
        text: "  link 2.1 0 2.1",
        status: AuditStatus::Fault,
        said: "A5 differs line 10\n  held link 2.1 0 2.1\n  fresh link 2.1 0 1.1\n",
    },
    Damage {
        line: 10,
        text: "  link 2.1 0 1.1\n  link 2.1 1 1.1",
        status: AuditStatus::Fault,
        said: "A5 differs line 11\n  held link 2.1 1 1.1\n  fresh name 0 a::n 1.1+0\n",
    },
    Damage {
        line: 12,
        text: "  name 0 b::p 2.1+4",
        status: AuditStatus::Fault,
        said: "A5 differs line 12\n  held name 0 b::p 2.1+4\n  fresh name 0 b::p 2.1+0\n",
    },
    // A byte that tasks may write.
    Damage {
        line: 13,
        text: "  bytes 1.1 10000000 0600000000000000",
        status: AuditStatus::Clean,
        said: "ok\n",
    },
    Damage {
        line: 14,
        text: "  bytes 2.1 10001000 05000010000000000100000000000000",
        status: AuditStatus::Fault,
        said: "A5 differs line 14\n  \
            held bytes 2.1 10001000 05000010000000000100000000000000\n  \
            fresh bytes 2.1 10001000 04000010000000000100000000000000\n",
    },
    Damage {
        line: 14,
        text: "  bytes 2.1 10001000 0400001000000000010000000000000",
        status: AuditStatus::Fault,
        said: "A1 unreadable line 14\n",
    },
    Damage {
        line: 14,
        text: "  bytes 2.1 10001000 0400001000000000",
        status: AuditStatus::Fault,
        said: "A5 differs line 14\n  \
            held bytes 2.1 10001000 0400001000000000\n  \
            fresh bytes 2.1 10001000 04000010000000000100000000000000\n",
    },
    Damage {
        line: 15,
        text: "  the end",
        status: AuditStatus::Fault,
        said: "A1 unreadable line 0\n",
    },
];

/// The text with another one in place of the line of that number, from 1 on.
fn with_line(alloc: Global, text: &str, line: usize, other: &str) -> Result<String, AllocError> {
    let mut all = String::new(alloc);
    for (place, held) in text.lines().enumerate() {
        all.push_str(if place + 1 == line { other } else { held })?;
        all.push_str("\n")?;
    }
    Ok(all)
}

/// Has the dump that a script ends with audited with each damage, in 16 pages.
pub fn try_damages(
    rt: &impl Abort,
    alloc: Global,
    files: &[ObjectFile],
    script: &str,
    damages: &[Damage],
) -> Result<(), Fail> {
    let (_, whole) = outcome(alloc, &["d", "s", "--pages", "16"], script, files)?;
    let whole = std::str::from_utf8(whole.written()).ok().ok_or("UTF-8")?;
    for damage in damages {
        let dump = with_line(alloc, whole, damage.line, damage.text)?;
        let (status, sink) = audit_of(alloc, &dump, files)?;
        let said = std::str::from_utf8(sink.written()).ok().ok_or("UTF-8")?;
        assert!(rt; said == damage.said, "{} gave {said}", damage.text);
        assert!(rt; status == damage.status, "{} gave {status:?}", damage.text);
    }
    Ok(())
}

#[test]
fn damaged_dumps(rt: HostRuntime) -> Result<(), Fail> {
    let alloc = rt.alloc();
    let files = [
        ObjectFile {
            name: "k#a.o",
            bytes: SEVEN.image(alloc)?,
        },
        ObjectFile {
            name: "k#b.o",
            bytes: POINTER.image(alloc)?,
        },
    ];
    try_damages(&rt, alloc, &files, SCRIPT, &DAMAGES)
}
