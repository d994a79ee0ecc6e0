//! Whole audits: of a dump that is clean, and of some that were changed.

ghost use Rattle.std.specs.Prelude.{◌≤◌, All, length};
ghost use Rattle.cell_num.specs.Limits.{max_file_bytes};

use crate::files::whole_depot;
use cell_audit::AuditFail;
use cell_compared::audit;
use cell_depot::Depot;
use std::alloc::Global;
use std::test::*;

/// A dump of one cell, and the line of the first fault, if there is one.
struct Case(&'static str, Option<u32>);

const CASES: [Case; 6] = [
    Case(
        "1 ok dumpall\n  space 10000 16\n  ns 0 k -\n  cell 1 0 a k#a.o attached\n  place 1 1 10000\n  place 1 2 11000\n  name 0 a::go 1.1+0\n  bytes 1.1 10000 67800000\n  bytes 1.2 11000 0700000000000000\n  end\n",
        None,
    ),
    // what may be written need not be as it was
    Case(
        "1 ok dumpall\n  space 10000 16\n  ns 0 k -\n  cell 1 0 a k#a.o attached\n  place 1 1 10000\n  place 1 2 11000\n  name 0 a::go 1.1+0\n  bytes 1.1 10000 67800000\n  bytes 1.2 11000 0800000000000000\n  end\n",
        None,
    ),
    // code must
    Case(
        "1 ok dumpall\n  space 10000 16\n  ns 0 k -\n  cell 1 0 a k#a.o attached\n  place 1 1 10000\n  place 1 2 11000\n  name 0 a::go 1.1+0\n  bytes 1.1 10000 67800001\n  bytes 1.2 11000 0700000000000000\n  end\n",
        Some(8),
    ),
    // a name that isn't there
    Case(
        "1 ok dumpall\n  space 10000 16\n  ns 0 k -\n  cell 1 0 a k#a.o attached\n  place 1 1 10000\n  place 1 2 11000\n  name 0 a::go 1.1+4\n  bytes 1.1 10000 67800000\n  bytes 1.2 11000 0700000000000000\n  end\n",
        Some(7),
    ),
    // a place that is not aligned
    Case(
        "1 ok dumpall\n  space 10000 16\n  ns 0 k -\n  cell 1 0 a k#a.o attached\n  place 1 1 10000\n  place 1 2 11004\n  end\n",
        Some(6),
    ),
    // no end
    Case("1 ok dumpall\n  space 10000 16\n  ns 0 k -\n", Some(0)),
];

/// The line of the fault, if there is one.
fn fault_line(alloc: Global, dump: &[u8], depot: &Depot) -> Result<Option<u32>, Fail>
    requires { All (λ f. length f.bytes ≤ max_file_bytes) depot.now }
{
    if dump.len() > u32::MAX as usize {
        return Err("too long".into());
    }
    match audit(alloc, dump, depot) {
        Ok(()) => Ok(None),
        Err(AuditFail::Unreadable { line }) => Ok(Some(line)),
        Err(AuditFail::NoObject { line }) => Ok(Some(line)),
        Err(AuditFail::Misplaced { line }) => Ok(Some(line)),
        Err(AuditFail::Unlinked { line, .. }) => Ok(Some(line)),
        Err(AuditFail::Differs { line, .. }) => Ok(Some(line)),
        Err(AuditFail::OutOfMemory) => Err("no memory".into()),
    }
}

#[test]
fn audits(rt: HostRuntime) -> Result<(), Fail> {
    let alloc = rt.alloc();
    let depot = whole_depot(alloc)?;
    for case in &CASES {
        let line = fault_line(alloc, case.0.as_bytes(), &depot)?;
        assert!(rt; line == case.1, "{dump}", dump = case.0);
    }
    Ok(())
}
