//! A file whose sections stand in another order than ours, with more than is loaded.

use crate::cases::try_script;
use crate::crowded::CROWDED;
use crate::folder::ObjectFile;
use crate::sources::{SourceFile, object_file};
use cell_run::Status;
use std::test::Fail;

const CALLED: SourceFile = SourceFile {
    name: "k#o.o",
    source: ".text\n.globl o::f\no::f: li a0,1\nret",
};

/// Empty sections stand at the start of their class, which has a page.
const TEXT: &str = "1 ok load #1 #2 patched 1\n\
    2 ok map\n  \
    #1 k/m attached k#m.o\n    \
    1 rx 10000000 24\n    \
    3 rw 10001000 0\n    \
    4 rw 10001000 0\n  \
    #2 k/o attached k#o.o\n    \
    1 rx 10002000 8\n";

#[test]
fn sections_that_nothing_uses(rt: HostRuntime) -> Result<(), Fail> {
    let caller = ObjectFile {
        name: "k#m.o",
        bytes: Vec::from_slice(rt.alloc(), &CROWDED)?,
    };
    let files = [caller, object_file(rt.alloc(), &CALLED)?];
    let script = "load k m\nmap\n";
    try_script(
        &rt,
        rt.alloc(),
        &["d", "s"],
        &files,
        script,
        Status::Done,
        TEXT,
    )
}
