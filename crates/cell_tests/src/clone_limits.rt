//! Clones until there is no namespace, no cell or no number more.

use crate::folder::outcome_within;
use crate::numbers::NINE;
use crate::repeated::add_times;
use crate::sources::{SourceFile, object_files};
use cell_run::Status;
use std::alloc::{AllocError, Global};
use std::process::Abort;
use std::test::Fail;

/// Five crates of a namespace below `k`, and nine of `k`, each without a section.
static CRATES: [SourceFile; 14] = [
    SourceFile {
        name: "u#a.o",
        source: "",
    },
    SourceFile {
        name: "u#b.o",
        source: "",
    },
    SourceFile {
        name: "u#c.o",
        source: "",
    },
    SourceFile {
        name: "u#d.o",
        source: "",
    },
    SourceFile {
        name: "u#e.o",
        source: "",
    },
    SourceFile {
        name: "k#c1.o",
        source: "",
    },
    SourceFile {
        name: "k#c2.o",
        source: "",
    },
    SourceFile {
        name: "k#c3.o",
        source: "",
    },
    SourceFile {
        name: "k#c4.o",
        source: "",
    },
    SourceFile {
        name: "k#c5.o",
        source: "",
    },
    SourceFile {
        name: "k#c6.o",
        source: "",
    },
    SourceFile {
        name: "k#c7.o",
        source: "",
    },
    SourceFile {
        name: "k#c8.o",
        source: "",
    },
    SourceFile {
        name: "k#c9.o",
        source: "",
    },
];

/// So many clones of a namespace, each by a name of its own.
fn add_clones(script: &mut String, count: u32) -> Result<(), AllocError> {
    let alloc = *script.allocator();
    for number in 0..count {
        script.push_str(format!(in alloc; "clone u as n{number}\n")?.as_str())?;
    }
    Ok(())
}

/// A namespace, 254 clones of it, and one more.
fn namespaces(alloc: Global) -> Result<String, AllocError> {
    let mut script = String::from_str(alloc, "ns u under k\n")?;
    add_clones(&mut script, 255)?;
    script.push_str("clone u as u\nclone k as u\n")?;
    Ok(script)
}

/// Five crates and clones of them all: the 204th would bring a cell too many. It brings none, and no namespace. Of four
/// crates another one brings the last ones that there may be.
fn crowd(alloc: Global) -> Result<String, AllocError> {
    let mut script = String::from_str(
        alloc,
        "ns u under k\nload u a\nload u b\nload u c\nload u d\nload u e\n",
    )?;
    add_clones(&mut script, 204)?;
    script.push_str("ns n203 under k\nload k c1\nunload u/a\nclone u as n204\n")?;
    Ok(script)
}

/// Two cells of `u`, and then 7,281 times nine that come in `k` and go, and three more: so there is a number for the copy
/// of the first, and none for that of the second.
fn numbers(alloc: Global) -> Result<String, AllocError> {
    let mut script = String::from_str(alloc, "ns u under k\nload u a\nload u b\n")?;
    add_times(&mut script, 7281, NINE)?;
    script.push_str("load k c1\nload k c2\nload k c3\nclone u as v\nns v under k\n")?;
    Ok(script)
}

/// What the script ends with.
fn ends(rt: &impl Abort, script: String, room: usize, end: &str) -> Result<(), Fail> {
    let alloc = *script.allocator();
    let files = object_files(alloc, &CRATES)?;
    let (status, sink) = outcome_within(alloc, room, &["d", "s"], script.as_str(), &files)?;
    let text = std::str::from_utf8(sink.written()).ok().ok_or("UTF-8")?;
    assert!(rt; text.ends_with(end), "{end}");
    assert_eq!(rt; status, Status::SomeRefused);
    Ok(())
}

/// `k` has no sibling, also where there are too many namespaces, and a name is taken first.
#[test]
fn a_clone_too_many(rt: HostRuntime) -> Result<(), Fail> {
    let end = "\n255 ok clone n253 - patched 0\n256 E4 too-many namespaces 256\n257 E2 taken u\n\
        258 E18 no-parent k\n";
    ends(&rt, namespaces(rt.alloc())?, 10000, end)
}

#[test]
fn too_many_copies(rt: HostRuntime) -> Result<(), Fail> {
    let end = "\n209 ok clone n202 #1016 #1017 #1018 #1019 #1020 patched 0\n\
        210 E4 too-many cells 1024\n211 ok ns n203\n212 ok load #1021 patched 0\n\
        213 ok unload removed #1\n214 ok clone n204 #1022 #1023 #1024 #1025 patched 0\n";
    ends(&rt, crowd(rt.alloc())?, 40000, end)
}

#[test]
fn a_copy_without_a_number(rt: HostRuntime) -> Result<(), Fail> {
    let end = "\n72816 ok load #65534 patched 0\n72817 E4 too-many cell-numbers 65535\n\
        72818 ok ns v\n";
    ends(&rt, numbers(rt.alloc())?, 4000000, end)
}
