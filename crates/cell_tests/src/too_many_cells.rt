//! More cells than there may be, by a load and by a swap.

use crate::repeated::outcome;
use cell_run::Status;
use std::alloc::{AllocError, Global};
use std::test::Fail;

/// Adds a swap of the cells of lower numbers than `end`, each for a new one of its own file.
fn add_swap(script: &mut String, end: u32) -> Result<(), AllocError> {
    let alloc = *script.allocator();
    script.push_str("swap")?;
    for number in 1..end {
        script.push_str(format!(in alloc; " k/c{number}=k#c{number}.o")?.as_str())?;
    }
    script.push_str("\n")
}

/// Loads of 513 crates, a swap of all of them, an unload of the last one, and a swap of the others.
fn crowd(alloc: Global) -> Result<String, AllocError> {
    let mut script = String::new(alloc);
    for number in 1..514 {
        script.push_str(format!(in alloc; "load k c{number}\n")?.as_str())?;
    }
    add_swap(&mut script, 514)?;
    script.push_str("unload k/c513\n")?;
    add_swap(&mut script, 513)?;
    Ok(script)
}

/// Loads of 1024 crates, and of the first of them again.
fn loads(alloc: Global) -> Result<String, AllocError> {
    let mut script = String::new(alloc);
    for number in 1..1025 {
        script.push_str(format!(in alloc; "load k c{number}\n")?.as_str())?;
    }
    script.push_str("load k c1\n")?;
    Ok(script)
}

/// The limit is asked before the stem.
#[test]
fn by_a_load(rt: HostRuntime) -> Result<(), Fail> {
    let alloc = rt.alloc();
    let (status, sink) = outcome(alloc, 1024, "", loads(alloc)?, 40000)?;
    let text = std::str::from_utf8(sink.written()).ok().ok_or("UTF-8")?;
    let end = "\n1024 ok load #1024 patched 0\n1025 E4 too-many cells 1024\n";
    assert!(rt; text.ends_with(end), "{text}");
    assert_eq!(rt; status, Status::SomeRefused);
    Ok(())
}

/// Old and new cells are counted together.
#[test]
fn by_a_swap(rt: HostRuntime) -> Result<(), Fail> {
    let alloc = rt.alloc();
    let (status, sink) = outcome(alloc, 513, "", crowd(alloc)?, 30000)?;
    let text = std::str::from_utf8(sink.written()).ok().ok_or("UTF-8")?;
    let refused =
        "\n514 E4 too-many cells 1024\n515 ok unload removed #513\n516 ok swap 1 new #514 #515 ";
    assert!(rt; text.contains(refused), "{text}");
    let done = " #1024 #1025 patched 0 removed #1 #2 ";
    assert!(rt; text.contains(done), "{text}");
    assert!(rt; text.ends_with(" #511 #512 kept -\n"), "{text}");
    assert_eq!(rt; status, Status::SomeRefused);
    Ok(())
}
