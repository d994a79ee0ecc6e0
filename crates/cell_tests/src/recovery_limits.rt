//! Recoveries for which there are too many cells, or no numbers are left for cells.

use crate::repeated::{add_times, outcome, outcome_with};
use cell_run::Status;
use std::alloc::{AllocError, Global};
use std::test::Fail;

/// A crate that is trapped. It holds its name weakly, so many of them stand side by side.
const TRAPPED: &str = ".text\n.weak f\nf: ebreak";

/// 1,024 crates, in the first of which a task is trapped. It begins again once there are fewer, in the next one
/// that has the name.
fn crowd(alloc: Global) -> Result<String, AllocError> {
    let mut script = String::new(alloc);
    for number in 1..1025 {
        script.push_str(format!(in alloc; "load k c{number}\n")?.as_str())?;
    }
    script.push_str(
        "spawn k f 0\nstep 1 1\nrecover 1\nrebuild 1\ntasks\nunload k/c1024\nrecover 1\ntasks\n",
    )?;
    Ok(script)
}

/// Eight crates are loaded and taken away again.
const EIGHT: &str =
    "load k c2\nload k c3\nload k c4\nload k c5\nload k c6\nload k c7\nload k c8\nload k c9\n\
    unload k/c2 k/c3 k/c4 k/c5 k/c6 k/c7 k/c8 k/c9\n";

/// A task is trapped in the first cell. 8,191 times eight cells come and go, which are 65,528, and six more come.
fn many_cells(alloc: Global) -> Result<String, AllocError> {
    let mut script = String::from_str(alloc, "load k c1\nspawn k f 0\nstep 1 1\n")?;
    add_times(&mut script, 8191, EIGHT)?;
    script.push_str(
        "load k c2\nload k c3\nload k c4\nload k c5\nload k c6\nload k c7\nrecover 1\nrebuild 1\ntasks\n",
    )?;
    Ok(script)
}

/// The cell that is renewed is counted beside the fresh one.
#[test]
fn too_many_cells(rt: HostRuntime) -> Result<(), Fail> {
    let alloc = rt.alloc();
    let words = ["d", "s", "--pages", "1028"];
    let (status, sink) = outcome_with(alloc, &words, 1024, TRAPPED, crowd(alloc)?, 40000)?;
    let text = std::str::from_utf8(sink.written()).ok().ok_or("UTF-8")?;
    let end = "\n1025 ok spawn t1 pc 10000000\n1026 ok step t1 turns 1 fault break at 10000000\n\
        1027 E4 too-many cells 1024\n1028 E4 too-many cells 1024\n1029 ok tasks\n  \
        t1 fault break at 10000000 root #1\n1030 ok unload removed #1024\n\
        1031 ok recover t1 swap 1 new #1025 patched 0 removed #1 kept -\n1032 ok tasks\n  \
        t1 ready pc 10001000 root #2\n";
    assert!(rt; text.ends_with(end), "{text}");
    assert_eq!(rt; status, Status::SomeRefused);
    Ok(())
}

/// Each round has nine lines, after the first three of all. The last cell that is loaded has the largest number.
#[test]
fn too_many_cell_numbers(rt: HostRuntime) -> Result<(), Fail> {
    let alloc = rt.alloc();
    let (status, sink) = outcome(alloc, 9, TRAPPED, many_cells(alloc)?, 4000000)?;
    let end = b"\n73728 ok load #65535 patched 0\n73729 E4 too-many cell-numbers 65535\n\
        73730 E4 too-many cell-numbers 65535\n73731 ok tasks\n  t1 fault break at 10000000 root #1\n";
    assert!(rt; sink.written().ends_with(end));
    assert_eq!(rt; status, Status::SomeRefused);
    Ok(())
}
