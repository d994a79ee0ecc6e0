//! Cells and tasks until their numbers, which are never used again, run out.

use crate::repeated::{add_times, outcome};
use cell_run::Status;
use std::alloc::{AllocError, Global};
use std::test::Fail;

/// Nine crates are loaded and taken away again.
pub const NINE: &str =
    "load k c1\nload k c2\nload k c3\nload k c4\nload k c5\nload k c6\nload k c7\nload k c8\nload k c9\n\
    unload k/c1 k/c2 k/c3 k/c4 k/c5 k/c6 k/c7 k/c8 k/c9\n";

/// 7,281 times nine cells come and go, which are 65,529. Of seven more the last has no number, and neither has one in
/// the place of another.
fn many_cells(alloc: Global) -> Result<String, AllocError> {
    let mut script = String::new(alloc);
    add_times(&mut script, 7281, NINE)?;
    script.push_str(
        "load k c1\nload k c2\nload k c3\nload k c4\nload k c5\nload k c6\nload k c7\n\
        swap k/c1=k#c1.o\n",
    )?;
    Ok(script)
}

/// Starts a task.
const SPAWN: &str = "spawn k f 0\n";

/// 1,023 times 64 tasks start and end, which are 65,472. Of 64 more the last has no number.
fn many_tasks(alloc: Global) -> Result<String, AllocError> {
    let mut script = String::from_str(alloc, "load k c1\n")?;
    for _ in 0..1023 {
        add_times(&mut script, 64, SPAWN)?;
        script.push_str("run 1\n")?;
    }
    add_times(&mut script, 64, SPAWN)?;
    Ok(script)
}

/// Each round has ten lines. The last cell that is loaded has the largest number.
#[test]
fn too_many_cell_numbers(rt: HostRuntime) -> Result<(), Fail> {
    let alloc = rt.alloc();
    let (status, sink) = outcome(alloc, 9, "", many_cells(alloc)?, 4000000)?;
    let end = b"\n72816 ok load #65535 patched 0\n72817 E4 too-many cell-numbers 65535\n\
        72818 E4 too-many cell-numbers 65535\n";
    assert!(rt; sink.written().ends_with(end));
    assert_eq!(rt; status, Status::SomeRefused);
    Ok(())
}

/// Each round has 65 lines, after the first of all. The last task that starts has the largest number.
#[test]
fn too_many_task_numbers(rt: HostRuntime) -> Result<(), Fail> {
    let alloc = rt.alloc();
    let source = ".text\n.globl f\nf: ret";
    let (status, sink) = outcome(alloc, 1, source, many_tasks(alloc)?, 4000000)?;
    let end = b"\n66559 ok spawn t65535 pc 10000000\n66560 E4 too-many task-numbers 65535\n";
    assert!(rt; sink.written().ends_with(end));
    assert_eq!(rt; status, Status::SomeRefused);
    Ok(())
}
