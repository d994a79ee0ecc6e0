//! Lines of tasks.

ghost use Rattle.std.specs.Prelude.{◌≡◌, ◌++◌, codes, OnOk};
ghost use Rattle.std.specs.List.{flat_map};
ghost use Rattle.cell_print.specs.Lines.{out_lines, turns_line, run_lines, task_line, Extends};

use crate::Piece::{Dec, Live, Out, State, Text};
use crate::put_line;
use cell_world::{TaskLine, TaskRun};
use std::alloc::AllocError;

/// Appends what each task did.
pub fn put_runs(runs: &[TaskRun], into: &mut Vec<u8>) -> Result<(), AllocError>
    ensures ok { OnOk result (into.new.items ≡ into.old.items ++ flat_map (run_lines (codes "  t")) runs.now) }
    ensures extends { Extends into.old.items into.new.items }
{
    for run in runs {
        put_run(b"  t", run, into)?;
    }
    Ok(())
}

/// Appends what a task did, on a line that begins with `start`, and then what it put out.
pub fn put_run(start: &[u8], run: &TaskRun, into: &mut Vec<u8>) -> Result<(), AllocError>
    ensures ok { OnOk result (into.new.items ≡ into.old.items ++ run_lines start.now run.now) }
    ensures extends { Extends into.old.items into.new.items }
{
    put_turns(start, run, into)?;
    put_out(run.task, run.out.as_slice(), into)
}

fn put_turns(start: &[u8], run: &TaskRun, into: &mut Vec<u8>) -> Result<(), AllocError>
    ensures ok { OnOk result (into.new.items ≡ into.old.items ++ turns_line start.now run.now) }
    ensures extends { Extends into.old.items into.new.items }
{
    put_line(
        &[
            Text(start),
            Dec(run.task),
            Text(b" turns "),
            Dec(run.turns),
            Text(b" "),
            State(run.state),
        ],
        into,
    )
}

/// Appends the line of what a task put out, where it did.
fn put_out(task: u32, out: &[u8], into: &mut Vec<u8>) -> Result<(), AllocError>
    ensures ok { OnOk result (into.new.items ≡ into.old.items ++ out_lines task out.now) }
    ensures extends { Extends into.old.items into.new.items }
{
    if out.is_empty() {
        return Ok(());
    }
    put_line(&[Text(b"  out t"), Dec(task), Text(b" "), Out(out)], into)
}

/// Appends the lines of live tasks.
pub fn put_tasks(tasks: &[TaskLine], into: &mut Vec<u8>) -> Result<(), AllocError>
    ensures ok { OnOk result (into.new.items ≡ into.old.items ++ flat_map task_line tasks.now) }
    ensures extends { Extends into.old.items into.new.items }
{
    for task in tasks {
        put_task(*task, into)?;
    }
    Ok(())
}

fn put_task(task: TaskLine, into: &mut Vec<u8>) -> Result<(), AllocError>
    ensures ok { OnOk result (into.new.items ≡ into.old.items ++ task_line task) }
    ensures extends { Extends into.old.items into.new.items }
{
    put_line(
        &[
            Text(b"  t"),
            Dec(task.task),
            Text(b" "),
            Live(task.fault, task.pc),
            Text(b" root #"),
            Dec(task.root.0),
        ],
        into,
    )
}
