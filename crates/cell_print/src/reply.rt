//! Lines of replies.

ghost use Rattle.std.specs.Prelude.{◌≡◌, ◌++◌, ◌≤◌, Ok, length, OnOk};
ghost use Rattle.cell_world.specs.declared.reply.Reply.TheVariants.{Step};
ghost use Rattle.cell_print.specs.Lines.{reply_lines, row, rows, lines_of, Extends};

use crate::Piece::{Cells, Dec, Found, Hex, Key, Name, Task, Text};
use crate::dump::put_dump;
use crate::links::{put_deps, put_users};
use crate::map::put_cells;
use crate::put_answer;
use crate::tasks::{put_run, put_runs, put_tasks};
use cell_text::{put_dec, put_hex, put_hex_byte};
use cell_world::{Reply, TaskRun};
use std::alloc::AllocError;

/// Appends the lines of a reply to the command of that line.
pub fn put_reply(line: u32, reply: &Reply, into: &mut Vec<u8>) -> Result<(), AllocError>
    ensures ok { OnOk result (into.new.items ≡ into.old.items ++ lines_of line (Ok reply.now)) }
    ensures extends { Extends into.old.items into.new.items }
{
    match reply {
        Reply::Ns { name } => put_answer(line, b"ok ns", &[Name(name)], into),
        Reply::Load { fresh, patched } => {
            let fresh = Cells(fresh.as_slice());
            put_answer(
                line,
                b"ok load",
                &[fresh, Text(b"patched"), Dec(*patched)],
                into,
            )
        }
        Reply::Spawn { task, pc } => {
            put_answer(
                line,
                b"ok spawn",
                &[Task(*task), Text(b"pc"), Hex(*pc)],
                into,
            )
        }
        Reply::Step { run } => put_step(line, run, into),
        Reply::Run { runs } => {
            put_answer(line, b"ok run", &[], into)?;
            put_runs(runs.as_slice(), into)
        }
        Reply::Kill { task } => put_answer(line, b"ok kill", &[Task(*task)], into),
        Reply::Swap {
            number,
            fresh,
            patched,
            removed,
            kept,
        } => {
            put_answer(
                line,
                b"ok swap",
                &[
                    Dec(*number),
                    Text(b"new"),
                    Cells(fresh.as_slice()),
                    Text(b"patched"),
                    Dec(*patched),
                    Text(b"removed"),
                    Cells(removed.as_slice()),
                    Text(b"kept"),
                    Cells(kept.as_slice()),
                ],
                into,
            )
        }
        Reply::Unload { removed } => {
            put_answer(
                line,
                b"ok unload removed",
                &[Cells(removed.as_slice())],
                into,
            )
        }
        Reply::Purge { removed } => {
            put_answer(
                line,
                b"ok purge removed",
                &[Cells(removed.as_slice())],
                into,
            )
        }
        Reply::Tasks { tasks } => {
            put_answer(line, b"ok tasks", &[], into)?;
            put_tasks(tasks.as_slice(), into)
        }
        Reply::Find { found } => put_answer(line, b"ok find", &[Found(*found)], into),
        Reply::Deps { cell, links } => put_deps(line, *cell, links.as_slice(), into),
        Reply::Users { cell, links } => put_users(line, *cell, links.as_slice(), into),
        Reply::Map { cells } => {
            put_answer(line, b"ok map", &[], into)?;
            put_cells(cells.as_slice(), into)
        }
        Reply::Dump { key, start, bytes } => {
            put_answer(line, b"ok dump", &[Key(*key)], into)?;
            put_rows(*start, bytes.as_slice(), into)
        }
        Reply::DumpAll { lines } => {
            put_answer(line, b"ok dumpall", &[], into)?;
            put_dump(lines.as_slice(), into)
        }
        Reply::Recover {
            task,
            number,
            fresh,
            patched,
            removed,
            kept: stay,
        } => {
            put_answer(
                line,
                b"ok recover",
                &[
                    Task(*task),
                    Text(b"swap"),
                    Dec(*number),
                    Text(b"new"),
                    Cells(fresh.as_slice()),
                    Text(b"patched"),
                    Dec(*patched),
                    Text(b"removed"),
                    Cells(removed.as_slice()),
                    Text(b"kept"),
                    Cells(stay.as_slice()),
                ],
                into,
            )
        }
        Reply::Rebuild {
            task,
            number,
            fresh,
            patched,
            removed,
            kept: stay,
        } => {
            put_answer(
                line,
                b"ok rebuild",
                &[
                    Task(*task),
                    Text(b"swap"),
                    Dec(*number),
                    Text(b"new"),
                    Cells(fresh.as_slice()),
                    Text(b"patched"),
                    Dec(*patched),
                    Text(b"removed"),
                    Cells(removed.as_slice()),
                    Text(b"kept"),
                    Cells(stay.as_slice()),
                ],
                into,
            )
        }
        Reply::Clone {
            name,
            fresh,
            patched,
        } => {
            put_answer(
                line,
                b"ok clone",
                &[
                    Name(name),
                    Cells(fresh.as_slice()),
                    Text(b"patched"),
                    Dec(*patched),
                ],
                into,
            )
        }
    }
}

/// Appends what a task did that was given turns.
fn put_step(line: u32, run: &TaskRun, into: &mut Vec<u8>) -> Result<(), AllocError>
    ensures ok { OnOk result (into.new.items ≡ into.old.items ++ reply_lines line (Step run.now)) }
    ensures extends { Extends into.old.items into.new.items }
{
    put_dec(u64::from(line), into)?;
    put_run(b" ok step t", run, into)
}

/// Appends the rows of a dump, sixteen bytes each.
fn put_rows(start: u64, bytes: &[u8], into: &mut Vec<u8>) -> Result<(), AllocError>
    ensures ok { OnOk result (into.new.items ≡ into.old.items ++ rows start bytes.now) }
    ensures extends { Extends into.old.items into.new.items }
{
    let mut text = Vec::with_capacity(*into.allocator(), 80)?;
    let mut addr = start;
    let mut rest = bytes;
    while !rest.is_empty() {
        let (front, later) = rest.split_at(rest.len().min(16));
        text.clear();
        put_row(addr, front, &mut text)?;
        into.extend_from_slice(text.as_slice())?;
        addr = addr.wrapping_add(16);
        rest = later;
    }
    Ok(())
}

/// Appends the address and the bytes from there on.
fn put_row(addr: u64, bytes: &[u8], into: &mut Vec<u8>) -> Result<(), AllocError>
    ensures { OnOk result (into.new.items ≡ into.old.items ++ row addr bytes.now) }
{
    into.extend_from_slice(b"  ")?;
    put_hex(addr, into)?;
    for byte in bytes {
        into.push(b' ')?;
        put_hex_byte(*byte, into)?;
    }
    into.extend_from_slice(b"\n")
}
