//! The commands of a run, done on a machine.

ghost use Rattle.std.specs.Prelude.{◌≡◌, ◌≢◌, ◌⊎◌, Err, [], true, if◌then◌else◌, IfErr, IfOk, OnOk, IsErrOf};
ghost use Rattle.std.specs.Io.KnownBytes.{Appends};
ghost use Rattle.cell_io.specs.Causes.{HasCause};
ghost use Rattle.cell_io.specs.Written.{IsFull};
ghost use Rattle.cell_script.specs.Script.{are_said, is_said};
ghost use Rattle.cell_run.specs.Driven.{Counts, CutsLine, DoesCommand, DoesLine, Drives, IsCut, IsFinished, IsReady, Sums, Tallies, Writes};
ghost use Rattle.cell_run.specs.Run.{WritesRun, run_for};

use crate::Status;
use crate::job::{Job, Shows};
use crate::machine::Machine;
use crate::summary::Summary;
use cell_io::Sink;
use cell_print::{put_refusal, put_reply};
use cell_script::Line;
use cell_system::Fail;
use std::alloc::{AllocError, Global};

/// Starts the machine, has it do the commands, and writes what the job shows of its answers.
pub fn drive<K: Sink, M: Machine>(alloc: Global, machine: &mut M, job: Job, out: &mut K) -> Status
    requires { IsReady job }
    ensures transcript { M.tells ≡ true → WritesRun (run_for job) result (K.written out.old) (K.written out.new) }
    ensures driven { IsFinished result → Drives M.begun M.acts job machine.old result machine.new (K.written out.old) (K.written out.new) }
    ensures cause { HasCause (K.faults out.old) (K.faults out.new) (result ≡ Status.WriteFault) }
    ensures full { result ≡ Status.WriteFault → IsFull (K.room out.old) (K.written out.new) }
    ensures no_read { result ≢ Status.ReadFault }
    ensures no_usage { result ≢ Status.Usage }
    ensures room { K.room out.new ≡ K.room out.old }
{
    let Job {
        shows,
        base,
        pages,
        files,
        script,
    } = job;
    if machine.start(alloc, base, pages, files.into_vec()).is_err() {
        return Status::OutOfMemory;
    }
    match shows {
        Shows::Transcript => write_answers(alloc, machine, script.as_slice(), out),
        Shows::Totals => write_totals(alloc, machine, script.as_slice(), out),
    }
}

fn ended(some_refused: bool) -> Status
    ensures status { result ≡ (if some_refused then Status.SomeRefused else Status.Done) }
{
    if some_refused {
        Status::SomeRefused
    } else {
        Status::Done
    }
}

/// Does the commands of these lines, and writes each answer. One buffer serves all answers.
fn write_answers<K: Sink, M: Machine>(
    alloc: Global,
    machine: &mut M,
    lines: &[Line],
    out: &mut K,
) -> Status
    requires started { M.is_started machine.old ≡ true }
    requires said { are_said lines.now ≡ true }
    ensures answers { Writes M.acts lines.now machine.old result machine.new (K.written out.old) (K.written out.new) }
    ensures cause { HasCause (K.faults out.old) (K.faults out.new) (result ≡ Status.WriteFault) }
    ensures full { result ≡ Status.WriteFault → IsFull (K.room out.old) (K.written out.new) }
    ensures no_read { result ≢ Status.ReadFault }
    ensures no_usage { result ≢ Status.Usage }
    ensures room { K.room out.new ≡ K.room out.old }
{
    let mut some_refused = false;
    let mut text = Vec::new(alloc);
    for line in lines {
        match write_answer(machine, line, &mut text, out) {
            Ok(refused) => some_refused = some_refused || refused,
            Err(status) => return status,
        }
    }
    ended(some_refused)
}

/// Does the command of a line, writes its answer by way of `text`, and says whether it was refused.
fn write_answer<K: Sink, M: Machine>(
    machine: &mut M,
    line: &Line,
    text: &mut Vec<u8>,
    out: &mut K,
) -> Result<bool, Status>
    requires started { M.is_started machine.old ≡ true }
    requires said { is_said line.now.command ≡ true }
    ensures done { IfOk result (λ refused. DoesLine M.acts machine.old line.now refused machine.new (K.written out.old) (K.written out.new)) }
    ensures started { IfOk result (λ refused. M.is_started machine.new ≡ true) }
    ensures cut { IfErr result (λ status.
        IsCut status × (Appends (K.written out.old) (K.written out.new) [] ⊎ CutsLine M.acts machine.old line.now machine.new (K.written out.old) (K.written out.new))) }
    ensures cause { HasCause (K.faults out.old) (K.faults out.new) (IsErrOf result Status.WriteFault) }
    ensures room { K.room out.new ≡ K.room out.old }
    ensures full { IfErr result (λ status. status ≡ Status.WriteFault → IsFull (K.room out.old) (K.written out.new)) }
    ensures no_read { result ≢ Err Status.ReadFault }
    ensures no_usage { result ≢ Err Status.Usage }
{
    text.clear();
    let Ok(refused) = do_command(machine, line, text) else {
        return Err(Status::OutOfMemory);
    };
    if out.put(text.as_slice()).is_err() {
        return Err(Status::WriteFault);
    }
    Ok(refused)
}

/// Does the command of a line, appends the lines of its answer, and says whether it is a refusal.
fn do_command<M: Machine>(
    machine: &mut M,
    line: &Line,
    text: &mut Vec<u8>,
) -> Result<bool, AllocError>
    requires started { M.is_started machine.old ≡ true }
    requires said { is_said line.now.command ≡ true }
    requires empty { text.old.items ≡ [] }
    ensures done { IfOk result (λ refused. DoesCommand M.acts machine.old line.now text.new.items refused machine.new) }
    ensures started { IfOk result (λ refused. M.is_started machine.new ≡ true) }
{
    match machine.act(&line.command) {
        Ok(reply) => {
            put_reply(line.number, &reply, text)?;
            Ok(false)
        }
        Err(Fail::Refused(refusal)) => {
            put_refusal(line.number, &refusal, text)?;
            Ok(true)
        }
        Err(Fail::OutOfMemory) => Err(AllocError),
    }
}

/// Does the commands of these lines, and writes what their answers come to.
fn write_totals<K: Sink, M: Machine>(
    alloc: Global,
    machine: &mut M,
    lines: &[Line],
    out: &mut K,
) -> Status
    requires started { M.is_started machine.old ≡ true }
    requires said { are_said lines.now ≡ true }
    ensures totals { Sums M.acts lines.now machine.old result machine.new (K.written out.old) (K.written out.new) }
    ensures cause { HasCause (K.faults out.old) (K.faults out.new) (result ≡ Status.WriteFault) }
    ensures full { result ≡ Status.WriteFault → IsFull (K.room out.old) (K.written out.new) }
    ensures no_read { result ≢ Status.ReadFault }
    ensures no_usage { result ≢ Status.Usage }
    ensures room { K.room out.new ≡ K.room out.old }
{
    let Ok(summary) = sum_up(machine, lines) else {
        return Status::OutOfMemory;
    };
    let Ok(line) = summary.line(alloc) else {
        return Status::OutOfMemory;
    };
    if out.put(line.as_slice()).is_err() {
        return Status::WriteFault;
    }
    ended(summary.refused > 0)
}

/// Does the commands of these lines, and counts their answers.
fn sum_up<M: Machine>(machine: &mut M, lines: &[Line]) -> Result<Summary, AllocError>
    requires started { M.is_started machine.old ≡ true }
    requires said { are_said lines.now ≡ true }
    ensures { IfOk result (λ summary. Tallies M.acts machine.old lines.now summary machine.new) }
{
    let mut summary = Summary::empty();
    for line in lines {
        count_answer(machine, line, &mut summary)?;
    }
    Ok(summary)
}

/// Does the command of a line, and counts its answer.
fn count_answer<M: Machine>(
    machine: &mut M,
    line: &Line,
    summary: &mut Summary,
) -> Result<(), AllocError>
    requires started { M.is_started machine.old ≡ true }
    requires said { is_said line.now.command ≡ true }
    ensures counted { OnOk result (Counts M.acts machine.old line.now.command summary.old summary.new machine.new) }
    ensures started { OnOk result (M.is_started machine.new ≡ true) }
{
    match machine.act(&line.command) {
        Ok(reply) => summary.add_reply(&reply),
        Err(Fail::Refused(_refusal)) => summary.add_refusal(),
        Err(Fail::OutOfMemory) => return Err(AllocError),
    }
    Ok(())
}
