//! The whole call.

ghost use Rattle.std.specs.Prelude.{◌≡◌, ◌≢◌, ◌≤◌, true, None, Some, [], map, IfSome, IsSomeAnd, string_bytes};
ghost use Rattle.std.specs.Io.KnownBytes.{Appends};
ghost use Rattle.cell_io.specs.Causes.{Rose, HasCause};
ghost use Rattle.cell_io.specs.Written.{IsFull};
ghost use Rattle.cell_arguments.specs.Arguments.{IsInRange, IsTask, arguments_of, said, task_said};
ghost use Rattle.cell_run.specs.Driven.{Drives, IsFinished};
ghost use Rattle.cell_run.specs.Run.{IsMade, ReadsNothing, WritesRun, job_by, job_of, refused_run, run_in, run_of, usage_run};

use crate::Status;
use crate::driving::drive;
use crate::job::{job_of, script_name};
use crate::machine::Machine;
use crate::refuse::reason_line;
use crate::status::status_of;
use cell_arguments::{Arguments, ArgumentsFault, read_arguments};
use cell_input::Reason;
use cell_io::{Host, Sink, Stop};
use std::alloc::Global;

const USAGE: &[u8] = b"usage: cells DIR SCRIPT [--base HEX] [--pages N] | --generate N --seed S\n";

/// Does all that the program does: reads the words, the folder, the script and the object files, or has
/// the generator make them, has the machine do the commands, and writes each answer as it comes, or for
/// what the generator made one line of what the answers come to.
pub fn cells<H: Host, K: Sink, M: Machine>(
    alloc: Global,
    words: &Vec<String>,
    host: &mut H,
    out: &mut K,
    machine: &mut M,
) -> Status
    // On a machine that tells, status and text are those of the run, or the run was cut off and a front of its text stands.
    ensures transcript { M.tells ≡ true → IfSome (H.files host.old) (λ files.
        WritesRun (run_of (map string_bytes words.now.items) files) result (K.written out.old) (K.written out.new)) }

    // A run that came to its end made the machine do its commands, whichever machine that is, and wrote what it answered.
    ensures machine { IfSome (H.files host.old) (λ files. IsFinished result → IsSomeAnd (job_of (map string_bytes words.now.items) files) (λ job.
        Drives M.begun M.acts job machine.old result machine.new (K.written out.old) (K.written out.new))) }

    // A fault of the outside comes only where its count rose.
    ensures read_cause { result ≡ Status.ReadFault → Rose (H.faults host.old) (H.faults host.new) }
    ensures write_cause { result ≡ Status.WriteFault → Rose (K.faults out.old) (K.faults out.new) }

    // Where the output fails for want of room alone, its room was used up.
    ensures full { result ≡ Status.WriteFault → IsFull (K.room out.old) (K.written out.new) }

    // A fault of reading comes before anything is written, and the host isn't asked where nothing is to be read.
    ensures nothing { result ≡ Status.ReadFault → Appends (K.written out.old) (K.written out.new) [] }
    ensures no_read { ReadsNothing (arguments_of (map string_bytes words.now.items)) → result ≢ Status.ReadFault }
    ensures untouched { ReadsNothing (arguments_of (map string_bytes words.now.items)) → host.new ≡ host.old }

    // Words without a reading, and they alone, are refused for the words, also where the host tells nothing.
    ensures usage { arguments_of (map string_bytes words.now.items) ≡ None →
        WritesRun usage_run result (K.written out.old) (K.written out.new) }
    ensures usage_alone { result ≡ Status.Usage → arguments_of (map string_bytes words.now.items) ≡ None }

    // What the host holds stays, neither count falls, and the output has the same room.
    ensures files { H.files host.new ≡ H.files host.old }
    ensures reads { H.faults host.old ≤ H.faults host.new }
    ensures writes { K.faults out.old ≤ K.faults out.new }
    ensures room { K.room out.new ≡ K.room out.old }
{
    match read_arguments(alloc, words.as_slice()) {
        Ok(arguments) => run(alloc, &arguments, host, out, machine),
        Err(ArgumentsFault::Usage) => refuse_words(out),
        Err(ArgumentsFault::OutOfMemory) => Status::OutOfMemory,
    }
}

/// Does what the words say.
fn run<H: Host, K: Sink, M: Machine>(
    alloc: Global,
    arguments: &Arguments<'_>,
    host: &mut H,
    out: &mut K,
    machine: &mut M,
) -> Status
    requires range { IsInRange arguments.now.base arguments.now.pages }
    requires task { IsTask (task_said arguments.now.task) }
    ensures transcript { M.tells ≡ true → IfSome (H.files host.old) (λ files.
        WritesRun (run_in (Some (said arguments.now)) files) result (K.written out.old) (K.written out.new)) }
    ensures machine { IfSome (H.files host.old) (λ files. IsFinished result → IsSomeAnd (job_by (Some (said arguments.now)) files) (λ job.
        Drives M.begun M.acts job machine.old result machine.new (K.written out.old) (K.written out.new))) }
    ensures read_cause { result ≡ Status.ReadFault → Rose (H.faults host.old) (H.faults host.new) }
    ensures write_cause { result ≡ Status.WriteFault → Rose (K.faults out.old) (K.faults out.new) }
    ensures full { result ≡ Status.WriteFault → IsFull (K.room out.old) (K.written out.new) }
    ensures nothing { result ≡ Status.ReadFault → Appends (K.written out.old) (K.written out.new) [] }
    ensures no_read { IsMade (task_said arguments.now.task) → result ≢ Status.ReadFault }
    ensures untouched { IsMade (task_said arguments.now.task) → host.new ≡ host.old }
    ensures no_usage { result ≢ Status.Usage }
    ensures files { H.files host.new ≡ H.files host.old }
    ensures reads { H.faults host.old ≤ H.faults host.new }
    ensures writes { K.faults out.old ≤ K.faults out.new }
    ensures room { K.room out.new ≡ K.room out.old }
{
    match job_of(alloc, arguments, host) {
        Ok(job) => drive(alloc, machine, job, out),
        Err(Stop::Refused(reason)) => refuse(alloc, script_name(arguments.task), reason, out),
        Err(Stop::ReadFault) => Status::ReadFault,
        Err(Stop::OutOfMemory) => Status::OutOfMemory,
    }
}

/// Writes how the program is called.
fn refuse_words<K: Sink>(out: &mut K) -> Status
    ensures refused { WritesRun usage_run result (K.written out.old) (K.written out.new) }
    ensures cause { HasCause (K.faults out.old) (K.faults out.new) (result ≡ Status.WriteFault) }
    ensures full { result ≡ Status.WriteFault → IsFull (K.room out.old) (K.written out.new) }
    ensures no_read { result ≢ Status.ReadFault }
    ensures unfinished { IsFinished result → ⊥ }
    ensures room { K.room out.new ≡ K.room out.old }
{
    if out.put(USAGE).is_err() {
        return Status::WriteFault;
    }
    Status::Usage
}

/// Writes the line of a run that ends before its first command.
fn refuse<K: Sink>(alloc: Global, script: &str, reason: Reason, out: &mut K) -> Status
    ensures refused { WritesRun (refused_run script.now reason) result (K.written out.old) (K.written out.new) }
    ensures cause { HasCause (K.faults out.old) (K.faults out.new) (result ≡ Status.WriteFault) }
    ensures full { result ≡ Status.WriteFault → IsFull (K.room out.old) (K.written out.new) }
    ensures no_read { result ≢ Status.ReadFault }
    ensures no_usage { result ≢ Status.Usage }
    ensures unfinished { IsFinished result → ⊥ }
    ensures room { K.room out.new ≡ K.room out.old }
{
    let Ok(line) = reason_line(alloc, script, reason) else {
        return Status::OutOfMemory;
    };
    if out.put(line.as_slice()).is_err() {
        return Status::WriteFault;
    }
    status_of(reason)
}
