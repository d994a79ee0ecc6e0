//! The whole call.

ghost use Rattle.std.specs.Prelude.{◌≡◌, ◌≢◌, ◌≤◌, [], None, Some, map, length, IfSome, string_bytes};
ghost use Rattle.std.specs.Io.KnownBytes.{Appends};
ghost use Rattle.cell_io.specs.Causes.{Rose, HasCause};
ghost use Rattle.cell_io.specs.Files.{folder};
ghost use Rattle.cell_io.specs.Written.{IsFull};
ghost use Rattle.cell_verdict.specs.Verdict.{Writes, judged, judging, judging_of, refused, usage, verdict_in};

use crate::AuditStatus;
use crate::judge::judge;
use crate::lines::{fault_lines, reason_line};
use crate::status::{Reason, status_of};
use cell_audit::AuditFail;
use cell_io::{Host, Sink, Stop};
use std::alloc::Global;

const USAGE: &[u8] = b"usage: cellaudit DIR DUMP\n";

/// Does all that the program does: reads the words, the folder with the dump in it, audits the dump
/// against the object files, and writes the verdict.
pub fn cellaudit<H: Host, K: Sink>(
    alloc: Global,
    words: &Vec<String>,
    host: &mut H,
    out: &mut K,
) -> AuditStatus
    // Status and text are those of the definition, or the call was cut off and a front of the text stands.
    ensures transcript { IfSome (H.files host.old) (λ files.
        Writes (judging_of (map string_bytes words.now.items) files) result (K.written out.old) (K.written out.new)) }

    // A fault of the outside comes only where its count rose.
    ensures read_cause { result ≡ AuditStatus.ReadFault → Rose (H.faults host.old) (H.faults host.new) }
    ensures write_cause { result ≡ AuditStatus.WriteFault → Rose (K.faults out.old) (K.faults out.new) }

    // Where the output fails for want of room alone, its room was used up.
    ensures full { result ≡ AuditStatus.WriteFault → IsFull (K.room out.old) (K.written out.new) }

    // A fault of reading comes before anything is written, and not where nothing was to be read.
    ensures nothing { result ≡ AuditStatus.ReadFault → Appends (K.written out.old) (K.written out.new) [] }
    ensures no_read { length words.now.items ≢ 2 → result ≢ AuditStatus.ReadFault }

    // Other words than two, and they alone, are refused for the words, also where the host tells nothing.
    ensures usage { length words.now.items ≢ 2 → Writes usage result (K.written out.old) (K.written out.new) }
    ensures usage_alone { result ≡ AuditStatus.Usage → length words.now.items ≢ 2 }

    // What the host holds stays, neither count falls, and the output has the same room.
    ensures files { H.files host.new ≡ H.files host.old }
    ensures reads { H.faults host.old ≤ H.faults host.new }
    ensures writes { K.faults out.old ≤ K.faults out.new }
    ensures room { K.room out.new ≡ K.room out.old }
{
    match words.as_slice() {
        [dir, dump] => write_verdict_on(alloc, dir.as_str(), dump.as_str(), host, out),
        _ => refuse_words(out),
    }
}

/// Writes the verdict on the dump of that name in a folder.
fn write_verdict_on<H: Host, K: Sink>(
    alloc: Global,
    dir: &str,
    dump: &str,
    host: &mut H,
    out: &mut K,
) -> AuditStatus
    ensures transcript { IfSome (H.files host.old) (λ files.
        Writes (judging dump.now (verdict_in dump.now (folder dir.now files))) result (K.written out.old) (K.written out.new)) }
    ensures read_cause { result ≡ AuditStatus.ReadFault → Rose (H.faults host.old) (H.faults host.new) }
    ensures write_cause { result ≡ AuditStatus.WriteFault → Rose (K.faults out.old) (K.faults out.new) }
    ensures full { result ≡ AuditStatus.WriteFault → IsFull (K.room out.old) (K.written out.new) }
    ensures nothing { result ≡ AuditStatus.ReadFault → Appends (K.written out.old) (K.written out.new) [] }
    ensures no_usage { result ≢ AuditStatus.Usage }
    ensures files { H.files host.new ≡ H.files host.old }
    ensures reads { H.faults host.old ≤ H.faults host.new }
    ensures writes { K.faults out.old ≤ K.faults out.new }
    ensures room { K.room out.new ≡ K.room out.old }
{
    match judge(alloc, dir, dump, host) {
        Ok(None) => write_clean(out),
        Ok(Some(fault)) => write_fault(alloc, &fault, out),
        Err(Stop::Refused(reason)) => refuse(alloc, dump, reason, out),
        Err(Stop::ReadFault) => AuditStatus::ReadFault,
        Err(Stop::OutOfMemory) => AuditStatus::OutOfMemory,
    }
}

/// Writes that the dump is clean.
fn write_clean<K: Sink>(out: &mut K) -> AuditStatus
    ensures written { Writes (judged None) result (K.written out.old) (K.written out.new) }
    ensures cause { HasCause (K.faults out.old) (K.faults out.new) (result ≡ AuditStatus.WriteFault) }
    ensures full { result ≡ AuditStatus.WriteFault → IsFull (K.room out.old) (K.written out.new) }
    ensures no_read { result ≢ AuditStatus.ReadFault }
    ensures no_usage { result ≢ AuditStatus.Usage }
    ensures room { K.room out.new ≡ K.room out.old }
{
    if out.put(b"ok\n").is_err() {
        return AuditStatus::WriteFault;
    }
    AuditStatus::Clean
}

/// Writes the lines of a fault.
fn write_fault<K: Sink>(alloc: Global, fault: &AuditFail, out: &mut K) -> AuditStatus
    ensures written { Writes (judged (Some fault.now)) result (K.written out.old) (K.written out.new) }
    ensures cause { HasCause (K.faults out.old) (K.faults out.new) (result ≡ AuditStatus.WriteFault) }
    ensures full { result ≡ AuditStatus.WriteFault → IsFull (K.room out.old) (K.written out.new) }
    ensures no_read { result ≢ AuditStatus.ReadFault }
    ensures no_usage { result ≢ AuditStatus.Usage }
    ensures room { K.room out.new ≡ K.room out.old }
{
    let Ok(text) = fault_lines(alloc, fault) else {
        return AuditStatus::OutOfMemory;
    };
    if out.put(text.as_slice()).is_err() {
        return AuditStatus::WriteFault;
    }
    AuditStatus::Fault
}

/// Writes how the program is called.
fn refuse_words<K: Sink>(out: &mut K) -> AuditStatus
    ensures written { Writes usage result (K.written out.old) (K.written out.new) }
    ensures cause { HasCause (K.faults out.old) (K.faults out.new) (result ≡ AuditStatus.WriteFault) }
    ensures full { result ≡ AuditStatus.WriteFault → IsFull (K.room out.old) (K.written out.new) }
    ensures no_read { result ≢ AuditStatus.ReadFault }
    ensures room { K.room out.new ≡ K.room out.old }
{
    if out.put(USAGE).is_err() {
        return AuditStatus::WriteFault;
    }
    AuditStatus::Usage
}

/// Writes the line of a call that audits nothing, where the dump has that name.
fn refuse<K: Sink>(alloc: Global, dump: &str, reason: Reason, out: &mut K) -> AuditStatus
    ensures written { Writes (refused dump.now reason) result (K.written out.old) (K.written out.new) }
    ensures cause { HasCause (K.faults out.old) (K.faults out.new) (result ≡ AuditStatus.WriteFault) }
    ensures full { result ≡ AuditStatus.WriteFault → IsFull (K.room out.old) (K.written out.new) }
    ensures no_read { result ≢ AuditStatus.ReadFault }
    ensures no_usage { result ≢ AuditStatus.Usage }
    ensures room { K.room out.new ≡ K.room out.old }
{
    let Ok(line) = reason_line(alloc, dump, reason) else {
        return AuditStatus::OutOfMemory;
    };
    if out.put(line.as_slice()).is_err() {
        return AuditStatus::WriteFault;
    }
    status_of(reason)
}
