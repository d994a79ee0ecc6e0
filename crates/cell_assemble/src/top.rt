//! The whole call.

ghost use Rattle.std.specs.Prelude.{◌≡◌, ◌≢◌, ◌≤◌, [], map, length, IfSome, string_bytes};
ghost use Rattle.std.specs.Io.KnownBytes.{Appends};
ghost use Rattle.cell_io.specs.Causes.{Rose, HasCause};
ghost use Rattle.cell_io.specs.Files.{folder};
ghost use Rattle.cell_io.specs.Written.{IsFull};
ghost use Rattle.cell_assemble.specs.Assembling.{Writes, assembling, assembling_of, done, object_in, refused, usage};

use crate::AsStatus;
use crate::make::object_in;
use crate::refusal::refusal_line;
use crate::status::{Refusal, status_of};
use cell_io::{Host, Sink, Stop};
use std::alloc::Global;

const USAGE: &[u8] = b"usage: cellas DIR SOURCE\n";

/// Does all that the program does: reads the words, the folder and the source in it, assembles the
/// source, and writes its object.
pub fn cellas<H: Host, K: Sink>(
    alloc: Global,
    words: &Vec<String>,
    host: &mut H,
    out: &mut K,
) -> AsStatus
    // Status and text are those of the definition, or the call was cut off and a front of the text stands.
    ensures transcript { IfSome (H.files host.old) (λ files.
        Writes (assembling_of (map string_bytes words.now.items) files) result (K.written out.old) (K.written out.new)) }

    // A fault of the outside comes only where its count rose.
    ensures read_cause { result ≡ AsStatus.ReadFault → Rose (H.faults host.old) (H.faults host.new) }
    ensures write_cause { result ≡ AsStatus.WriteFault → Rose (K.faults out.old) (K.faults out.new) }

    // Where the output fails for want of room alone, its room was used up.
    ensures full { result ≡ AsStatus.WriteFault → IsFull (K.room out.old) (K.written out.new) }

    // A fault of reading comes before anything is written, and not where nothing was to be read.
    ensures nothing { result ≡ AsStatus.ReadFault → Appends (K.written out.old) (K.written out.new) [] }
    ensures no_read { length words.now.items ≢ 2 → result ≢ AsStatus.ReadFault }

    // Other words than two, and they alone, are refused for the words, also where the host tells nothing.
    ensures usage { length words.now.items ≢ 2 → Writes usage result (K.written out.old) (K.written out.new) }
    ensures usage_alone { result ≡ AsStatus.Usage → length words.now.items ≢ 2 }

    // What the host holds stays, neither count falls, and the output has the same room.
    ensures files { H.files host.new ≡ H.files host.old }
    ensures reads { H.faults host.old ≤ H.faults host.new }
    ensures writes { K.faults out.old ≤ K.faults out.new }
    ensures room { K.room out.new ≡ K.room out.old }
{
    match words.as_slice() {
        [dir, source] => write_object_of(alloc, dir.as_str(), source.as_str(), host, out),
        _ => refuse_words(out),
    }
}

/// Writes the object of the source of that name in a folder.
fn write_object_of<H: Host, K: Sink>(
    alloc: Global,
    dir: &str,
    source: &str,
    host: &mut H,
    out: &mut K,
) -> AsStatus
    ensures transcript { IfSome (H.files host.old) (λ files.
        Writes (assembling source.now (object_in source.now (folder dir.now files))) result (K.written out.old) (K.written out.new)) }
    ensures read_cause { result ≡ AsStatus.ReadFault → Rose (H.faults host.old) (H.faults host.new) }
    ensures write_cause { result ≡ AsStatus.WriteFault → Rose (K.faults out.old) (K.faults out.new) }
    ensures full { result ≡ AsStatus.WriteFault → IsFull (K.room out.old) (K.written out.new) }
    ensures nothing { result ≡ AsStatus.ReadFault → Appends (K.written out.old) (K.written out.new) [] }
    ensures no_usage { result ≢ AsStatus.Usage }
    ensures files { H.files host.new ≡ H.files host.old }
    ensures reads { H.faults host.old ≤ H.faults host.new }
    ensures writes { K.faults out.old ≤ K.faults out.new }
    ensures room { K.room out.new ≡ K.room out.old }
{
    match object_in(alloc, dir, source, host) {
        Ok(object) => write(object.as_slice(), out),
        Err(Stop::Refused(refusal)) => refuse(alloc, source, refusal, out),
        Err(Stop::ReadFault) => AsStatus::ReadFault,
        Err(Stop::OutOfMemory) => AsStatus::OutOfMemory,
    }
}

fn write<K: Sink>(object: &[u8], out: &mut K) -> AsStatus
    ensures written { Writes (done object.now) result (K.written out.old) (K.written out.new) }
    ensures cause { HasCause (K.faults out.old) (K.faults out.new) (result ≡ AsStatus.WriteFault) }
    ensures full { result ≡ AsStatus.WriteFault → IsFull (K.room out.old) (K.written out.new) }
    ensures no_read { result ≢ AsStatus.ReadFault }
    ensures no_usage { result ≢ AsStatus.Usage }
    ensures room { K.room out.new ≡ K.room out.old }
{
    if out.put(object).is_err() {
        return AsStatus::WriteFault;
    }
    AsStatus::Done
}

/// Writes how the program is called.
fn refuse_words<K: Sink>(out: &mut K) -> AsStatus
    ensures written { Writes usage result (K.written out.old) (K.written out.new) }
    ensures cause { HasCause (K.faults out.old) (K.faults out.new) (result ≡ AsStatus.WriteFault) }
    ensures full { result ≡ AsStatus.WriteFault → IsFull (K.room out.old) (K.written out.new) }
    ensures no_read { result ≢ AsStatus.ReadFault }
    ensures room { K.room out.new ≡ K.room out.old }
{
    if out.put(USAGE).is_err() {
        return AsStatus::WriteFault;
    }
    AsStatus::Usage
}

/// Writes the line of a refusal, where the source has that name.
fn refuse<K: Sink>(alloc: Global, source: &str, refusal: Refusal, out: &mut K) -> AsStatus
    ensures written { Writes (refused source.now refusal) result (K.written out.old) (K.written out.new) }
    ensures cause { HasCause (K.faults out.old) (K.faults out.new) (result ≡ AsStatus.WriteFault) }
    ensures full { result ≡ AsStatus.WriteFault → IsFull (K.room out.old) (K.written out.new) }
    ensures no_read { result ≢ AsStatus.ReadFault }
    ensures no_usage { result ≢ AsStatus.Usage }
    ensures room { K.room out.new ≡ K.room out.old }
{
    let Ok(line) = refusal_line(alloc, source, refusal) else {
        return AsStatus::OutOfMemory;
    };
    if out.put(line.as_slice()).is_err() {
        return AsStatus::WriteFault;
    }
    status_of(refusal)
}
