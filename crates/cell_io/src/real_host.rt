//! The files of the machine that the program runs on.

ghost use Rattle.std.specs.Prelude.{◌≡◌, ◌≤◌, ◌<◌, ◌+◌, false, [], length, IfSome, IfOk, OnOk, OnErr, IsErrOf};
ghost use Rattle.std.specs.Io.KnownBytes.{IsAtEnd};
ghost use Rattle.cell_io.specs.Causes.{HasCause};
ghost use Rattle.cell_io.specs.Files.{UpTo};
ghost use Rattle.cell_io.specs.Written.{Takes};

use crate::{Host, HostFault};
use std::fs;
use std::io::{Error, ErrorKind, Read};
use std::rt::Files;

/// Folders by their paths, of which nothing is told. A name that is no text, a folder that can't be
/// listed, and a name that is no regular file or can't be read are failures. A name that is no regular
/// file, as a pipe or a device, isn't opened.
#[derive(Drop)]
pub struct RealHost<R> {
    rt: R,
    faults: u64,
}

impl<R> RealHost<R> {
    pub fn new(rt: R) -> Self
        ensures faults { result.faults ≡ 0 }
    {
        RealHost { rt, faults: 0 }
    }
}

impl<R: Files + AllocGlobal + Clone + Drop> Host for RealHost<R> {
    ghost use Rattle.std.specs.Prelude.{None};

    ghost files = { λ _. None };

    ghost faults = { λ h. h.faults };

    fn list(&mut self, dir: &str, limit: u32, into: &mut Vec<String>) -> Result<(), HostFault> {
        into.clear();
        let answer = add_names(&self.rt, dir, limit, into);
        conclude(answer, into, &mut self.faults)
    }

    fn read(
        &mut self,
        dir: &str,
        name: &str,
        limit: u32,
        into: &mut Vec<u8>,
    ) -> Result<(), HostFault> {
        into.clear();
        let answer = add_bytes(&self.rt, dir, name, limit, into);
        conclude(answer, into, &mut self.faults)
    }
}

/// Hands on the answer of a call. A failure is counted, and an error leaves nothing in `into`.
fn conclude<T: Drop>(
    answer: Result<(), HostFault>,
    into: &mut Vec<T>,
    faults: &mut u64,
) -> Result<(), HostFault>
    ensures answer { result ≡ answer }
    ensures emptied { OnErr result (into.new.items ≡ []) }
    ensures most { length into.new.items ≤ length into.old.items }
    ensures cause { HasCause faults.old faults.new (IsErrOf result HostFault.Failed) }
{
    if let Err(fault) = answer {
        into.clear();
        if fault == HostFault::Failed {
            *faults = faults.saturating_add(1);
        }
    }
    answer
}

/// Want of memory is told apart from any other error of the system.
fn fault_of(error: &Error) -> HostFault {
    if error.kind() == ErrorKind::OutOfMemory {
        HostFault::OutOfMemory
    } else {
        HostFault::Failed
    }
}

/// Adds the names in a folder, up to one more than `limit`.
fn add_names<R: Files + AllocGlobal + Clone + Drop>(
    rt: &R,
    dir: &str,
    limit: u32,
    into: &mut Vec<String>,
) -> Result<(), HostFault>
    requires { into.old.items ≡ [] }
    ensures { length into.new.items ≤ limit + 1 }
{
    let entries = fs::read_dir(rt, dir).map_err(|e| fault_of(&e))?;
    for entry in entries {
        if into.len() > limit as usize {
            break;
        }
        let entry = entry.map_err(|e| fault_of(&e))?;
        let name = String::from_str(rt.alloc(), entry.file_name())?;
        into.push(name).map_err(|_| HostFault::OutOfMemory)?;
    }
    Ok(())
}

/// Adds the bytes of a regular file, up to one more than `limit`.
fn add_bytes<R: Files + AllocGlobal>(
    rt: &R,
    dir: &str,
    name: &str,
    limit: u32,
    into: &mut Vec<u8>,
) -> Result<(), HostFault>
    requires { into.old.items ≡ [] }
    ensures { length into.new.items ≤ limit + 1 }
{
    let path = format!(in rt.alloc(); "{dir}/{name}")?;
    let kind = fs::metadata(rt, path.as_str()).map_err(|e| fault_of(&e))?;
    if !kind.is_file() {
        return Err(HostFault::Failed);
    }
    let mut file = fs::open(rt, path.as_str()).map_err(|e| fault_of(&e))?;
    add_front(&mut file, limit, into)
}

/// Adds what a reader has left, up to one byte more than `limit`, a buffer at a time.
fn add_front<F: Read>(file: &mut F, limit: u32, into: &mut Vec<u8>) -> Result<(), HostFault>
    requires { into.old.items ≡ [] }
    ensures bytes { OnOk result (IfSome (F.remaining file.old) (λ all. UpTo limit all into.new.items)) }
    ensures most { length into.new.items ≤ limit + 1 }
{
    let most = limit as usize + 1;
    let mut buffer = [0u8; 16384];
    for _ in 0..u64::MAX {
        let room = most.saturating_sub(into.len()).min(buffer.len());
        if room == 0 {
            return Ok(());
        }
        let more = add_some(file, &mut buffer[..room], into)?;
        if !more {
            return Ok(());
        }
    }
    Err(HostFault::Failed)
}

/// Adds what one read gives, and says whether there may be more. A read that was interrupted gives
/// nothing, and there may be more.
fn add_some<F: Read>(file: &mut F, buffer: &mut [u8], into: &mut Vec<u8>) -> Result<bool, HostFault>
    requires { 0 < length buffer.old }
    ensures taken { OnOk result (Takes (F.remaining file.old) (F.remaining file.new) into.old.items into.new.items) }
    ensures end { IfOk result (λ more. more ≡ false → IsAtEnd (F.remaining file.new)) }
    ensures most { length into.new.items ≤ length into.old.items + length buffer.old }
{
    match file.read(buffer) {
        Ok(0) => Ok(false),
        Ok(count) => {
            into.extend_from_slice(&buffer[..count])?;
            Ok(true)
        }
        Err(error) if error.kind() == ErrorKind::Interrupted => Ok(true),
        Err(error) => Err(fault_of(&error)),
    }
}
