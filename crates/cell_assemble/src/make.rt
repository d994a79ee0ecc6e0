//! The object of a source in a folder.

ghost use Rattle.std.specs.Prelude.{◌≡◌, ◌≢◌, ◌≤◌, Err, length, IfOk, IsErrOf};
ghost use Rattle.cell_io.specs.Causes.{HasCause};
ghost use Rattle.cell_io.specs.Files.{folder};
ghost use Rattle.cell_io.specs.Within.{IfTold, Gives};
ghost use Rattle.cell_num.specs.Limits.{max_source_bytes};
ghost use Rattle.cell_assemble.specs.Assembling.{source_in, object_of, object_in};

use crate::image::image_of_source;
use crate::status::Refusal;
use cell_asm::AsmFail;
use cell_io::{Host, Stop, is_listed, list_within, read_within};
use cell_num::{MAX_NAMES, MAX_SOURCE_BYTES, Shared};
use std::alloc::Global;

/// The bytes of the object of the source of that name in a folder.
pub fn object_in<H: Host>(
    alloc: Global,
    dir: &str,
    source: &str,
    host: &mut H,
) -> Result<Shared, Stop<Refusal>>
    ensures object { IfTold (H.files host.old) (λ all.
        Gives (λ bytes. bytes) result (object_in source.now (folder dir.now all))) }
    ensures files { H.files host.new ≡ H.files host.old }
    ensures cause { HasCause (H.faults host.old) (H.faults host.new) (IsErrOf result Stop.ReadFault) }
{
    let text = source_in(alloc, dir, source, host)?;
    object_of(alloc, text.as_slice())
}

/// Reads the source of that name in a folder, in which it has to be.
fn source_in<H: Host>(
    alloc: Global,
    dir: &str,
    source: &str,
    host: &mut H,
) -> Result<Vec<u8>, Stop<Refusal>>
    ensures bytes { IfTold (H.files host.old) (λ all.
        Gives (λ bytes. bytes.items) result (source_in source.now (folder dir.now all))) }
    ensures short { IfOk result (λ bytes. length bytes.items ≤ max_source_bytes) }
    ensures files { H.files host.new ≡ H.files host.old }
    ensures cause { HasCause (H.faults host.old) (H.faults host.new) (IsErrOf result Stop.ReadFault) }
{
    let names = list_within(alloc, dir, MAX_NAMES, Refusal::TooManyNames, host)?;
    if !is_listed(source, names.as_slice()) {
        return Err(Stop::Refused(Refusal::NoSource));
    }
    read_within(alloc, dir, source, MAX_SOURCE_BYTES, Refusal::TooLong, host)
}

/// The bytes of the object that a source is assembled to.
fn object_of(alloc: Global, text: &[u8]) -> Result<Shared, Stop<Refusal>>
    requires { length text.now ≤ max_source_bytes }
    ensures object { Gives (λ bytes. bytes) result (object_of text.now) }
    ensures no_fault { result ≢ Err Stop.ReadFault }
{
    match image_of_source(alloc, text) {
        Ok(image) => Ok(image),
        Err(AsmFail::Fault { line, kind }) => Err(Stop::Refused(Refusal::Fault { line, kind })),
        Err(AsmFail::OutOfMemory) => Err(Stop::OutOfMemory),
    }
}
