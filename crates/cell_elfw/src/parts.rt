//! The parts of the file.

ghost use Rattle.std.specs.Prelude.{◌≡◌, ◌++◌, length, IfOk, OnOk};
ghost use Rattle.cell_object.specs.ImageParts.{padded};

use std::alloc::AllocError;

const PADDING: [u8; 8] = [0; 8];

/// Appends a part, and zero bytes up to the next multiple of 8, and says where the part begins.
pub fn put_part(part: &[u8], file: &mut Vec<u8>) -> Result<u64, AllocError>
    ensures offset { IfOk result (λ offset. offset ≡ length file.old.items) }
    ensures file { OnOk result (file.new.items ≡ file.old.items ++ padded part.now) }
{
    let offset = file.len() as u64;
    file.extend_from_slice(part)?;
    file.extend_from_slice(&PADDING[..(8 - part.len() % 8) % 8])?;
    Ok(offset)
}
