//! The image of what a source is assembled to.

ghost use Rattle.std.specs.Prelude.{◌≡◌, ◌<◌, ◌^◌, Ok, length, IfOk};
ghost use Rattle.cell_object.specs.Reads.{reads};
ghost use Rattle.cell_object.specs.Image.{image};
ghost use Rattle.cell_assemble.specs.SourceImage.{GivesImage, image_of_source};

use cell_asm::{AsmFail, assemble};
use cell_elfw::{WriteFail, write_object};
use cell_num::Shared;
use cell_object::Object;
use std::alloc::{AllocError, Global};

/// The bytes of the object that a source is assembled to, or its first fault.
pub fn image_of_source(alloc: Global, text: &[u8]) -> Result<Shared, AsmFail>
    requires { length text.now < 2 ^ 31 }
    ensures { GivesImage result (image_of_source text.now) }
{
    let object = assemble(alloc, text)?;
    Ok(image_of(alloc, &object)?)
}

/// The image of an object that is read from it again.
fn image_of(alloc: Global, object: &Object) -> Result<Shared, AllocError>
    requires { reads (image object.now) ≡ Ok object.now }
    ensures { IfOk result (λ bytes. bytes ≡ image object.now) }
{
    match write_object(alloc, object) {
        Ok(bytes) => Ok(bytes),
        Err(WriteFail::Unwritable { .. }) => unreachable!(),
        Err(WriteFail::OutOfMemory) => Err(AllocError),
    }
}
