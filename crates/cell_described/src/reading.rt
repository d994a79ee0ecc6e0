//! The object of a file.

ghost use Rattle.std.specs.Prelude.{◌≡◌, ◌≤◌, IfOk, IfSome, length};
ghost use Rattle.std.specs.Result.{result_ok};
ghost use Rattle.cell_object.specs.Sound.{IsLoadable};
ghost use Rattle.cell_world.specs.Gather.{source_of};
ghost use Rattle.cell_num.specs.Limits.{max_file_bytes};

use cell_elf::{ReadFail, read_object};
use cell_got::lower_got;
use cell_object::Object;
use cell_world::File;
use std::alloc::{AllocError, Global};

/// The object of the file, lowered, unless it breaks a rule.
pub fn read(alloc: Global, file: &File) -> Result<Option<Object>, AllocError>
    requires { length file.now.bytes ≤ max_file_bytes }
    ensures object { IfOk result (λ object. object ≡ result_ok (source_of file.now).reading) }
    ensures loadable { IfOk result (λ object. IfSome object IsLoadable) }
{
    match read_object(alloc, &file.bytes) {
        Ok(object) => Ok(Some(lower_got(alloc, object)?)),
        Err(ReadFail::BadObject { .. }) => Ok(None),
        Err(ReadFail::OutOfMemory) => Err(AllocError),
    }
}
