//! The object of a file.

ghost use Rattle.std.specs.Prelude.{◌≡◌, ◌≤◌, IfOk, length};
ghost use Rattle.cell_num.specs.Limits.{max_file_bytes};
ghost use Rattle.cell_world.specs.Coherent.{IsLoadable};
ghost use Rattle.cell_world.specs.Gather.{source_of, object_in};
ghost use Rattle.cell_gather.specs.Reading.{FailsToRead};
ghost use Rattle.cell_world.specs.Following.{Follows};

use cell_elf::{ReadFail, read_object};
use cell_got::lower_got;
use cell_object::Object;
use cell_world::{Fail, File, Refusal};
use std::alloc::Global;

/// Why the file is not read: E7, or want of memory.
fn read_failed(alloc: Global, file: &File, fail: ReadFail) -> Fail
    ensures { FailsToRead file.now fail result }
{
    match fail {
        ReadFail::BadObject { rule, at } => match file.name.copy(alloc) {
            Ok(file) => Fail::Refused(Refusal::BadObject { file, rule, at }),
            Err(_) => Fail::OutOfMemory,
        },
        ReadFail::OutOfMemory => Fail::OutOfMemory,
    }
}

/// The object of a file, lowered.
pub fn read(alloc: Global, file: &File) -> Result<Object, Fail>
    requires { length file.now.bytes ≤ max_file_bytes }
    ensures object { Follows (λ object. object) result (object_in (source_of file.now)) }
    ensures loadable { IfOk result IsLoadable }
{
    match read_object(alloc, &file.bytes) {
        Ok(object) => Ok(lower_got(alloc, object)?),
        Err(fail) => Err(read_failed(alloc, file, fail)),
    }
}
