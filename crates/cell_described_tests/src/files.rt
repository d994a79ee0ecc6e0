//! A depot of one file, which is assembled.

ghost use Rattle.std.specs.Prelude.{◌≡◌, ◌≤◌, All, IfOk, codes, length};
ghost use Rattle.cell_num.specs.Limits.{max_file_bytes};

use cell_assemble::image_of_source;
use cell_depot::Depot;
use cell_num::{MAX_FILE_BYTES, Name, Shared};
use cell_world::File;
use std::alloc::{AllocError, Global};
use std::test::Fail;

/// Four bytes of instructions, and eight of data at a multiple of eight. Symbol 0 is defined, symbol 1
/// isn't.
const SOURCE: &[u8; 66] =
    b".text\n.globl a::go\n.globl b::go\na::go: ret\n.data\n.align 3\n.quad 7\n";

/// A depot of one file with these bytes.
fn depot_of(alloc: Global, bytes: Shared) -> Result<Depot, AllocError>
    requires { length bytes ≤ max_file_bytes }
    ensures { IfOk result (λ depot. All (λ f. length f.bytes ≤ max_file_bytes) depot) }
{
    let name = Name::of(alloc, b"k#a.o")?;
    let mut files = Vec::new(alloc);
    files.push(File { name, bytes })?;
    Depot::of_files(alloc, files)
}

/// A depot of the file whose object is assembled.
pub fn whole_depot(alloc: Global) -> Result<Depot, Fail>
    ensures { IfOk result (λ depot. All (λ f. length f.bytes ≤ max_file_bytes) depot) }
{
    let bytes = image_of_source(alloc, SOURCE)
        .ok()
        .ok_or("the source has a fault")?;
    if bytes.len() > MAX_FILE_BYTES as usize {
        return Err("the object is too long".into());
    }
    Ok(depot_of(alloc, bytes)?)
}

/// A depot whose file is no object.
pub fn broken_depot(alloc: Global) -> Result<Depot, Fail>
    ensures { IfOk result (λ depot. All (λ f. length f.bytes ≤ max_file_bytes) depot) }
{
    let bytes = Shared::from_vec(alloc, Vec::new(alloc))?;
    Ok(depot_of(alloc, bytes)?)
}
