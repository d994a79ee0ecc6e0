//! The bytes of a section as they are now.

ghost use Rattle.std.specs.Prelude.{◌≡◌, IfOk, unwrap_or, []};
ghost use Rattle.cell_world.specs.Commands.DumpCommand.{next_dump};
ghost use Rattle.cell_machine.specs.Machine.{IsSound, world_of};
ghost use Rattle.cell_world.specs.Running.Memory.{read_in};
ghost use Rattle.cell_world.specs.Following.{Follows};
ghost use Rattle.cell_machine.specs.Does.{answer_in};

use cell_machine::{Machine, unknown_number};
use cell_mem::Memory;
use cell_num::{Bytes, CellId, SecKey};
use cell_placed::{section_of, start_of};
use cell_world::{Fail, Reply};
use std::alloc::{AllocError, Global};

/// So many bytes from an address on; none where they are not in one region.
pub fn held(memory: &Memory, addr: u64, size: u32) -> &[u8]
    ensures { result.now ≡ unwrap_or (read_in memory.now.regions addr size) [] }
{
    match memory.bytes(addr, u64::from(size)) {
        Some(bytes) => bytes,
        None => &[],
    }
}

/// A copy of these bytes.
fn read(alloc: Global, memory: &Memory, addr: u64, size: u32) -> Result<Bytes, AllocError>
    ensures { IfOk result (λ bytes. bytes ≡ unwrap_or (read_in memory.now.regions addr size) []) }
{
    let bytes = held(memory, addr, size);
    Ok(Bytes::from_vec(bytes.to_vec(alloc)?))
}

/// Shows a section of a cell.
pub fn dump(alloc: Global, machine: &Machine, cell: u32, section: u32) -> Result<Reply, Fail>
    requires { IsSound machine.now }
    ensures { Follows (answer_in (world_of machine.now)) result (next_dump (world_of machine.now) cell section) }
{
    let Some(present) = machine.cell(cell) else {
        return Err(unknown_number(alloc, cell));
    };
    let Some(found) = section_of(&present.object, section) else {
        return Err(unknown_number(alloc, section));
    };
    let number = found.number;
    let start = start_of(present, number);
    let bytes = read(alloc, &machine.memory, start, found.size)?;
    Ok(Reply::Dump {
        key: SecKey {
            cell: CellId(cell),
            section: number,
        },
        start,
        bytes,
    })
}
