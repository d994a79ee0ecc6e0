//! The bytes that words are read from.

ghost use Rattle.std.specs.Prelude.{◌≡◌, ◌≤◌, [], drop, length, take, unwrap_or};
ghost use Rattle.cell_num.specs.Bits.{little};
ghost use Rattle.cell_world.specs.Kept.{words_inside};
ghost use Rattle.cell_world.specs.Running.Memory.{read_in};
ghost use Rattle.cell_world.specs.Placed.Layout.{gap};
ghost use Rattle.cell_world.specs.Running.Words.{stack_words, words_in};
ghost use Rattle.cell_hold.specs.Roots.{task_of};

use crate::roots::TaskView;
use byteorder::{ByteOrder, LittleEndian};
use cell_mem::Memory;
use cell_task::stack_bytes;
use cell_world::Placed;

/// So many bytes from an address on; none where they aren't mapped.
fn read(memory: &Memory, addr: u64, count: u64) -> &[u8]
    ensures { result.now ≡ unwrap_or (read_in memory.now.regions addr count) [] }
{
    match memory.bytes(addr, count) {
        Some(bytes) => bytes,
        None => &[],
    }
}

/// What follows so many bytes.
pub fn after(bytes: &[u8], count: usize) -> &[u8]
    ensures { result.now ≡ drop count bytes.now }
{
    if count > bytes.len() {
        return &[];
    }
    &bytes[count..]
}

/// The word that the bytes begin with.
pub fn first_word(bytes: &[u8]) -> u64
    requires { 8 ≤ length bytes.now }
    ensures { result ≡ little (take 8 bytes.now) }
{
    LittleEndian::read_u64(bytes)
}

/// How far the next multiple of 8 is.
fn to_aligned(addr: u64) -> usize
    ensures { result ≡ gap addr 8 }
{
    ((8 - addr % 8) % 8) as usize
}

/// The bytes of a section from its first aligned word on.
pub fn section_bytes<'a>(memory: &'a Memory, place: &Placed) -> &'a [u8]
    ensures { words_in result.now ≡ words_inside memory.now.regions place.now }
{
    let bytes = read(memory, place.start, u64::from(place.size));
    after(bytes, to_aligned(place.start))
}

/// The bytes of a task's stack that count.
pub fn stack_of<'a>(memory: &'a Memory, task: &TaskView) -> &'a [u8]
    ensures { words_in result.now ≡ stack_words memory.now.regions (task_of task.now) }
{
    stack_bytes(memory, task.stack, task.x[2])
}
