//! The words of a task: what of it may point into cells.

ghost use Rattle.std.specs.Prelude.{◌≡◌, ◌≤◌, ◌++◌, slice_index, length, option_map, IfSome, OnOk};
ghost use Rattle.cell_num.specs.Limits.{stack_size};
ghost use Rattle.cell_world.specs.Running.Memory.{read_in};
ghost use Rattle.cell_world.specs.Running.Words.{stack_from, stack_words, words_in, words_of};
ghost use Rattle.cell_world.specs.World.{Task as LiveTask};
ghost use Rattle.cell_task.specs.State.{seen_as};

use crate::Task;
use byteorder::{ByteOrder, LittleEndian};
use cell_mem::Memory;
use cell_num::STACK_SIZE;
use std::alloc::AllocError;

/// The words of a task whose whole stack counts.
const MOST_WORDS: usize = 2080;

/// How many bytes of the stack stand below its first word: none where `top` is outside the stack.
fn stack_from(stack: u64, top: u64) -> usize
    ensures value { (t : LiveTask) → t.stack ≡ stack → slice_index t.registers 2 ≡ top → result ≡ stack_from t }
    ensures inside { result ≤ stack_size }
{
    if stack <= top && top - stack <= STACK_SIZE {
        return ((top - stack) / 8 * 8) as usize;
    }
    0
}

/// The bytes of a stack, where it is mapped.
fn whole_stack(memory: &Memory, stack: u64) -> Option<&[u8]>
    ensures bytes { option_map (λ bytes. bytes.now) result ≡ read_in memory.now.regions stack stack_size }
    ensures size { IfSome result (λ bytes. length bytes.now ≡ stack_size) }
{
    memory.bytes(stack, STACK_SIZE)
}

/// The bytes of a stack that count: those from the word on that x2, here `top`, points into, or all
/// of them where it is outside the stack. A stack that isn't mapped has none.
pub fn stack_bytes(memory: &Memory, stack: u64, top: u64) -> &[u8]
    ensures { (t : LiveTask) → t.stack ≡ stack → slice_index t.registers 2 ≡ top → words_in result.now ≡ stack_words memory.now.regions t }
{
    let from = stack_from(stack, top);
    match whole_stack(memory, stack) {
        Some(bytes) => &bytes[from..],
        None => &[],
    }
}

/// Appends the whole words that the bytes are.
fn put_whole_words(bytes: &[u8], into: &mut Vec<u64>) -> Result<(), AllocError>
    ensures { OnOk result (into.new.items ≡ into.old.items ++ words_in bytes.now) }
{
    for k in 0..bytes.len() / 8 {
        into.push(LittleEndian::read_u64(&bytes[8 * k..]))?;
    }
    Ok(())
}

/// Appends the words of a task. A stack that isn't mapped has none.
pub fn put_words(live: &Task, memory: &Memory, into: &mut Vec<u64>) -> Result<(), AllocError>
    ensures { OnOk result (into.new.items ≡ into.old.items ++ words_of memory.now.regions (seen_as 0 live.now)) }
{
    into.reserve(MOST_WORDS)?;
    into.push(live.hart.pc)?;
    into.extend_from_slice(&live.hart.x[1..])?;
    let stack = stack_bytes(memory, live.stack, live.hart.x[2]);
    put_whole_words(stack, into)
}
