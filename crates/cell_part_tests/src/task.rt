//! The words of a task, and how it begins again.

ghost use Rattle.std.specs.Prelude.{◌≡◌, IfOk, None, length};
ghost use Rattle.cell_task.specs.Clearing.{CanClear};

use cell_mem::{Memory, Perm};
use cell_num::{CellId, Name};
use cell_task::*;
use cell_world::{Origin, Permission};
use std::alloc::Global;
use std::test::*;

const STACK: u64 = 0x1000_0000;

/// A stack may be read and written.
const READ_WRITE: Permission = Permission {
    read: true,
    write: true,
    exec: false,
};

/// Four pages of ones.
fn stack_bytes(alloc: Global) -> Result<Vec<u8>, Fail>
    ensures { IfOk result (λ bytes. length bytes.items ≡ 16384) }
{
    let mut bytes = Vec::new(alloc);
    bytes.resize(16384, 1)?;
    Ok(bytes)
}

/// A memory of 16 pages, of which the first four are a stack.
fn memory_with_stack(alloc: Global) -> Result<Memory, Fail>
    ensures stack { IfOk result (λ memory. CanClear memory 0x10000000) }
    ensures undo { IfOk result (λ memory. memory.undo ≡ None) }
{
    let mut memory = Memory::new(alloc, STACK, 16)?;
    memory.reserve(1)?;
    let stack = stack_bytes(alloc)?;
    memory.map(STACK, Perm::of(READ_WRITE), stack);
    Ok(memory)
}

/// That of a task whose argument is `arg`.
fn origin(alloc: Global, arg: u64) -> Result<Origin, Fail> {
    let name = Name::of(alloc, b"a::go")?;
    Ok(Origin { ns: 0, name, arg })
}

/// The pc, 31 registers and the two words of the stack from x2 on.
#[test]
fn words(rt: HostRuntime) -> Result<(), Fail> {
    let alloc = rt.alloc();
    let memory = memory_with_stack(alloc)?;
    let mut tasks = Tasks::new(alloc);
    tasks.spawn(origin(alloc, 5)?, 0x2000_0000, STACK, CellId(1))?;
    if tasks.get(1).is_none() {
        return Err("not live".into());
    }
    let mut words = Vec::new(alloc);
    tasks.words_of(1, &memory, &mut words)?;
    assert_eq!(rt; words.len(), 34);
    assert_eq!(rt; words[0], 0x2000_0000);
    assert_eq!(rt; words[2], STACK + 16368);
    assert_eq!(rt; words[10], 5);
    Ok(())
}

/// It stands at the other entry with the registers of its spawn, and its stack is all zeros.
#[test]
fn begins_again(rt: HostRuntime) -> Result<(), Fail> {
    let alloc = rt.alloc();
    let mut memory = memory_with_stack(alloc)?;
    let mut tasks = Tasks::new(alloc);
    tasks.spawn(origin(alloc, 5)?, 0x2000_0000, STACK, CellId(1))?;
    tasks.restart(1, 0x3000_0000, CellId(2), &mut memory);
    let Some(task) = tasks.get(1) else {
        return Err("not live".into());
    };
    assert_eq!(rt; task.root, CellId(2));
    assert_eq!(rt; task.stack, STACK);
    assert_eq!(rt; task.hart.pc, 0x3000_0000);
    assert_eq!(rt; task.hart.x[2], STACK + 16368);
    assert_eq!(rt; task.hart.x[10], 5);
    assert_eq!(rt; memory.load(STACK, 8), Ok(0));
    assert_eq!(rt; memory.load(STACK + 8192, 8), Ok(0));
    assert_eq!(rt; memory.load(STACK + 16376, 8), Ok(0));
    Ok(())
}
