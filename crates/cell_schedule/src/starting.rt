//! `spawn`

ghost use Rattle.std.specs.Prelude.{◌≡◌, ◌<◌, ◌≤◌, is_some, length, true};
ghost use Rattle.cell_world.specs.Following.{Follows};
ghost use Rattle.cell_machine.specs.Machine.{IsSound, world_of};
ghost use Rattle.cell_world.specs.declared.refusal.Refusal.TheVariants.{Exhausted as TooFull};
ghost use Rattle.cell_world.specs.Commands.SpawnCommand.{next_spawn};
ghost use Rattle.cell_world.specs.World.{cell_of};
ghost use Rattle.cell_machine.specs.Does.{Does, one_stack};
ghost use Rattle.cell_schedule.specs.Starts.{entry_as, may_start, started};

use crate::entry::{Entry, entry_for};
use cell_machine::{Machine, namespace};
use cell_mem::Perm;
use cell_num::{MAX_TASK_NUMBER, MAX_TASKS, Name, STACK_PAGES, STACK_SIZE, zeros};
use cell_place::NoRun;
use cell_task::Tasks;
use cell_world::{Fail, Many, Origin, Permission, Refusal, Reply};
use std::alloc::Global;

/// A stack may be read and written.
const READ_WRITE: Permission = Permission {
    read: true,
    write: true,
    exec: false,
};

/// Sees that one more task may come, else E4.
fn check(tasks: &Tasks) -> Result<(), Fail>
    ensures { Follows (λ _. tt) result (may_start tasks.now) }
{
    if tasks.count() >= MAX_TASKS as usize {
        return Err(Fail::Refused(Refusal::TooMany {
            kind: Many::Tasks,
            limit: MAX_TASKS,
        }));
    }
    if tasks.next() > MAX_TASK_NUMBER {
        return Err(Fail::Refused(Refusal::TooMany {
            kind: Many::TaskNumbers,
            limit: MAX_TASK_NUMBER,
        }));
    }
    Ok(())
}

/// E11: no free run is long enough.
fn exhausted(none: NoRun) -> Refusal
    ensures { result ≡ TooFull none.wanted none.largest }
{
    Refusal::Exhausted {
        wanted: none.wanted,
        largest: none.largest,
    }
}

/// Starts a task on a stack of its own. All that can fail comes before the stack is mapped, or is
/// taken back.
fn start(alloc: Global, machine: &mut Machine, entry: Entry, origin: Origin) -> Result<Reply, Fail>
    requires sound { IsSound machine.old }
    requires few { length machine.old.tasks.tasks < 64 }
    requires numbers { machine.old.tasks.next ≤ 65535 }
    requires known { origin.ns < length machine.old.spaces.namespaces }
    requires present { is_some (cell_of (world_of machine.old) entry.cell.0) ≡ true }
    ensures { Does (started (world_of machine.old) (entry_as entry) origin) one_stack machine.old result machine.new }
{
    let bytes = zeros(alloc, STACK_SIZE as usize)?;
    machine.memory.reserve(1)?;
    let run = match machine.space.take(STACK_PAGES) {
        Ok(run) => run,
        Err(none) => return Err(Fail::Refused(exhausted(none))),
    };
    let stack = machine.space.address_of(run);
    let task = match machine.tasks.spawn(origin, entry.addr, stack, entry.cell) {
        Ok(task) => task,
        Err(_) => {
            machine.space.give(run);
            return Err(Fail::OutOfMemory);
        }
    };
    machine.memory.map(stack, Perm::of(READ_WRITE), bytes);
    Ok(Reply::Spawn {
        task,
        pc: entry.addr,
    })
}

/// Starts a task where the provider of a name has it, with an argument, on a stack of its own.
///
/// Refusals, of which the first that holds is answered: a namespace that isn't there, too many live
/// tasks, no number left, a name that nobody provides or at which no task may begin, and no four
/// free pages in a row.
pub fn spawn(
    alloc: Global,
    machine: &mut Machine,
    ns: &[u8],
    symbol: &[u8],
    arg: u64,
) -> Result<Reply, Fail>
    requires { IsSound machine.old }
    ensures { Does (next_spawn (world_of machine.old) ns.now symbol.now arg) one_stack machine.old result machine.new }
{
    let ns = namespace(alloc, &machine.spaces, ns)?;
    check(&machine.tasks)?;
    let entry = entry_for(alloc, machine, ns, symbol)?;
    let name = Name::of(alloc, symbol)?;
    start(alloc, machine, entry, Origin { ns, name, arg })
}
