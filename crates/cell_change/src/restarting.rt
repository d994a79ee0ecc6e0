//! A task that begins again once the new cells are there.

ghost use Rattle.std.specs.Prelude.{◌≡◌, ◌++◌, IfOk, IsTrue, Some, is_some, nat_lt, true};
ghost use Rattle.cell_num.specs.Lists.{In, each_pair};
ghost use Rattle.cell_space.specs.Named.{provider_as, provider_for};
ghost use Rattle.cell_task.specs.State.{live_in};
ghost use Rattle.cell_world.specs.Coherent.{IsLoadable};
ghost use Rattle.cell_world.specs.Names.{chain};
ghost use Rattle.cell_world.specs.World.{Task as LiveTask, World};
ghost use Rattle.cell_world.specs.declared.refusal.Refusal.TheVariants.{NoEntry as NoSuchEntry};
ghost use Rattle.cell_world.specs.declared.state.NewCell.{NewCell as Cell};
ghost use Rattle.cell_world.specs.declared.state.Standing.TheVariants.{Attached};
ghost use Rattle.cell_change.specs.Asking.{restart_by};
ghost use Rattle.cell_change.specs.Restarting.{AreAhead, Begins, CanBegin, CanRestart, HasBegunAgain, HasRestarted, KnowOrigins, Renews, has_begin};

use crate::request::Options;
use cell_gather::Gathered;
use cell_machine::Machine;
use cell_num::Name;
use cell_placed::cell_among;
use cell_routines::can_begin_at;
use cell_schedule::find_entry;
use cell_space::Provider;
use cell_unload::{Outlook, view_of};
use cell_world::{Fail, Origin, Refusal};
use std::alloc::{AllocError, Global};

/// E10: no task can begin where the name is, or nobody provides it.
fn no_entry(alloc: Global, name: &Name) -> Result<Refusal, AllocError>
    ensures { IfOk result (λ refusal. refusal ≡ NoSuchEntry name.now) }
{
    Ok(Refusal::NoEntry {
        name: name.copy(alloc)?,
    })
}

/// Whether a task may begin at the provider's symbol. The cell may have no place yet.
fn may_begin_at(
    alloc: Global,
    machine: &Machine,
    gathered: &Gathered,
    provider: &Provider,
) -> Result<bool, AllocError>
    requires rise { IsTrue (each_pair (λ a b. nat_lt a.id.0 b.id.0) (machine.now.cells.items ++ gathered.now.cells.items)) }
    requires loadable { (c : Cell) → In c (machine.now.cells.items ++ gathered.now.cells.items) → IsLoadable c.object }
    ensures { IfOk result (λ may. may ≡ has_begin (machine.now.cells.items ++ gathered.now.cells.items) (Some (provider_as provider.now))) }
{
    match cell_among(&machine.cells, &gathered.cells, provider.cell.0) {
        Some(cell) => can_begin_at(alloc, cell, provider.symbol),
        None => Ok(false),
    }
}

/// Whether a task may begin where the origin says, once the new cells are attached.
fn has_entry(
    alloc: Global,
    machine: &Machine,
    gathered: &Gathered,
    origin: &Origin,
) -> Result<bool, AllocError>
    requires { CanBegin machine.now gathered.now origin.now }
    ensures { IfOk result (λ has. has ≡ has_begin (machine.now.cells.items ++ gathered.now.cells.items) (provider_for (chain gathered.now.ahead.namespaces origin.now.ns) Attached origin.now.name gathered.now.ahead.cells)) }
{
    match gathered.ahead.provider(origin.ns, origin.name.bytes()) {
        Some(provider) => may_begin_at(alloc, machine, gathered, &provider),
        None => Ok(false),
    }
}

/// The task that begins again, if the change names one that is live. It begins where its spawn had it begin.
pub fn begin_again(
    alloc: Global,
    machine: &Machine,
    gathered: &Gathered,
    options: &Options,
) -> Result<Option<u32>, Fail>
    requires { KnowOrigins machine.now gathered.now }
    ensures { (w : World) → AreAhead w machine.now gathered.now → Begins w machine.now.tasks (restart_by options.now.ending) result }
{
    let Some(task) = options.ending.restarts() else {
        return Ok(None);
    };
    let Some(live) = machine.tasks.get(task) else {
        return Ok(None);
    };
    let has = has_entry(alloc, machine, gathered, &live.origin)?;
    if has {
        return Ok(Some(task));
    }
    Err(Fail::Refused(no_entry(alloc, &live.origin.name)?))
}

/// Has holding begin where the task stands now, if it is read.
fn look_again(machine: &Machine, outlook: &mut Option<Outlook>, task: u32)
    requires { is_some (live_in machine.now.tasks task) ≡ true }
    ensures { (t : LiveTask) → live_in machine.now.tasks task ≡ Some t → Renews t outlook.old outlook.new }
{
    let Some(live) = machine.tasks.get(task) else {
        unreachable!();
    };
    if let Some(outlook) = outlook {
        outlook.renew(view_of(task, live));
    }
}

/// Has the task begin where its spawn had it begin, on a stack of zeros.
fn begin(machine: &mut Machine, task: u32)
    requires { CanRestart machine.old task }
    ensures { (c : CanRestart machine.old task) → HasBegunAgain c machine.new }
{
    let Some(live) = machine.tasks.get(task) else {
        unreachable!();
    };
    let Some(entry) = find_entry(machine, live.origin.ns, live.origin.name.bytes()) else {
        unreachable!();
    };
    machine
        .tasks
        .restart(task, entry.addr, entry.cell, &mut machine.memory);
}

/// Has the task begin again, and holding begin where it stands then. This takes no memory.
pub fn restart(machine: &mut Machine, task: u32, outlook: &mut Option<Outlook>)
    requires { CanRestart machine.old task }
    ensures { (c : CanRestart machine.old task) → HasRestarted c outlook.old machine.new outlook.new }
{
    begin(machine, task);
    look_again(machine, outlook, task);
}
