//! The steps of a change after which it may still be refused. They take no memory.

ghost use Rattle.std.specs.Prelude.{◌≡◌, ◌≤◌, [], None, length, map, vec_capacity, if◌then◌else◌};
ghost use Rattle.cell_machine.specs.Machine.{IsWhole};
ghost use Rattle.cell_world.specs.Commands.UnloadCommand.{first_held as held_among};
ghost use Rattle.cell_unload.specs.Sweep.{holding_in};
ghost use Rattle.cell_change.specs.Asking.{is_strict};
ghost use Rattle.cell_change.specs.Entering.{CanEnter, CanRenew, CanSettle, CanTry, Enters, HasTried, LooksBy, Reads, Tries};
ghost use Rattle.cell_change.specs.Exchanged.{room_for};

use crate::planning::Plan;
use crate::request::Change;
use crate::restarting::restart;
use crate::transferring::run_routines;
use cell_load::{Prepared, commit};
use cell_machine::Machine;
use cell_num::CellId;
use cell_unload::{Outlook, Survey};
use cell_world::Refusal;
use cell_xfer::Transfer;

/// Adds the new cells, has the others lead to them, and runs the routines, if there are any. Where one
/// fails, that is the refusal. The answer is where holding is read from then, where it is read.
fn enter(
    machine: &mut Machine,
    plan: Plan,
    prepared: Prepared,
    transfer: Option<Transfer>,
) -> Result<Option<Outlook>, Refusal>
    requires { CanEnter machine.old plan prepared transfer }
    ensures { (e : CanEnter machine.old plan prepared transfer) → Enters e.can result machine.new }
{
    let Plan {
        staged,
        patches,
        links,
        outlook,
        begins: _,
        stack: _,
        again: _,
    } = plan;
    commit(machine, staged, prepared, &patches, &links);
    machine.memory.laid_out();
    machine.memory.keeps_shapes();
    run_routines(&mut machine.memory, transfer)?;
    Ok(outlook)
}

/// Reads from the outlook, if there is one, which cells are kept, into a list that is empty and has room for
/// all. This takes no memory.
fn read(
    machine: &Machine,
    outlook: Option<Outlook>,
    kept: Vec<CellId>,
    old: &[CellId],
) -> Option<Survey>
    requires whole { IsWhole machine.now }
    requires looks { LooksBy machine.now old.now outlook }
    requires empty { kept.items ≡ [] }
    requires room { room_for old.now (length machine.now.cells.items) ≤ vec_capacity kept }
    ensures { Reads machine.now old.now result }
{
    match outlook {
        Some(outlook) => Some(Survey::read(machine, outlook, kept)),
        None => None,
    }
}

/// The refusal of a strict change: the first of the old cells that is kept.
fn first_held(machine: &Machine, survey: &Option<Survey>, asked: &Change) -> Option<Refusal>
    requires { Reads machine.now asked.now.replaced.items survey.now }
    ensures { result ≡ (if is_strict asked.now.options.ending then held_among (holding_in machine.now []) (map (λ c. c.0) asked.now.replaced.items) else None) }
{
    if !asked.options.ending.is_strict() {
        return None;
    }
    match survey {
        Some(survey) => survey.first_held(machine, &asked.replaced),
        None => None,
    }
}

/// Reads which cells are kept, where cells were replaced, into a list that is empty and has room for all.
/// Where the change is strict and one of the old cells is kept, that is the refusal, and the way back is
/// open still.
fn settle(
    machine: &mut Machine,
    outlook: Option<Outlook>,
    kept: Vec<CellId>,
    asked: &Change,
) -> Result<Option<Survey>, Refusal>
    requires can { CanSettle machine.old asked.now outlook (vec_capacity kept) }
    requires empty { kept.items ≡ [] }
    ensures { (e : CanSettle machine.old asked.now outlook (vec_capacity kept)) → Tries e.can result machine.new }
{
    let survey = read(machine, outlook, kept, &asked.replaced);
    if let Some(refusal) = first_held(machine, &survey, asked) {
        return Err(refusal);
    }
    // What was written stays.
    machine.memory.forget();
    Ok(survey)
}

/// Has the task begin again, and reads which cells are kept then, where cells were replaced, into a list
/// that is empty and has room for all. There is no way back from here.
fn renew(
    machine: &mut Machine,
    again: u32,
    mut outlook: Option<Outlook>,
    kept: Vec<CellId>,
    asked: &Change,
) -> Option<Survey>
    requires can { CanRenew machine.old asked.now again outlook (vec_capacity kept) }
    requires empty { kept.items ≡ [] }
    ensures { (e : CanRenew machine.old asked.now again outlook (vec_capacity kept)) → HasTried e.can result machine.new }
{
    machine.memory.forget();
    restart(machine, again, &mut outlook);
    read(machine, outlook, kept, &asked.replaced)
}

/// Enters the new cells, has the task begin again, if one does, and reads which cells are kept then, where
/// cells were replaced, into a list that is empty and has room for all. Where a routine fails, or the change
/// is strict and one of the old cells is kept, that is the refusal, and the way back is open still.
pub fn try_new_cells(
    machine: &mut Machine,
    plan: Plan,
    prepared: Prepared,
    transfer: Option<Transfer>,
    kept: Vec<CellId>,
    asked: &Change,
) -> Result<Option<Survey>, Refusal>
    requires can { CanTry machine.old asked.now plan prepared transfer (vec_capacity kept) }
    requires empty { kept.items ≡ [] }
    ensures { (t : CanTry machine.old asked.now plan prepared transfer (vec_capacity kept)) → Tries t.can result machine.new }
{
    let again = plan.again;
    let outlook = enter(machine, plan, prepared, transfer)?;
    match again {
        Some(again) => Ok(renew(machine, again, outlook, kept, asked)),
        None => settle(machine, outlook, kept, asked),
    }
}
