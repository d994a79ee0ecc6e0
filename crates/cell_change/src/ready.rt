//! A plan with all that its last steps take, and these steps.

ghost use Rattle.std.specs.Prelude.{◌≡◌, ◌+◌, ◌≤◌, All, IfOk, OnOk, length};
ghost use Rattle.cell_world.specs.Coherent.{IsLoadable};
ghost use Rattle.cell_machine.specs.Same.{IsSame};
ghost use Rattle.cell_load.specs.Adding.{HasRoomFor, IsPrepared};
ghost use Rattle.cell_change.specs.Exchanged.{AreEmpty, CanFinish, CanTake, Finishes, HasTaken, IsReadyFor, room_for};
ghost use Rattle.cell_change.specs.Transferring.{turns_in};

use crate::back::undo_new_cells;
use crate::entering::try_new_cells;
use crate::made::Made;
use crate::planning::Plan;
use crate::request::Change;
use crate::sweep::sweep;
use crate::transferring::transfer_for;
use cell_commit::Rewiring;
use cell_load::{Prepared, count, numbers, reserve};
use cell_machine::{Machine, Staged};
use cell_num::{CellId, Listed};
use cell_world::Refusal;
use cell_xfer::Transfer;
use std::alloc::{AllocError, Global};
use std::mem::replace;

/// How many turns the routines have, if there are any.
fn turns_of(transfer: &Option<Transfer>) -> u32
    ensures { result ≡ turns_in transfer.now }
{
    match transfer {
        Some(transfer) => transfer.budget,
        None => 0,
    }
}

/// Empty lists that the last steps fill.
#[derive(Drop)]
struct Lists {
    kept: Vec<CellId>,
    removed: Vec<CellId>,
    aside: Vec<CellId>,
}

impl Lists {
    /// Each with room for so many cells.
    fn with_room(alloc: Global, cells: usize) -> Result<Lists, AllocError>
        ensures { IfOk result (AreEmpty cells) }
    {
        Ok(Lists {
            kept: Vec::with_capacity(alloc, cells)?,
            removed: Vec::with_capacity(alloc, cells)?,
            aside: Vec::with_capacity(alloc, cells)?,
        })
    }

    /// With room for all cells, where it is needed.
    fn for_plan(
        alloc: Global,
        machine: &Machine,
        plan: &Plan,
        asked: &Change,
    ) -> Result<Lists, AllocError>
        ensures { IfOk result (AreEmpty (room_for asked.now.replaced.items (length machine.now.cells.items + length plan.now.staged.cells.items))) }
    {
        let cells = machine.cells.len() + plan.staged.cells.len();
        let room = list_room(&asked.replaced, cells);
        Lists::with_room(alloc, room)
    }
}

/// How much room lists of all cells need: none where no cell is replaced, since nothing is listed then.
fn list_room(replaced: &[CellId], cells: usize) -> usize
    ensures { result ≡ room_for replaced.now cells }
{
    if replaced.is_empty() { 0 } else { cells }
}

/// How many fields the plan patches, those of the new cells and those of others.
fn patch_count(plan: &Plan) -> Result<u32, AllocError>
    ensures { IfOk result (λ n. n ≡ length plan.now.staged.fields.items + length plan.now.patches.items) }
{
    count(plan.staged.fields.len() + plan.patches.len())
}

/// How many writes there may be: so many patches, and one for each turn of a routine.
fn write_count(patched: u32, transfer: &Option<Transfer>) -> Result<u32, AllocError>
    ensures { IfOk result (λ n. n ≡ patched + turns_in transfer.now) }
{
    count(patched as usize + turns_of(transfer) as usize)
}

/// What the parts of the machine take over from the staged cells, whose names are taken out of them.
fn prepare(alloc: Global, staged: &mut Staged) -> Result<Prepared, AllocError>
    requires named { length staged.old.names.items ≡ length staged.old.cells.items }
    requires loadable { All (λ c. IsLoadable c.object) staged.old.cells.items }
    ensures prepared { IfOk result (IsPrepared staged.old.cells.items staged.old.names.items) }
    ensures rest { staged.new ≡ record staged.old { names = staged.new.names } }
{
    let names = replace(&mut staged.names, Vec::new(alloc));
    let prepared = Prepared::of(alloc, &staged.cells, names)?;
    Ok(prepared)
}

/// Makes room for what the plan adds, and for the stack of the routines. Nothing else changes, also
/// where memory is lacking.
fn make_room(machine: &mut Machine, plan: &Plan, prepared: &Prepared) -> Result<(), AllocError>
    ensures room { OnOk result (HasRoomFor machine.new plan.now.staged prepared.now (length plan.now.links.binds.items)) }
    ensures stack { OnOk result (length plan.now.staged.regions.items + 1 ≤ machine.new.memory.spare) }
    ensures same { IsSame machine.old machine.new }
{
    reserve(machine, &plan.staged, prepared, plan.links.binds.len())?;
    let regions = count(plan.staged.regions.len() + 1)?;
    machine.memory.reserve(regions)?;
    Ok(())
}

/// All that the last steps of a change take: they need no memory and can't fail.
#[derive(Drop)]
pub struct Ready {
    /// The names of its cells are in `prepared`.
    plan: Plan,
    prepared: Prepared,
    lists: Lists,
    /// The new cells, as they are answered.
    fresh: Listed<CellId>,
    /// How many fields are patched, those of the new cells and those of others.
    patched: u32,
    /// How many writes there may be: those of the fields, and one for each turn of a routine.
    pub writes: u32,
    /// What the routines take, if there are any.
    transfer: Option<Transfer>,
    /// What takes back what becomes of links.
    back: Rewiring,
}

impl Ready {
    /// All that is made beside the machine.
    fn for_plan(
        alloc: Global,
        machine: &Machine,
        mut plan: Plan,
        asked: &Change,
    ) -> Result<Ready, AllocError>
        requires { CanTake machine.now asked.now plan }
        ensures { IfOk result (HasTaken machine.now asked.now plan) }
    {
        let lists = Lists::for_plan(alloc, machine, &plan, asked)?;
        let patched = patch_count(&plan)?;
        let fresh = numbers(alloc, &plan.staged.cells)?;
        let transfer = transfer_for(alloc, machine, &plan, asked)?;
        let writes = write_count(patched, &transfer)?;
        let back = plan.links.turned(alloc)?;
        let prepared = prepare(alloc, &mut plan.staged)?;
        Ok(Ready {
            plan,
            prepared,
            lists,
            fresh,
            patched,
            writes,
            transfer,
            back,
        })
    }

    /// Makes room for the plan in the machine, and for the answer.
    pub fn of(
        alloc: Global,
        machine: &mut Machine,
        plan: Plan,
        asked: &Change,
    ) -> Result<Ready, AllocError>
        requires { CanTake machine.old asked.now plan }
        ensures ready { IfOk result (IsReadyFor machine.old asked.now plan machine.new) }
        ensures same { IsSame machine.old machine.new }
    {
        let ready = Ready::for_plan(alloc, machine, plan, asked)?;
        make_room(machine, &ready.plan, &ready.prepared)?;
        Ok(ready)
    }

    /// Adds the new cells, has the others lead to them, runs the routines, and removes all cells that
    /// nobody keeps then, where cells were replaced. Where a routine fails, or the change is strict and
    /// one of the replaced cells is kept, that is the refusal, and but for counts the machine is as it was
    /// before the undo was begun.
    pub fn finish(self, machine: &mut Machine, asked: &Change) -> Result<Made, Refusal>
        requires { CanFinish machine.old asked.now self }
        ensures { (c : CanFinish machine.old asked.now self) → Finishes c result machine.new }
    {
        let Ready {
            plan,
            prepared,
            lists,
            fresh,
            patched,
            writes: _,
            transfer,
            back,
        } = self;
        let Lists {
            kept,
            mut removed,
            mut aside,
        } = lists;
        let survey = match try_new_cells(machine, plan, prepared, transfer, kept, asked) {
            Ok(survey) => survey,
            Err(refusal) => {
                undo_new_cells(machine, &back, fresh.as_slice());
                return Err(refusal);
            }
        };
        sweep(machine, &survey, &mut removed, &mut aside);
        Ok(Made {
            fresh,
            patched,
            removed: Listed::from_vec(removed),
            aside: Listed::from_vec(aside),
        })
    }
}
