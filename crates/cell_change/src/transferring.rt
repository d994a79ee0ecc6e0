//! What a change's routines are given, and their run.

ghost use Rattle.std.specs.Prelude.{◌≡◌, ◌<◌, ◌^◌, ◌++◌, ◌∷◌, [], All, IfOk, OnOk, IsTrue, length, nat_lt};
ghost use Rattle.cell_num.specs.Lists.{each_pair};
ghost use Rattle.cell_placed.specs.Low.{IsLow};
ghost use Rattle.cell_xfer.specs.Named.{AnswersAs};
ghost use Rattle.cell_change.specs.Transferring.{AreOld, CanRun, Gives, HasRun, new_rows, old_rows, pages_for, rows_in};

use crate::planning::Plan;
use crate::request::Change;
use cell_machine::{Machine, Staged};
use cell_mem::Memory;
use cell_num::{CellId, Name, STACK_PAGES, STACK_SIZE, zeros};
use cell_placed::cell_numbered;
use cell_routines::{add_addresses, routines_at};
use cell_world::Refusal;
use cell_xfer::{Addresses, Firsts, Transfer, carry_over};
use std::alloc::{AllocError, Global};

/// How many pages the stack of these routines has; of no routine there is none.
pub fn stack_pages(routines: &[Name]) -> u32
    ensures { result ≡ pages_for routines.now }
{
    if routines.is_empty() { 0 } else { STACK_PAGES }
}

/// Equal names.
fn copies(alloc: Global, names: &[Name]) -> Result<Vec<Name>, AllocError>
    ensures { IfOk result (λ copies. copies.items ≡ names.now) }
{
    let mut copies = Vec::new(alloc);
    for name in names {
        copies.push(name.copy(alloc)?)?;
    }
    Ok(copies)
}

/// Adds the names of an old cell with their addresses.
fn add_old(
    alloc: Global,
    machine: &Machine,
    table: &mut Firsts<u64>,
    old: CellId,
) -> Result<(), AllocError>
    requires { AreOld machine.now (old ∷ []) }
    ensures { OnOk result (AnswersAs table.new (table.old ++ rows_in machine.now old)) }
{
    match cell_numbered(&machine.cells, old.0) {
        Some(cell) => add_addresses(alloc, table, cell, machine.spaces.names(old)),
        None => unreachable!(),
    }
}

/// The names of the old cells with their addresses, in the order of the items.
fn old_addresses(
    alloc: Global,
    machine: &Machine,
    old: &[CellId],
) -> Result<Firsts<u64>, AllocError>
    requires { AreOld machine.now old.now }
    ensures { IfOk result (λ table. AnswersAs table (old_rows machine.now old.now)) }
{
    let mut table = Firsts::new(alloc);
    for cell in old {
        add_old(alloc, machine, &mut table, *cell)?;
    }
    Ok(table)
}

/// The names of the new cells with their addresses, in the order of the cells.
fn new_addresses(alloc: Global, staged: &Staged) -> Result<Firsts<u64>, AllocError>
    requires low { All IsLow staged.now.cells.items }
    requires names { length staged.now.names.items ≡ length staged.now.cells.items }
    ensures { IfOk result (λ table. AnswersAs table (new_rows staged.now.cells.items staged.now.names.items)) }
{
    let mut table = Firsts::new(alloc);
    for place in 0..staged.cells.len() {
        add_addresses(
            alloc,
            &mut table,
            &staged.cells[place],
            &staged.names[place],
        )?;
    }
    Ok(table)
}

/// What the routines of a plan take, if there are any. Their names are called so in the refusal.
pub fn transfer_for(
    alloc: Global,
    machine: &Machine,
    plan: &Plan,
    asked: &Change,
) -> Result<Option<Transfer>, AllocError>
    requires old { AreOld machine.now asked.now.replaced.items }
    requires low { All IsLow plan.now.staged.cells.items }
    requires order { IsTrue (each_pair (λ a b. nat_lt a.id.0 b.id.0) plan.now.staged.cells.items) }
    requires names { length plan.now.staged.names.items ≡ length plan.now.staged.cells.items }
    requires begins { All (λ b. b.offset < 2 ^ 32) plan.now.begins.items }
    ensures { IfOk result (Gives machine.now asked.now.replaced.items plan.now asked.now.options.routines.now asked.now.options.budget) }
{
    let Some(stack) = plan.stack else {
        return Ok(None);
    };
    let addresses = Addresses {
        old: old_addresses(alloc, machine, &asked.replaced)?,
        new: new_addresses(alloc, &plan.staged)?,
    };
    Ok(Some(Transfer {
        names: copies(alloc, asked.options.routines)?,
        routines: routines_at(alloc, &plan.staged.cells, &plan.begins)?,
        budget: asked.options.budget,
        addresses,
        stack,
        zeros: zeros(alloc, STACK_SIZE as usize)?,
    }))
}

/// Runs the routines, if there are any. This takes no memory.
pub fn run_routines(memory: &mut Memory, transfer: Option<Transfer>) -> Result<(), Refusal>
    requires { CanRun memory.old transfer }
    ensures { HasRun memory.old transfer result memory.new }
{
    match transfer {
        Some(transfer) => carry_over(memory, transfer),
        None => Ok(()),
    }
}
