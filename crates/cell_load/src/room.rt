//! Room for what staged cells add.

ghost use Rattle.std.specs.Prelude.{◌≡◌, ◌+◌, IfOk, OnOk};
ghost use Rattle.cell_commit.specs.Cells.{name_count as names_in, section_count as sections_in};
ghost use Rattle.cell_load.specs.Adding.{HasRoomFor};
ghost use Rattle.cell_machine.specs.Same.{IsSame};

use crate::prepared::Prepared;
use cell_commit::{CellSections, Newcomer};
use cell_machine::{Machine, Staged};
use std::alloc::AllocError;

/// A count of what is in memory, which has no room for 2^32 of them.
pub fn count(n: usize) -> Result<u32, AllocError>
    ensures { IfOk result (λ k. k ≡ n) }
{
    match u32::try_from(n) {
        Ok(n) => Ok(n),
        Err(_) => Err(AllocError),
    }
}

/// So many more than n.
fn plus(n: u32, more: usize) -> Result<u32, AllocError>
    ensures { IfOk result (λ k. k ≡ n + more) }
{
    match n.checked_add(count(more)?) {
        Some(n) => Ok(n),
        None => Err(AllocError),
    }
}

/// How many sections the cells have.
fn section_count(cells: &[CellSections]) -> Result<u32, AllocError>
    ensures { IfOk result (λ n. n ≡ sections_in cells.now) }
{
    let mut n = 0u32;
    for cell in cells {
        n = plus(n, cell.sections.len())?;
    }
    Ok(n)
}

/// How many names the cells have.
fn name_count(newcomers: &[Newcomer]) -> Result<u32, AllocError>
    ensures { IfOk result (λ n. n ≡ names_in newcomers.now) }
{
    let mut n = 0u32;
    for newcomer in newcomers {
        n = plus(plus(n, newcomer.weak.len())?, newcomer.names.len())?;
    }
    Ok(n)
}

/// Makes room for all that the staged cells add, and for so many links of others. Nothing else changes, also where memory is lacking.
#[tactic(auto, using(cell_machine::proofs::Unchanged::same_itself))]
pub fn reserve(
    machine: &mut Machine,
    staged: &Staged,
    prepared: &Prepared,
    binds: usize,
) -> Result<(), AllocError>
    ensures room { OnOk result (HasRoomFor machine.new staged.now prepared.now binds) }
    ensures same { IsSame machine.old machine.new }
{
    let regions = count(staged.regions.len())?;
    let sections = section_count(&prepared.sections)?;
    let rows = plus(count(binds)?, staged.rows.len())?;
    let newcomers = count(prepared.newcomers.len())?;
    let names = name_count(&prepared.newcomers)?;
    machine.memory.reserve(regions)?;
    machine.graph.reserve(sections, rows)?;
    machine.spaces.reserve(newcomers, names)?;
    machine.soft.reserve(prepared.soft.len())?;
    machine.cells.reserve(staged.cells.len())
}
