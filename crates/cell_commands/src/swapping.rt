//! `swap`

ghost use Rattle.std.specs.Prelude.{◌≡◌, ◌<◌, ◌≤◌, All, IfOk, length, map};
ghost use Rattle.cell_machine.specs.Does.{Does};
ghost use Rattle.cell_machine.specs.Machine.{IsSound, world_of};
ghost use Rattle.cell_num.specs.Limits.{max_file_bytes};
ghost use Rattle.cell_world.specs.Commands.Asked.{next_swap, want_of, wants_of};
ghost use Rattle.cell_world.specs.Following.{Follows};
ghost use Rattle.cell_world.specs.Gather.{source_of};
ghost use Rattle.cell_commands.specs.Counted.{swap_counts};
ghost use Rattle.cell_commands.specs.Items.{AddsWant, Asks, ending_for as ending_said, old_placed, options_of};

use crate::wants::{file_named, push, want};
use cell_change::{Change, Ending, Made, Options, make_change};
use cell_depot::Depot;
use cell_machine::Machine;
use cell_num::Name;
use cell_unload::named_cell;
use cell_world::{CellName, Fail, NewCell, Reply, SwapItem};
use std::alloc::{AllocError, Global};

/// What the words of a swap say beside its items.
#[derive(Clone, Copy)]
pub struct SwapWords<'a> {
    /// The new cells take on the names of the old ones that they don't define.
    pub reexport: bool,
    /// The swap is refused where an old cell is still kept.
    pub strict: bool,
    /// The names of the routines that run once the new cells are there.
    pub routines: &'a [Name],
    /// How many turns all routines have together.
    pub budget: u32,
}

/// How a swap ends: no task begins again.
fn ending_for(strict: bool) -> Ending
    ensures { result ≡ ending_said strict }
{
    if strict {
        Ending::Strict
    } else {
        Ending::Lenient
    }
}

impl<'a> SwapWords<'a> {
    /// What the change does that they ask for.
    fn options(&self) -> Options<'a>
        ensures { result ≡ options_of self.now }
    {
        Options {
            reexport: self.reexport,
            routines: self.routines,
            budget: self.budget,
            ending: ending_for(self.strict),
        }
    }
}

/// The name of the cell that an item replaces.
fn old_name(alloc: Global, item: &SwapItem) -> Result<CellName, AllocError>
    ensures { IfOk result (λ name. name ≡ record { ns = item.now.ns; stem = item.now.stem }) }
{
    Ok(CellName {
        ns: item.ns.copy(alloc)?,
        stem: item.stem.copy(alloc)?,
    })
}

/// The attached cell that an item replaces.
fn old_cell<'a>(alloc: Global, machine: &'a Machine, item: &SwapItem) -> Result<&'a NewCell, Fail>
    requires { IsSound machine.now }
    ensures { Follows (λ c. c.now) result (old_placed (world_of machine.now) item.now) }
{
    let name = old_name(alloc, item)?;
    let number = named_cell(alloc, machine, &name)?;
    match machine.cell(number.0) {
        Some(cell) => Ok(cell),
        None => unreachable!(),
    }
}

/// Looks an item up: its cell, and then its file.
fn add_item(
    alloc: Global,
    depot: &Depot,
    machine: &Machine,
    item: &SwapItem,
    change: &mut Change,
) -> Result<(), Fail>
    requires { IsSound machine.now }
    ensures { AddsWant (map source_of depot.now) (world_of machine.now) (want_of (map source_of depot.now) (world_of machine.now) item.now) change.old result change.new }
{
    let old = old_cell(alloc, machine, item)?;
    file_named(alloc, depot, &item.file)?;
    let want = want(alloc, old, &item.file)?;
    push(change, want, old.id)?;
    Ok(())
}

/// Looks the items up, one whole after the other.
fn change_for<'a>(
    alloc: Global,
    depot: &Depot,
    machine: &Machine,
    items: &[SwapItem],
    words: &SwapWords<'a>,
) -> Result<Change<'a>, Fail>
    requires { IsSound machine.now }
    ensures { Asks (map source_of depot.now) (world_of machine.now) (wants_of (map source_of depot.now) (world_of machine.now) items.now) (length items.now) (options_of words.now) result }
{
    let mut change = Change {
        wants: Vec::new(alloc),
        replaced: Vec::new(alloc),
        copies: Vec::new(alloc),
        options: words.options(),
    };
    for item in items {
        add_item(alloc, depot, machine, item, &mut change)?;
    }
    Ok(change)
}

/// Puts new cells in the place of attached ones, which keep all that tasks and data still need of
/// them, runs the routines, and removes every cell that nobody keeps then.
///
/// Refusals, of which the first that holds is answered: an item whose cell or file is unknown, and
/// those of the change.
pub fn swap(
    alloc: Global,
    depot: &Depot,
    machine: &mut Machine,
    items: &[SwapItem],
    words: &SwapWords,
) -> Result<Reply, Fail>
    requires sound { IsSound machine.old }
    requires small { All (λ f. length f.bytes ≤ max_file_bytes) depot.now }
    requires some { 0 < length items.now }
    ensures { Does (next_swap (map source_of depot.now) (world_of machine.old) items.now words.now.reexport words.now.strict words.now.routines.now words.now.budget) (swap_counts (map source_of depot.now) (world_of machine.old) items.now words.now.reexport words.now.strict words.now.routines.now words.now.budget) machine.old result machine.new }
{
    let change = change_for(alloc, depot, machine, items, words)?;
    let Made {
        fresh,
        patched,
        removed,
        aside,
    } = make_change(alloc, depot, machine, &change)?;
    Ok(Reply::Swap {
        number: machine.swaps,
        fresh,
        patched,
        removed,
        kept: aside,
    })
}
