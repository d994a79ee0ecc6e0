//! The answer to a command.

ghost use Rattle.std.specs.Prelude.{◌≡◌, ◌≤◌, All, length, map, true};
ghost use Rattle.cell_num.specs.Limits.{max_file_bytes};
ghost use Rattle.cell_depot.specs.Files.{are_apart};
ghost use Rattle.cell_script.specs.Script.{is_said};
ghost use Rattle.cell_world.specs.Gather.{source_of};
ghost use Rattle.cell_world.specs.Next.{outcome_of};
ghost use Rattle.cell_machine.specs.Does.{Does};
ghost use Rattle.cell_machine.specs.Machine.{IsSound, world_of};
ghost use Rattle.cell_system.specs.Step.{counts_of};

use crate::Fail;
use crate::namespaces::add_namespace;
use cell_commands::{SwapWords, clone, load, rebuild, recover, swap};
use cell_depot::Depot;
use cell_machine::Machine;
use cell_schedule::{kill, run, spawn, step, tasks};
use cell_unload::{purge, unload};
use cell_view::{deps, dump, dump_all, find, map, users};
use cell_world::{Command, Reply};
use std::alloc::Global;

/// Does a command that a line of a script can say: a swap of at least one cell, or any other.
pub fn answer(
    alloc: Global,
    depot: &Depot,
    machine: &mut Machine,
    command: &Command,
) -> Result<Reply, Fail>
    requires said { is_said command.now ≡ true }
    requires sound { IsSound machine.old }
    requires small { All (λ f. length f.bytes ≤ max_file_bytes) depot.now }
    requires apart { are_apart depot.now ≡ true }
    ensures { Does (outcome_of (map source_of depot.now) (world_of machine.old) command.now) (counts_of (map source_of depot.now) (world_of machine.old) command.now) machine.old result machine.new }
{
    match command {
        Command::Ns { name, parent } => add_namespace(alloc, machine, name.bytes(), parent.bytes()),
        Command::Load { ns, stem } => load(alloc, depot, machine, ns.bytes(), stem.bytes()),
        Command::Spawn { ns, symbol, arg } => {
            spawn(alloc, machine, ns.bytes(), symbol.bytes(), *arg)
        }
        Command::Step { task, turns } => step(alloc, machine, *task, *turns),
        Command::Run { turns } => run(alloc, machine, *turns),
        Command::Kill { task } => kill(alloc, machine, *task),
        Command::Unload { cells } => unload(alloc, machine, cells.as_slice()),
        Command::Purge => purge(alloc, machine),
        Command::Tasks => tasks(alloc, machine),
        Command::Find { ns, symbol } => find(alloc, machine, ns.bytes(), symbol.bytes()),
        Command::Deps { cell } => deps(alloc, machine, *cell),
        Command::Users { cell } => users(alloc, machine, *cell),
        Command::Map => map(alloc, machine),
        Command::Dump { cell, section } => dump(alloc, machine, *cell, *section),
        Command::DumpAll => dump_all(alloc, machine),
        Command::Swap {
            items,
            reexport,
            strict,
            routines,
            budget,
        } => {
            let words = SwapWords {
                reexport: *reexport,
                strict: *strict,
                routines: routines.as_slice(),
                budget: *budget,
            };
            swap(alloc, depot, machine, items.as_slice(), &words)
        }
        Command::Recover { task } => recover(alloc, depot, machine, *task),
        Command::Rebuild { task } => rebuild(alloc, depot, machine, *task),
        Command::Clone { ns, name } => clone(alloc, depot, machine, ns.bytes(), name.bytes()),
    }
}
