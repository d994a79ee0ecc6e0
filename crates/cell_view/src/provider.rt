//! Who provides a name.

ghost use Rattle.std.specs.Prelude.{◌≡◌, ◌<◌, length};
ghost use Rattle.cell_world.specs.Commands.FindCommand.{found_at as place_at, found_in as place_in, next_find};
ghost use Rattle.cell_machine.specs.Machine.{IsSound, world_of};
ghost use Rattle.cell_world.specs.Following.{Follows};
ghost use Rattle.cell_machine.specs.Does.{answer_in};

use cell_machine::{Machine, namespace};
use cell_world::{Fail, Found, Reply, Target};
use std::alloc::Global;

/// The place in a section that a target is.
fn found_at(target: Target) -> Option<Found>
    ensures { result ≡ place_at target }
{
    match target {
        Target::Section { key, offset, addr } => Some(Found { key, offset, addr }),
        Target::Number { .. } => None,
    }
}

/// Where the provider of a name for a namespace has it, if it is in a section.
pub fn found_in(machine: &Machine, ns: u16, symbol: &[u8]) -> Option<Found>
    requires sound { IsSound machine.now }
    requires there { ns < length machine.now.spaces.namespaces }
    ensures { result ≡ place_in (world_of machine.now) ns symbol.now }
{
    match machine.provided(ns, symbol) {
        Some(target) => found_at(target),
        None => None,
    }
}

/// Shows where the provider of a name for a namespace has it.
pub fn find(alloc: Global, machine: &Machine, ns: &[u8], symbol: &[u8]) -> Result<Reply, Fail>
    requires { IsSound machine.now }
    ensures { Follows (answer_in (world_of machine.now)) result (next_find (world_of machine.now) ns.now symbol.now) }
{
    let ns = namespace(alloc, &machine.spaces, ns)?;
    let found = found_in(machine, ns, symbol);
    Ok(Reply::Find { found })
}
