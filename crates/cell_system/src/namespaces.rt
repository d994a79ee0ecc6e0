//! The command that adds a namespace.

ghost use Rattle.cell_machine.specs.Does.{Does, no_stack};
ghost use Rattle.cell_machine.specs.Machine.{IsSound, world_of};
ghost use Rattle.cell_world.specs.Commands.NsCommand.{next_ns};

use cell_machine::{Machine, check_new_namespace, namespace};
use cell_num::Name;
use cell_world::{Fail, Reply};
use std::alloc::Global;

/// Adds a namespace under another one.
pub fn add_namespace(
    alloc: Global,
    machine: &mut Machine,
    name: &[u8],
    parent: &[u8],
) -> Result<Reply, Fail>
    requires { IsSound machine.old }
    ensures { Does (next_ns (world_of machine.old) name.now parent.now) no_stack machine.old result machine.new }
{
    let up = namespace(alloc, &machine.spaces, parent)?;
    check_new_namespace(alloc, &machine.spaces, name)?;
    let shown = Name::of(alloc, name)?;
    let own = Name::of(alloc, name)?;
    machine.spaces.add_ns(own, up)?;
    Ok(Reply::Ns { name: shown })
}
