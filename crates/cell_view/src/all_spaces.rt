//! The space and all namespaces in a dump.

ghost use Rattle.std.specs.Prelude.{◌≡◌, ◌∷◌, ◌++◌, [], IfOk, OnOk, map};
ghost use Rattle.cell_num.specs.Lists.{numbered};
ghost use Rattle.cell_world.specs.declared.line.DumpLine.TheVariants.{Space, Ns};
ghost use Rattle.cell_world.specs.DumpLines.{ns_line as line_of};
ghost use Rattle.cell_machine.specs.Machine.{world_of};
ghost use Rattle.cell_view.specs.Whole.{space_lines};

use cell_machine::Machine;
use cell_world::{DumpLine, Namespace};
use std::alloc::{AllocError, Global};

fn parent_of(space: &Namespace) -> Option<u64>
    ensures { result ≡ space.now.parent }
{
    match space.parent {
        Some(parent) => Some(u64::from(parent)),
        None => None,
    }
}

fn ns_line(alloc: Global, number: u64, space: &Namespace) -> Result<DumpLine, AllocError>
    ensures { IfOk result (λ line. line ≡ Ns number space.now.name space.now.parent) }
{
    Ok(DumpLine::Ns {
        number,
        name: space.name.copy(alloc)?,
        parent: parent_of(space),
    })
}

/// Adds the namespaces, by their numbers.
fn add_namespaces(
    alloc: Global,
    spaces: &[Namespace],
    lines: &mut Vec<DumpLine>,
) -> Result<(), AllocError>
    ensures { OnOk result (lines.new.items ≡ lines.old.items ++ map line_of (numbered spaces.now)) }
{
    for (number, space) in spaces.iter().enumerate() {
        lines.push(ns_line(alloc, number as u64, space)?)?;
    }
    Ok(())
}

/// Adds the space and the namespaces.
pub fn add_spaces(
    alloc: Global,
    machine: &Machine,
    lines: &mut Vec<DumpLine>,
) -> Result<(), AllocError>
    ensures { OnOk result (lines.new.items ≡ lines.old.items ++ space_lines (world_of machine.now)) }
{
    lines.push(DumpLine::Space {
        base: machine.memory.base(),
        pages: u64::from(machine.memory.pages()),
    })?;
    add_namespaces(alloc, machine.spaces.namespaces(), lines)
}
