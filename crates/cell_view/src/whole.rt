//! The whole machine, line by line.

ghost use Rattle.std.specs.Prelude.{◌≡◌, IfOk};
ghost use Rattle.cell_world.specs.Commands.DumpAllCommand.{next_dump_all};
ghost use Rattle.cell_world.specs.DumpLines.{dump_lines};
ghost use Rattle.cell_world.specs.Following.{Follows};
ghost use Rattle.cell_machine.specs.Does.{answer_in};
ghost use Rattle.cell_machine.specs.Machine.{IsSound, world_of};

use crate::all_bytes::add_contents;
use crate::all_cells::add_cells;
use crate::all_links::add_links;
use crate::all_names::add_providers;
use crate::all_spaces::add_spaces;
use cell_machine::Machine;
use cell_num::Listed;
use cell_world::{DumpLine, Fail, Reply};
use std::alloc::{AllocError, Global};

fn all_lines(alloc: Global, machine: &Machine) -> Result<Listed<DumpLine>, AllocError>
    requires { IsSound machine.now }
    ensures { IfOk result (λ lines. lines ≡ dump_lines (world_of machine.now)) }
{
    let mut lines = Vec::new(alloc);
    add_spaces(alloc, machine, &mut lines)?;
    add_cells(alloc, machine, &mut lines)?;
    add_links(machine, &mut lines)?;
    add_providers(alloc, machine, &mut lines)?;
    add_contents(alloc, machine, &mut lines)?;
    lines.push(DumpLine::End)?;
    Ok(Listed::from_vec(lines))
}

/// Shows all lines of the machine's dump.
pub fn dump_all(alloc: Global, machine: &Machine) -> Result<Reply, Fail>
    requires { IsSound machine.now }
    ensures { Follows (answer_in (world_of machine.now)) result (next_dump_all (world_of machine.now)) }
{
    let lines = all_lines(alloc, machine)?;
    Ok(Reply::DumpAll { lines })
}
