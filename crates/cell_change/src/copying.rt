//! The originals of a change's copies, as they stand in the machine.

ghost use Rattle.std.specs.Prelude.{[], All, IfOk};
ghost use Rattle.cell_change.specs.Copying.{AreOriginals, IsOriginal, IsPresent};

use crate::request::CellCopy;
use cell_gather::Original;
use cell_machine::Machine;
use cell_placed::cell_numbered;
use std::alloc::{AllocError, Global};

/// The original of a copy.
fn original<'a>(machine: &'a Machine, copy: &CellCopy) -> Original<'a>
    requires { IsPresent machine.now copy.now }
    ensures { IsOriginal machine.now copy.now result }
{
    match cell_numbered(&machine.cells, copy.original.0) {
        Some(cell) => Original {
            cell,
            names: machine.spaces.names(copy.original),
            ns: copy.ns,
        },
        None => unreachable!(),
    }
}

/// The originals of copies, in their order.
pub fn originals<'a>(
    alloc: Global,
    machine: &'a Machine,
    copies: &[CellCopy],
) -> Result<Vec<Original<'a>>, AllocError>
    requires { All (IsPresent machine.now) copies.now }
    ensures { IfOk result (λ all. AreOriginals machine.now copies.now all.items) }
{
    let mut all = Vec::new(alloc);
    for copy in copies {
        all.push(original(machine, copy))?;
    }
    Ok(all)
}
