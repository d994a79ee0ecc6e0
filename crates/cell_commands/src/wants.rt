//! The wanted cells of a change that replaces some.

ghost use Rattle.std.specs.Prelude.{◌≡◌, ◌++◌, ◌∷◌, [], IfOk, OnOk, Some, map};
ghost use Rattle.cell_world.specs.Following.{Follows};
ghost use Rattle.cell_world.specs.Gather.{file_named, source_of};
ghost use Rattle.cell_world.specs.Outcome.{found};
ghost use Rattle.cell_world.specs.declared.refusal.Refusal.TheVariants.{Unknown};

use cell_change::Change;
use cell_depot::Depot;
use cell_gather::Want;
use cell_machine::unknown;
use cell_num::{CellId, Name};
use cell_world::{Fail, File, NewCell};
use std::alloc::{AllocError, Global};

/// The file of a name.
pub fn file_named<'a>(alloc: Global, depot: &'a Depot, name: &Name) -> Result<&'a File, Fail>
    ensures { Follows (λ f. source_of f.now) result (found (file_named (map source_of depot.now) name.now) (Unknown name.now)) }
{
    match depot.named(name.bytes()) {
        Some(file) => Ok(file),
        None => Err(unknown(alloc, name.bytes())),
    }
}

/// The wanted cell of a file in the place of an old one.
pub fn want(alloc: Global, old: &NewCell, file: &Name) -> Result<Want, AllocError>
    ensures { IfOk result (λ want. want ≡ record { ns = old.now.ns; file = file.now; replaces = Some old.now.id }) }
{
    Ok(Want {
        ns: old.ns,
        file: file.copy(alloc)?,
        replaces: Some(old.id),
    })
}

/// Adds a want, which replaces the cell.
pub fn push(change: &mut Change, want: Want, old: CellId) -> Result<(), AllocError>
    ensures wants { OnOk result (change.new.wants.items ≡ change.old.wants.items ++ want ∷ []) }
    ensures replaced { OnOk result (change.new.replaced.items ≡ change.old.replaced.items ++ old ∷ []) }
    ensures copies { OnOk result (change.new.copies.items ≡ change.old.copies.items) }
    ensures options { OnOk result (change.new.options ≡ change.old.options) }
{
    change.wants.push(want)?;
    change.replaced.push(old)?;
    Ok(())
}
