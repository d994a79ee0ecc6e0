//! The links of a cell.

ghost use Rattle.std.specs.Prelude.{◌≡◌, ◌<◌, ◌^◌, ◌++◌, IfOk, OnOk, length, option_to_list};
ghost use Rattle.cell_load.specs.Linking.{rows_by};

use cell_commit::link_row;
use cell_world::{LinkRow, NewCell, Target};
use std::alloc::{AllocError, Global};

/// Adds the link, where there is one.
fn add_row(rows: &mut Vec<LinkRow>, row: Option<LinkRow>) -> Result<(), AllocError>
    ensures { OnOk result (rows.new.items ≡ rows.old.items ++ option_to_list row) }
{
    if let Some(row) = row {
        rows.push(row)?;
    }
    Ok(())
}

/// The links of a new cell, in the order of its entries.
pub fn rows(alloc: Global, cell: &NewCell, targets: &[Target]) -> Result<Vec<LinkRow>, AllocError>
    requires each { length targets.now ≡ length cell.now.object.entries }
    requires few { length cell.now.object.entries < 2 ^ 32 }
    ensures { IfOk result (λ rows. rows.items ≡ rows_by cell.now targets.now) }
{
    let mut rows = Vec::new(alloc);
    let entries = cell.object.entries.as_slice();
    for index in 0..entries.len() {
        let row = link_row(cell, index, &entries[index], &targets[index]);
        add_row(&mut rows, row)?;
    }
    Ok(rows)
}
