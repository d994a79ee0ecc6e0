//! Numbers of a row as bytes.

ghost use Rattle.std.specs.Prelude.{◌≡◌, ◌++◌, OnOk};
ghost use Rattle.cell_object.specs.Rows.{stored, fields};

use cell_image::put_number;
use std::alloc::AllocError;

/// Appends numbers, each with how many bytes it takes.
#[tactic(auto, using(crate::proofs::Numbers::field_put), unfolding(cell_object::specs::Rows::fields, cell_object::specs::Rows::stored))]
pub fn put_fields(numbers: &[(u64, u8)], into: &mut Vec<u8>) -> Result<(), AllocError>
    ensures { OnOk result (into.new.items ≡ into.old.items ++ fields numbers.now) }
{
    for (number, count) in numbers {
        put_number(*number, *count, into)?;
    }
    Ok(())
}
