//! Numbers as an image has them.

ghost use Rattle.std.specs.Prelude.{◌≡◌, ◌++◌, OnOk};
ghost use Rattle.cell_num.specs.Bits.{bytes_of};

use std::alloc::AllocError;

/// Appends so many low bytes of a number, the lowest first. System V gABI, "Data Representation"
#[tactic(auto, using(crate::proofs::Numbers::bytes_put))]
pub fn put_number(number: u64, count: u8, into: &mut Vec<u8>) -> Result<(), AllocError>
    ensures { OnOk result (into.new.items ≡ into.old.items ++ bytes_of count number) }
{
    let mut rest = number;
    for _ in 0..count {
        into.push((rest % 256) as u8)?;
        rest /= 256;
    }
    Ok(())
}
