//! The addresses that a routine may ask for.

ghost use Rattle.std.specs.Prelude.{◌≡◌, ◌++◌, OnOk};
ghost use Rattle.cell_placed.specs.Low.{IsLow};
ghost use Rattle.cell_xfer.specs.Named.{AnswersAs};
ghost use Rattle.cell_routines.specs.Placed.{address_by, addresses_by};

use cell_placed::target_in;
use cell_space::NameRows;
use cell_world::{NewCell, Target};
use cell_xfer::Firsts;
use std::alloc::{AllocError, Global};

/// The address of a symbol of a cell, or its number; 0 where the object doesn't define it.
fn address_in(cell: &NewCell, symbol: u32) -> u64
    requires { IsLow cell.now }
    ensures { result ≡ address_by cell.now symbol }
{
    match target_in(cell, symbol) {
        Some(Target::Section { addr, .. }) => addr,
        Some(Target::Number { value }) => value,
        None => 0,
    }
}

/// Adds the names of a cell, which is in its place, with their addresses. A name that is there already keeps its address.
pub fn add_addresses(
    alloc: Global,
    table: &mut Firsts<u64>,
    cell: &NewCell,
    names: &NameRows,
) -> Result<(), AllocError>
    requires { IsLow cell.now }
    ensures { OnOk result (AnswersAs table.new (table.old ++ addresses_by cell.now names.now)) }
{
    for place in 0..names.len() {
        let (name, symbol) = names.at(place);
        table.add(alloc, name, address_in(cell, symbol))?;
    }
    Ok(())
}
