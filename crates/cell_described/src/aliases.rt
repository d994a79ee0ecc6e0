//! What the aliases of a cell are on.

ghost use Rattle.std.specs.Prelude.{◌≡◌};
ghost use Rattle.cell_described.specs.Faults.{alias_fault, defines};

use cell_audit::WrittenAlias;
use cell_object::{Object, is_definition};

/// Whether the symbol at that place, from 0, is a GLOBAL that the object defines.
fn defines(object: &Object, symbol: u64) -> bool
    ensures { result ≡ defines object.now symbol }
{
    match object.symbols.as_slice().get(symbol as usize) {
        Some(symbol) => is_definition(symbol),
        None => false,
    }
}

/// The line of the first alias that is on no definition.
pub fn alias_fault(object: &Object, aliases: &[WrittenAlias]) -> Option<u32>
    ensures { result ≡ alias_fault object.now aliases.now }
{
    for alias in aliases {
        if !defines(object, alias.symbol.get()) {
            return Some(alias.line);
        }
    }
    None
}
