//! Which symbols an object defines.

ghost use Rattle.std.specs.Prelude.{◌≡◌};
ghost use Rattle.cell_object.specs.Parts.{is_definition as definition};

use crate::{Bind, Home, Symbol};

/// Whether the symbol is a GLOBAL that its object defines.
pub fn is_definition(symbol: &Symbol) -> bool
    ensures { result ≡ definition symbol.now }
{
    symbol.bind == Bind::Global && matches!(symbol.home, Home::Inside(_))
}
