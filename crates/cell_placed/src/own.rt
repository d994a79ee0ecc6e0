//! The targets of the symbols that an object defines itself.

ghost use Rattle.std.specs.Prelude.{◌≡◌, option_map, option_and_then};
ghost use Rattle.cell_object.specs.Parts.{symbol_at as symbol_with};
ghost use Rattle.cell_world.specs.Linked.Target.{own_target as own};
ghost use Rattle.cell_num.specs.Lists.{In};
ghost use Rattle.cell_placed.specs.Low.{IsLow};

use crate::places::start_of;
use cell_num::SecKey;
use cell_object::{Home, Object, Symbol};
use cell_world::{NewCell, Target};

/// The symbol with a number, from 1.
pub fn symbol_at(object: &Object, number: u32) -> Option<&Symbol>
    ensures { option_map (λ s. s.now) result ≡ symbol_with object.now number }
{
    let index = number.checked_sub(1)?;
    object.symbols.as_slice().get(index as usize)
}

/// The target that a symbol has where its object defines it.
pub fn own_target(cell: &NewCell, symbol: &Symbol) -> Option<Target>
    requires low { IsLow cell.now }
    requires there { In symbol.now cell.now.object.symbols }
    ensures { result ≡ own cell.now symbol.now symbol.now.home }
{
    match symbol.home {
        Home::Undef | Home::Elsewhere => None,
        Home::Abs => Some(Target::Number {
            value: symbol.value,
        }),
        Home::Inside(section) => {
            let start = start_of(cell, section);
            Some(Target::Section {
                key: SecKey {
                    cell: cell.id,
                    section,
                },
                offset: symbol.value,
                addr: start + symbol.value,
            })
        }
    }
}

/// The target that the cell's symbol of that number is, where its object defines it.
pub fn target_in(cell: &NewCell, symbol: u32) -> Option<Target>
    requires { IsLow cell.now }
    ensures { result ≡ option_and_then (λ s. own cell.now s s.home) (symbol_with cell.now.object symbol) }
{
    let symbol = symbol_at(&cell.object, symbol)?;
    own_target(cell, symbol)
}
