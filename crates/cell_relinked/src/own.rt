//! The targets of symbols where their objects define them.

ghost use Rattle.std.specs.Prelude.{◌≡◌, ◌<◌, length, option_and_then, suc};
ghost use Rattle.cell_num.specs.Lists.{In};
ghost use Rattle.cell_described.specs.Faults.{object_at};
ghost use Rattle.cell_object.specs.Parts.{symbol_at as symbol_with};
ghost use Rattle.cell_world.specs.Linked.Target.{own_target as own, provided_target as provided_at};
ghost use Rattle.cell_bearers.specs.Asked.{provider_at};
ghost use Rattle.cell_relinked.specs.Fit.{IsFit, placed_in};
ghost use Rattle.cell_relinked.specs.Scene.{world_of};

use crate::places::start_in;
use crate::scene::Scene;
use cell_bearers::FirstBearer;
use cell_described::DescribedCell;
use cell_num::SecKey;
use cell_object::{Home, Symbol};
use cell_world::Target;

impl<'a> Scene<'a> {
    /// The target that a symbol of the cell has where its object defines it.
    pub fn own_target(&self, cell: &DescribedCell, symbol: &Symbol) -> Option<Target>
        requires fit { IsFit self.now.objects.now cell.now }
        requires there { In symbol.now (object_at self.now.objects.now cell.now.object).symbols }
        ensures { result ≡ own (placed_in self.now.objects.now cell.now) symbol.now symbol.now.home }
    {
        match symbol.home {
            Home::Undef | Home::Elsewhere => None,
            Home::Abs => Some(Target::Number {
                value: symbol.value,
            }),
            Home::Inside(section) => {
                let start = start_in(cell.places.as_slice(), section);
                Some(Target::Section {
                    key: SecKey {
                        cell: cell.id,
                        section,
                    },
                    offset: symbol.value,
                    addr: start + symbol.value,
                })
            }
        }
    }

    /// The target that the cell's symbol at that place is, from 0, where its object defines it.
    fn target_in(&self, cell: &DescribedCell, place: u64) -> Option<Target>
        requires { IsFit self.now.objects.now cell.now }
        ensures { result ≡ option_and_then (λ s. own (placed_in self.now.objects.now cell.now) s s.home) (symbol_with (object_at self.now.objects.now cell.now.object) (suc place)) }
    {
        let symbol = self.object(cell).symbols.as_slice().get(place as usize)?;
        self.own_target(cell, symbol)
    }

    /// The target that a provider's symbol is.
    pub fn provided_target(&self, provider: &FirstBearer) -> Option<Target>
        requires { provider.now.cell < length self.now.cells.now }
        ensures { result ≡ provided_at (world_of self.now) (provider_at self.now.cells.now provider.now) }
    {
        self.target_in(&self.cells[provider.cell], provider.symbol)
    }
}
