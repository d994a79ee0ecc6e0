//! What the symbols of a cell are.

ghost use Rattle.std.specs.Prelude.{◌≡◌, ◌<◌, ◌&&◌, false, IfSome, Some, is_none, length, option_and_then, option_map, slice_get};
ghost use Rattle.cell_num.specs.Lists.{In, or_else};
ghost use Rattle.cell_audit.specs.Described.{standing_of};
ghost use Rattle.cell_audit.specs.Linking.{is_lacking};
ghost use Rattle.cell_described.specs.Faults.{object_at};
ghost use Rattle.cell_bearers.specs.Asked.{provider_at};
ghost use Rattle.cell_object.specs.Parts.{is_global as global, is_local as local, is_undefined as undefined};
ghost use Rattle.cell_target.specs.Asking.{undefined_target as undefined_with, unprovided as unprovided_with, yielding_target as yielding_with};
ghost use Rattle.cell_world.specs.Names.{is_weak_definition as weak_definition, provider_of};
ghost use Rattle.cell_world.specs.Linked.Target.{numbered_target, provided_target, symbol_target as target_with};
ghost use Rattle.cell_relinked.specs.Asked.{AreBearers, IsAsking};
ghost use Rattle.cell_relinked.specs.Entries.{lacks_numbered};
ghost use Rattle.cell_relinked.specs.Fit.{IsFit, placed_in};
ghost use Rattle.cell_relinked.specs.Scene.{seen_in, world_of};

use crate::provider::Sights;
use crate::scene::Scene;
use cell_bearers::{Bearer, FirstBearer};
use cell_described::DescribedCell;
use cell_object::{Bind, Home, Symbol};
use cell_world::Target;

/// What a symbol is, and whether it is a need without a provider.
#[derive(Clone, Copy)]
pub struct Known {
    pub target: Option<Target>,
    pub lacking: bool,
}

fn is_undefined(symbol: &Symbol) -> bool
    ensures { result ≡ undefined symbol.now.home }
{
    matches!(symbol.home, Home::Undef)
}

fn is_local(symbol: &Symbol) -> bool
    ensures { result ≡ local symbol.now.bind }
{
    matches!(symbol.bind, Bind::Local)
}

fn is_global(symbol: &Symbol) -> bool
    ensures { result ≡ global symbol.now.bind }
{
    matches!(symbol.bind, Bind::Global)
}

fn is_weak_definition(symbol: &Symbol) -> bool
    ensures { result ≡ weak_definition symbol.now }
{
    matches!(symbol.bind, Bind::Weak) && matches!(symbol.home, Home::Inside(_))
}

/// What an undefined symbol is that nobody provides.
fn unprovided(symbol: &Symbol) -> Option<Target>
    ensures { result ≡ unprovided_with symbol.now }
{
    match symbol.bind {
        Bind::Weak => Some(Target::Number { value: 0 }),
        Bind::Local | Bind::Global => None,
    }
}

/// The former, if there is one.
fn either(a: Option<Target>, b: Option<Target>) -> Option<Target>
    ensures { result ≡ or_else a b }
{
    match a {
        Some(a) => Some(a),
        None => b,
    }
}

impl<'a> Scene<'a> {
    /// What a provider has, if there is one.
    fn target_of(&self, provider: Option<FirstBearer>) -> Option<Target>
        requires { IfSome provider (λ first. first.cell < length self.now.cells.now) }
        ensures { result ≡ option_and_then (provided_target (world_of self.now)) (option_map (provider_at self.now.cells.now) provider) }
    {
        match provider {
            Some(provider) => self.provided_target(&provider),
            None => None,
        }
    }

    /// What an undefined symbol is for the cell that has these sights, if it isn't LOCAL. These bear its name.
    fn asked(
        &self,
        cell: &DescribedCell,
        sights: &Sights,
        symbol: &Symbol,
        bearers: &[Bearer],
    ) -> Known
        requires asking { IsAsking self.now cell.now sights.now }
        requires bearers { AreBearers self.now symbol.now.name bearers.now }
        requires named { local symbol.now.bind ≡ false }
        ensures target { result.target ≡ undefined_with (world_of self.now) cell.now.ns (standing_of cell.now.group) symbol.now }
        ensures lacking { result.lacking ≡ (global symbol.now.bind && is_none (provider_of (world_of self.now) (seen_in self.now cell.now) symbol.now.name)) }
    {
        let provider = self.provider(sights, symbol.name.as_slice(), bearers);
        Known {
            target: either(self.target_of(provider), unprovided(symbol)),
            lacking: is_global(symbol) && provider.is_none(),
        }
    }

    /// What a WEAK symbol is that the cell defines: it yields to a strong holder. These bear its name.
    fn yielding_target(
        &self,
        cell: &DescribedCell,
        sights: &Sights,
        symbol: &Symbol,
        bearers: &[Bearer],
    ) -> Option<Target>
        requires asking { IsAsking self.now cell.now sights.now }
        requires bearers { AreBearers self.now symbol.now.name bearers.now }
        requires fit { IsFit self.now.objects.now cell.now }
        requires there { In symbol.now (object_at self.now.objects.now cell.now.object).symbols }
        ensures { result ≡ yielding_with (world_of self.now) (placed_in self.now.objects.now cell.now) (standing_of cell.now.group) symbol.now }
    {
        let provider = self.strong_provider(sights, bearers);
        either(self.target_of(provider), self.own_target(cell, symbol))
    }

    /// What a symbol is that isn't undefined. These bear its name.
    fn defined_target(
        &self,
        cell: &DescribedCell,
        sights: &Sights,
        symbol: &Symbol,
        bearers: &[Bearer],
    ) -> Option<Target>
        requires asking { IsAsking self.now cell.now sights.now }
        requires bearers { local symbol.now.bind ≡ false → AreBearers self.now symbol.now.name bearers.now }
        requires fit { IsFit self.now.objects.now cell.now }
        requires there { In symbol.now (object_at self.now.objects.now cell.now.object).symbols }
        requires defined { undefined symbol.now.home ≡ false }
        ensures { result ≡ target_with (world_of self.now) (seen_in self.now cell.now) symbol.now symbol.now.home }
    {
        if is_weak_definition(symbol) {
            return self.yielding_target(cell, sights, symbol, bearers);
        }
        self.own_target(cell, symbol)
    }

    /// What the cell's symbol at that place is.
    fn known(&self, cell: &DescribedCell, sights: &Sights, place: usize, symbol: &Symbol) -> Known
        requires asking { IsAsking self.now cell.now sights.now }
        requires fit { IsFit self.now.objects.now cell.now }
        requires there { slice_get (object_at self.now.objects.now cell.now.object).symbols place ≡ Some symbol.now }
        ensures target { result.target ≡ target_with (world_of self.now) (seen_in self.now cell.now) symbol.now symbol.now.home }
        ensures lacking { result.lacking ≡ is_lacking (world_of self.now) (seen_in self.now cell.now) symbol.now }
    {
        let bearers = self.index.of_symbol(cell.object, place);
        if !is_undefined(symbol) {
            return Known {
                target: self.defined_target(cell, sights, symbol, bearers),
                lacking: false,
            };
        }
        if is_local(symbol) {
            return Known {
                target: None,
                lacking: false,
            };
        }
        self.asked(cell, sights, symbol, bearers)
    }

    /// What the cell's symbol of that number is; symbol 0 is the number 0.
    pub(crate) fn numbered(&self, cell: &DescribedCell, sights: &Sights, number: u32) -> Known
        requires asking { IsAsking self.now cell.now sights.now }
        requires fit { IsFit self.now.objects.now cell.now }
        ensures target { result.target ≡ numbered_target (world_of self.now) (seen_in self.now cell.now) number }
        ensures lacking { result.lacking ≡ lacks_numbered (world_of self.now) (seen_in self.now cell.now) number }
    {
        let Some(place) = number.checked_sub(1) else {
            return Known {
                target: Some(Target::Number { value: 0 }),
                lacking: false,
            };
        };
        match self.object(cell).symbols.as_slice().get(place as usize) {
            Some(symbol) => self.known(cell, sights, place as usize, symbol),
            None => Known {
                target: None,
                lacking: false,
            },
        }
    }
}
