//! The nearest cell that has a name weakly, of those that are asked: one namespace after the other.

ghost use Rattle.std.specs.Prelude.{◌≡◌, ◌<◌, ℕ, List, All, IfSome, None, length, map, option_map, position, if◌then◌else◌};
ghost use Rattle.cell_described.specs.Describes.{cell_seen};
ghost use Rattle.cell_described.specs.Faults.{object_at};
ghost use Rattle.cell_world.specs.Names.{is_weak_definition as weak_definition};
ghost use Rattle.cell_bearers.specs.Asked.{nearest_in, provider_at};
ghost use Rattle.cell_bearers.specs.Found.{at_place, found_from, is_weakly, nearest_by, weak_place};
ghost use Rattle.cell_bearers.specs.Seeing.{stands_at};

use crate::first::FirstBearer;
use crate::seeing::stands_at;
use crate::sight::Sight;
use cell_described::DescribedCell;
use cell_object::{Bind, Home, Object, Symbol};

fn is_weak_definition(symbol: &Symbol) -> bool
    ensures { result ≡ weak_definition symbol.now }
{
    matches!(symbol.bind, Bind::Weak) && matches!(symbol.home, Home::Inside(_))
}

fn is_weakly(symbol: &Symbol, name: &[u8]) -> bool
    ensures { result ≡ is_weakly name.now symbol.now }
{
    is_weak_definition(symbol) && symbol.name.as_slice() == name
}

/// The place of the symbol that is WEAK, defined and has the name.
fn weak_symbol(symbols: &[Symbol], name: &[u8]) -> Option<usize>
    ensures { result ≡ position (is_weakly name.now) symbols.now }
{
    symbols.iter().position(|symbol| is_weakly(symbol, name))
}

fn object_of<'n>(objects: &'n [Object], cell: &DescribedCell) -> &'n Object
    requires { cell.now.object < length objects.now }
    ensures { result.now ≡ object_at objects.now cell.now.object }
{
    &objects[cell.object]
}

/// A name that objects may define as WEAK. Few names have no strong holder, so there is no index of these.
#[derive(Clone, Copy)]
struct Weakly<'n> {
    objects: &'n [Object],
    name: &'n [u8],
}

impl<'n> Weakly<'n> {
    /// The symbol, counted from 0, by which the cell has the name weakly.
    fn symbol_of(&self, place: usize, cell: &DescribedCell) -> Option<FirstBearer>
        requires { cell.now.object < length self.now.objects.now }
        ensures { result ≡ option_map (at_place place) (weak_place self.now.objects.now self.now.name.now (place, cell.now)) }
    {
        let object = object_of(self.objects, cell);
        match weak_symbol(object.symbols.as_slice(), self.name) {
            Some(symbol) => Some(FirstBearer {
                cell: place,
                symbol: symbol as u64,
            }),
            None => None,
        }
    }
}

impl<'s> Sight<'s> {
    /// The cell, with its place, if it stands in the namespace, is asked and has the name weakly.
    fn weak_at(
        &self,
        ns: u16,
        weakly: &Weakly,
        place: usize,
        cell: &DescribedCell,
    ) -> Option<FirstBearer>
        requires { cell.now.object < length weakly.now.objects.now }
        ensures { result ≡ option_map (at_place place) (if stands_at self.now.asked ns cell.now then weak_place weakly.now.objects.now weakly.now.name.now (place, cell.now) else None) }
    {
        if !stands_at(self.asked, ns, cell) {
            return None;
        }
        weakly.symbol_of(place, cell)
    }

    /// The first of the namespace.
    fn weak_in(&self, ns: u16, weakly: &Weakly) -> Option<FirstBearer>
        requires { All (λ c. c.object < length weakly.now.objects.now) self.now.cells.now }
        ensures { result ≡ found_from (stands_at self.now.asked ns) (weak_place weakly.now.objects.now weakly.now.name.now) 0 self.now.cells.now }
    {
        let cells = self.cells;
        for place in 0..cells.len() {
            if let Some(first) = self.weak_at(ns, weakly, place, &cells[place]) {
                return Some(first);
            }
        }
        None
    }

    /// The nearest that is asked and has the name weakly.
    fn nearest(&self, weakly: &Weakly) -> Option<FirstBearer>
        requires { All (λ c. c.object < length weakly.now.objects.now) self.now.cells.now }
        ensures { result ≡ nearest_by self.now (weak_place weakly.now.objects.now weakly.now.name.now) }
    {
        let spaces = self.spaces;
        for ns in spaces {
            if let Some(first) = self.weak_in(*ns, weakly) {
                return Some(first);
            }
        }
        None
    }

    /// The nearest that is asked and has the name weakly, where the cells have these objects.
    pub fn nearest_bearer(&self, objects: &[Object], name: &[u8]) -> Option<FirstBearer>
        requires { All (λ c. c.object < length objects.now) self.now.cells.now }
        ensures there { IfSome result (λ nearest. nearest.cell < length self.now.cells.now) }
        // as a plain look at all cells finds it
        ensures plain { (file : List ℕ) → option_map (provider_at self.now.cells.now) result ≡ nearest_in (map (cell_seen file objects.now) self.now.cells.now) self.now.asked self.now.spaces.now name.now }
    {
        let weakly = Weakly { objects, name };
        self.nearest(&weakly)
    }
}
