//! Names that somebody provides, of which the last one is known.

ghost use Rattle.std.specs.Prelude.{◌≡◌, ◌<◌, ◌&&◌, IsSomeAnd, IsTrue, false, length, not, true};
ghost use Rattle.std.specs.List.{list_any};
ghost use Rattle.cell_world.specs.declared.state.Standing.TheVariants.{Attached};
ghost use Rattle.cell_plan.specs.Known.{IsKnown, is_lacking, is_open as is_undefined_global, known_after};

use cell_object::{Bind, Home, Symbol};
use cell_space::Ahead;
use cell_world::{NewCell, Standing};

/// A name that somebody provides for the attached cells of a namespace.
#[derive(Clone, Copy)]
pub struct Known<'a> {
    pub ns: u16,
    pub name: &'a [u8],
}

/// Whether it is known that somebody provides the name.
fn is_known(known: Option<Known>, ns: u16, state: Standing, name: &[u8]) -> bool
    ensures { IsTrue result → IsSomeAnd known.entry (λ k. (k.ns ≡ ns) × (k.name.now ≡ name.now) × (state ≡ Attached)) }
{
    match (known, state) {
        (Some(known), Standing::Attached) => known.ns == ns && known.name == name,
        _ => false,
    }
}

/// The name in place of what was known, if it is provided for attached cells.
fn known_with<'a>(
    known: Option<Known<'a>>,
    ns: u16,
    state: Standing,
    name: &'a [u8],
) -> Option<Known<'a>>
    ensures { result ≡ known_after known.entry ns state name.entry }
{
    match state {
        Standing::Attached => Some(Known { ns, name }),
        Standing::Detached(_) => known,
    }
}

/// Whether somebody provides the name.
fn is_provided<'a>(
    ahead: &Ahead,
    known: &mut Option<Known<'a>>,
    ns: u16,
    state: Standing,
    name: &'a [u8],
) -> bool
    requires ns { ns < length ahead.now.namespaces }
    requires known { IsKnown ahead.now known.old }
    ensures known { IsKnown ahead.now known.new }
    ensures provided { result ≡ not (is_lacking ahead.now ns state name.now) }
{
    if is_known(*known, ns, state, name) {
        return true;
    }
    if ahead.provider_for(ns, state, name).is_none() {
        return false;
    }
    *known = known_with(*known, ns, state, name);
    true
}

fn is_undefined_global(symbol: &Symbol) -> bool
    ensures { result ≡ is_undefined_global symbol.now }
{
    symbol.bind == Bind::Global && matches!(symbol.home, Home::Undef)
}

/// Whether somebody provides each name that the cell doesn't define itself, needed or not.
pub fn has_all<'a>(
    ahead: &Ahead,
    known: &mut Option<Known<'a>>,
    cell: &'a NewCell,
    state: Standing,
) -> bool
    requires ns { cell.now.ns < length ahead.now.namespaces }
    requires known { IsKnown ahead.now known.old }
    ensures known { IsKnown ahead.now known.new }
    ensures all { IsTrue result → list_any (λ s. is_undefined_global s && is_lacking ahead.now cell.now.ns state s.name) cell.now.object.symbols ≡ false }
{
    let symbols = cell.object.symbols.as_slice();
    for index in 0..symbols.len() {
        let symbol = &symbols[index];
        if is_undefined_global(symbol)
            && !is_provided(ahead, known, cell.ns, state, symbol.name.as_slice())
        {
            return false;
        }
    }
    true
}
