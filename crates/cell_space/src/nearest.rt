//! Looking for the nearest cell that holds a name weakly, one namespace after the other.

ghost use Rattle.std.specs.Prelude.{◌≡◌, ◌<◌, length, option_map};
ghost use Rattle.cell_world.specs.Names.{chain};
ghost use Rattle.cell_world.specs.declared.state.Standing.TheVariants.{Attached};
ghost use Rattle.cell_space.specs.Named.{provider_as, weak_provider};
ghost use Rattle.cell_space.specs.Nearest.{weak_offer, weak_in, nearest_in, nearest_aside};
ghost use Rattle.cell_space.specs.Index.{held, IsWhole};
ghost use Rattle.cell_space.specs.Rising.{IsRising};
ghost use Rattle.cell_space.specs.Rooted.{AreRooted};
ghost use Rattle.cell_space.specs.declared.word.WordKind.TheVariants.{Weak};

use crate::cell::SpaceCell;
use crate::chain::chain_of;
use crate::index::Index;
use crate::lookup::holder;
use crate::provider::Provider;
use crate::word::{Word, WordKind};
use cell_world::{Namespace, Standing};

/// The cell as the name's provider, where it is in the state and in the namespace and holds it weakly.
fn weak_offer(cell: &SpaceCell, ns: u16, state: Standing, name: &[u8]) -> Option<Provider>
    ensures { option_map provider_as result ≡ weak_offer ns state name.now cell.now }
{
    if !(cell.is_in(state) && cell.ns == ns) {
        return None;
    }
    let symbol = cell.weak.symbol_of(name)?;
    Some(Provider {
        cell: cell.cell,
        symbol,
    })
}

/// The first cell of the namespace in a state that holds the name weakly, where each is asked.
fn weak_by_walk(cells: &[SpaceCell], ns: u16, state: Standing, name: &[u8]) -> Option<Provider>
    ensures { option_map provider_as result ≡ weak_in ns state name.now cells.now }
{
    for cell in cells {
        if let Some(provider) = weak_offer(cell, ns, state, name) {
            return Some(provider);
        }
    }
    None
}

/// The nearest cell in a state that holds the name weakly, where each is asked.
fn nearest_by_walk(
    namespaces: &[Namespace],
    cells: &[SpaceCell],
    ns: u16,
    state: Standing,
    name: &[u8],
) -> Option<Provider>
    requires rooted { AreRooted namespaces.now }
    requires there { ns < length namespaces.now }
    ensures { option_map provider_as result ≡ nearest_in (chain namespaces.now ns) state name.now cells.now }
{
    for other in chain_of(namespaces, ns) {
        if let Some(provider) = weak_by_walk(cells, other, state, name) {
            return Some(provider);
        }
    }
    None
}

/// The nearest cell that holds the name weakly among those of the group of a cell that is put aside.
pub fn nearest_aside(
    namespaces: &[Namespace],
    cells: &[SpaceCell],
    ns: u16,
    state: Standing,
    name: &[u8],
) -> Option<Provider>
    requires rooted { AreRooted namespaces.now }
    requires there { ns < length namespaces.now }
    ensures { option_map provider_as result ≡ nearest_aside (chain namespaces.now ns) state name.now cells.now }
{
    match state {
        Standing::Attached => None,
        Standing::Detached(group) => {
            nearest_by_walk(namespaces, cells, ns, Standing::Detached(group), name)
        }
    }
}

/// The attached cell of the namespace itself that holds the name weakly.
pub fn weak_in(index: &Index, cells: &[SpaceCell], ns: u16, word: &Word) -> Option<Provider>
    requires rising { IsRising cells.now }
    requires whole { IsWhole (held index.now) cells.now }
    requires weak { word.now.kind ≡ Weak }
    ensures { option_map provider_as result ≡ weak_in ns Attached word.now.text.now cells.now }
{
    let cell = holder(index, cells, ns, word)?;
    let symbol = cell.weak.symbol_of(word.text)?;
    Some(Provider {
        cell: cell.cell,
        symbol,
    })
}

/// The nearest attached cell that holds the name weakly.
fn nearest_attached(
    namespaces: &[Namespace],
    index: &Index,
    cells: &[SpaceCell],
    ns: u16,
    name: &[u8],
) -> Option<Provider>
    requires rooted { AreRooted namespaces.now }
    requires there { ns < length namespaces.now }
    requires rising { IsRising cells.now }
    requires whole { IsWhole (held index.now) cells.now }
    ensures { option_map provider_as result ≡ nearest_in (chain namespaces.now ns) Attached name.now cells.now }
{
    let word = Word::of(WordKind::Weak, name);
    for other in chain_of(namespaces, ns) {
        if let Some(provider) = weak_in(index, cells, other, &word) {
            return Some(provider);
        }
    }
    None
}

/// The weak holder for a cell in a state, or for a namespace as for an attached one.
pub fn weak_provider(
    namespaces: &[Namespace],
    index: &Index,
    cells: &[SpaceCell],
    ns: u16,
    state: Standing,
    name: &[u8],
) -> Option<Provider>
    requires rooted { AreRooted namespaces.now }
    requires there { ns < length namespaces.now }
    requires rising { IsRising cells.now }
    requires whole { IsWhole (held index.now) cells.now }
    ensures { option_map provider_as result ≡ weak_provider (chain namespaces.now ns) state name.now cells.now }
{
    match nearest_aside(namespaces, cells, ns, state, name) {
        Some(provider) => Some(provider),
        None => nearest_attached(namespaces, index, cells, ns, name),
    }
}
