//! Cells that those found have links into.

ghost use Rattle.std.specs.Prelude.{◌≡◌, ◌==◌, ◌&&◌};
ghost use Rattle.cell_hold.specs.Adds.{Adds};
ghost use Rattle.cell_hold.specs.Uses.{Uses, is_used_by};

use crate::found::Found;
use crate::others::Others;
use cell_graph::Graph;
use cell_num::SecKey;
use cell_world::Placed;

/// Whether a cell that is found has a link into the section.
fn is_used(graph: &Graph, found: &Found, section: SecKey) -> bool
    ensures { result ≡ is_used_by graph.now.rows found.now.items section }
{
    for link in graph.users_of(section) {
        if found.has(link.user.cell) {
            return true;
        }
    }
    false
}

/// Adds the cell of the section, if one that is found has a link into it.
fn add_if_used(graph: &Graph, place: &Placed, into: &mut Found)
    ensures added { Adds (λ c. place.now.key.cell.0 == c && is_used_by graph.now.rows into.old.items place.now.key) into.old.room into.old.items into.new.items }
    ensures room { into.new.room ≡ into.old.room }
{
    if into.has(place.key.cell) {
        return;
    }
    if !is_used(graph, into, place.key) {
        return;
    }
    into.add(place.key.cell);
}

/// The same for the sections of all others: it goes over the links into them alone.
pub fn add_used(graph: &Graph, others: &Others, into: &mut Found)
    ensures uses { Uses graph.now.rows others.now.items into.old.room into.old.items into.new.items }
    ensures room { into.new.room ≡ into.old.room }
{
    for spot in others.spots() {
        add_if_used(graph, &spot.place, into);
    }
}
