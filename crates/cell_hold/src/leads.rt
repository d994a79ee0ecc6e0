//! Whether a cell leads into another.

ghost use Rattle.std.specs.Prelude.{◌≡◌};
ghost use Rattle.std.specs.List.{list_any};
ghost use Rattle.cell_world.specs.Kept.{reaches};
ghost use Rattle.cell_hold.specs.Reached.{cell_leads, linked, links_lead, section_leads};

use crate::bytes::section_bytes;
use crate::sections::Sections;
use crate::words::words_lead;
use cell_graph::Graph;
use cell_mem::Memory;
use cell_num::CellId;
use cell_world::Placed;

/// Whether a link of one cell has the other as target.
fn has_link(graph: &Graph, from: CellId, cell: CellId) -> bool
    ensures { result ≡ links_lead graph.now from.0 cell.0 }
{
    let links = graph.deps_of_cell(from);
    for link in links {
        if link.target.cell.0 == cell.0 {
            return true;
        }
    }
    false
}

/// Whether a section may be written and has a word that lies in the cell.
fn section_leads(memory: &Memory, places: &Sections, place: &Placed, cell: CellId) -> bool
    ensures { result ≡ section_leads memory.now places.now place.now cell.0 }
{
    if !place.write {
        return false;
    }
    let bytes = section_bytes(memory, place);
    words_lead(places, bytes, cell)
}

/// The same for all sections of a cell.
fn sections_lead(memory: &Memory, places: &Sections, from: CellId, cell: CellId) -> bool
    ensures { result ≡ list_any (λ s. cell_leads memory.now places.now from.0 s cell.0) places.now }
{
    let own = places.own(from);
    for place in own {
        if section_leads(memory, places, place, cell) {
            return true;
        }
    }
    false
}

/// Whether one cell reaches another.
pub fn reaches(
    graph: &Graph,
    memory: &Memory,
    places: &Sections,
    from: CellId,
    cell: CellId,
) -> bool
    ensures { result ≡ reaches (linked graph.now memory.now places.now) from.0 cell.0 }
{
    if has_link(graph, from, cell) {
        return true;
    }
    sections_lead(memory, places, from, cell)
}
