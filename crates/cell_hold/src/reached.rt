//! What a cell reaches.

ghost use Rattle.std.specs.Prelude.{◌≡◌, ◌&&◌, ◌||◌, not};
ghost use Rattle.std.specs.List.{list_any};
ghost use Rattle.cell_hold.specs.Adds.{Adds};
ghost use Rattle.cell_hold.specs.Reached.{cell_leads, links_lead, section_leads, words_reach};

use crate::bytes::section_bytes;
use crate::found::Found;
use crate::others::Others;
use crate::sections::Sections;
use crate::words::add_words;
use cell_graph::Graph;
use cell_mem::Memory;
use cell_num::CellId;
use cell_world::Placed;

/// Where to look for a cell first: behind the links and the sections of the last one.
#[derive(Clone, Copy, Debug, PartialEq, Eq)]
pub struct Near {
    pub links: usize,
    pub sections: usize,
}

/// What is read to find what cells reach: links, bytes, all sections, and those of cells that aren't found
/// yet, which alone matter as what words lie in.
#[derive(Clone, Copy)]
pub struct Reading<'a> {
    pub graph: &'a Graph,
    pub memory: &'a Memory,
    pub places: &'a Sections,
    pub others: &'a Others,
}

impl Near {
    /// At the start of both.
    pub fn start() -> Near
        ensures { result ≡ record { links = 0; sections = 0 } }
    {
        Near {
            links: 0,
            sections: 0,
        }
    }
}

/// Adds the targets of a cell's links. The answer is the index behind them.
fn add_targets(graph: &Graph, cell: CellId, near: usize, into: &mut Found) -> usize
    ensures added { Adds (links_lead graph.now cell.0) into.old.room into.old.items into.new.items }
    ensures room { into.new.room ≡ into.old.room }
{
    let (links, next) = graph.deps_of_cell_near(cell, near);
    for link in links {
        into.add(link.target.cell);
    }
    next
}

/// The same, unless the links have been gone over before.
fn add_targets_unless(
    known: bool,
    graph: &Graph,
    cell: CellId,
    near: usize,
    into: &mut Found,
) -> usize
    ensures added { Adds (λ c. not known && links_lead graph.now cell.0 c) into.old.room into.old.items into.new.items }
    ensures room { into.new.room ≡ into.old.room }
{
    if known {
        return near;
    }
    add_targets(graph, cell, near, into)
}

/// Adds the cells that the words of a section lie in, if it may be written.
fn add_from_section(memory: &Memory, others: &Others, place: &Placed, into: &mut Found)
    ensures added { Adds (section_leads memory.now others.now.items place.now) into.old.room into.old.items into.new.items }
    ensures room { into.new.room ≡ into.old.room }
{
    if !place.write {
        return;
    }
    let bytes = section_bytes(memory, place);
    add_words(others, bytes, into);
}

/// The same for all sections of a cell. The answer is the index behind them.
fn add_from_sections(
    memory: &Memory,
    places: &Sections,
    others: &Others,
    cell: CellId,
    near: usize,
    into: &mut Found,
) -> usize
    ensures added { Adds (words_reach memory.now places.now others.now.items cell.0) into.old.room into.old.items into.new.items }
    ensures room { into.new.room ≡ into.old.room }
{
    let (own, next) = places.own_near(cell, near);
    for place in own {
        add_from_section(memory, others, place, into);
    }
    next
}

impl<'a> Reading<'a> {
    /// Adds the cells that a cell reaches, by words alone where its links are known, and tells where to look
    /// for the next one first.
    pub fn add_reached(&self, cell: CellId, known: bool, near: Near, into: &mut Found) -> Near
        ensures added { Adds (λ c. not known && links_lead self.now.graph.now cell.0 c || words_reach self.now.memory.now self.now.places.now self.now.others.now.items cell.0 c) into.old.room into.old.items into.new.items }
        ensures room { into.new.room ≡ into.old.room }
    {
        Near {
            links: add_targets_unless(known, self.graph, cell, near.links, into),
            sections: add_from_sections(
                self.memory,
                self.places,
                self.others,
                cell,
                near.sections,
                into,
            ),
        }
    }
}
