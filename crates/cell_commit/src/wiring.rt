//! What becomes of links of cells that stay.

ghost use Rattle.std.specs.Prelude.{◌≡◌, ◌≤◌, ◌+◌, IfOk, length};
ghost use Rattle.cell_lemmas.specs.LinkSteps.{afters};
ghost use Rattle.cell_commit.specs.Rewiring.{CanRewire, IsTurned};

use crate::bind::{insert_rows, move_rows, unbind_rows};
use cell_graph::{Graph, LinkRow};
use std::alloc::{AllocError, Global};

/// Links of cells that stay, each list by the user's cell and then the entry.
#[derive(Drop)]
pub struct Rewiring {
    /// Those that lead to another section, as they lead then.
    pub moves: Vec<LinkRow>,
    /// The same, as they lead before.
    pub backs: Vec<LinkRow>,
    /// Those that come.
    pub binds: Vec<LinkRow>,
    /// Those that go.
    pub unbinds: Vec<LinkRow>,
}

impl Rewiring {
    /// What takes all of it back.
    pub fn turned(&self, alloc: Global) -> Result<Rewiring, AllocError>
        ensures { IfOk result (IsTurned self.now) }
    {
        Ok(Rewiring {
            moves: copied(alloc, &self.backs)?,
            backs: copied(alloc, &self.moves)?,
            binds: copied(alloc, &self.unbinds)?,
            unbinds: copied(alloc, &self.binds)?,
        })
    }
}

/// The same links.
fn copied(alloc: Global, rows: &[LinkRow]) -> Result<Vec<LinkRow>, AllocError>
    ensures { IfOk result (λ copy. copy.items ≡ rows.now) }
{
    let mut copy = Vec::new(alloc);
    copy.extend_from_slice(rows)?;
    Ok(copy)
}

/// Takes links away, adds links, and gives others new targets, so that each entry has the link that it has
/// then. This takes no memory: what goes leaves room for what comes.
pub fn rewire(graph: &mut Graph, gone: &[LinkRow], new: &[LinkRow], moves: &[LinkRow])
    requires { CanRewire graph.old gone.now new.now moves.now }
    ensures rows { (c : CanRewire graph.old gone.now new.now moves.now) → graph.new.rows ≡ afters c.steps }
    ensures sections { graph.new.sections ≡ graph.old.sections }
    ensures room_for_rows { graph.old.spare_rows + length gone.now ≤ graph.new.spare_rows + length new.now }
    ensures room_for_sections { graph.old.spare_sections ≤ graph.new.spare_sections }
{
    unbind_rows(graph, gone);
    insert_rows(graph, new);
    move_rows(graph, moves);
    graph.in_order();
}
