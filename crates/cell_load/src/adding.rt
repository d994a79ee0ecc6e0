//! Adding what was staged. There is room for all of it, so nothing can fail.

ghost use Rattle.std.specs.Prelude.{◌≡◌, ◌+◌, ◌≤◌, ◌++◌, length, map, vec_capacity, vec_len};
ghost use Rattle.cell_commit.specs.Cells.{arrived};
ghost use Rattle.cell_commit.specs.Commit.{IsLaidOut, all_mapped};
ghost use Rattle.cell_commit.specs.Rewiring.{CanRewire};
ghost use Rattle.cell_world.specs.Running.Undo.{AreBytes};
ghost use Rattle.cell_load.specs.Adding.{IsCommittable, memory_with};
ghost use Rattle.cell_lemmas.specs.LinkSteps.{afters};
ghost use Rattle.cell_machine.specs.Staged.{IsCommitted};

use crate::prepared::Prepared;
use cell_commit::{
    Rewiring, add_sections, attach_cells, bind_rows, map_regions, patch_fields, rewire,
    write_fields,
};
use cell_graph::{Graph, LinkRow};
use cell_link::FieldValue;
use cell_machine::{Machine, Staged};
use cell_num::CellId;
use cell_world::NewCell;

/// Adds the staged cells, for which there is room, and has other cells lead to them: `patches` are the
/// fields of others that change, and `links` the links of others that do. This takes no memory, and leaves
/// room for the links that went.
pub fn commit(
    machine: &mut Machine,
    staged: Staged,
    prepared: Prepared,
    patches: &[FieldValue],
    links: &Rewiring,
)
    requires { IsCommittable machine.old staged prepared patches.now links.now }
    ensures committed { (c : IsCommittable machine.old staged prepared patches.now links.now) →
        IsCommitted machine.old (memory_with machine.old.memory staged.regions.items patches.now) (afters c.change.steps) (map arrived prepared.newcomers.items) staged machine.new }
    ensures room { length links.now.unbinds.items ≤ machine.new.graph.spare_rows }

    // The new regions stand apart from the others, before a field is written.
    ensures laid { IsLaidOut (all_mapped machine.old.memory staged.regions.items) }
    ensures bytes { AreBytes (all_mapped machine.old.memory staged.regions.items).regions }
{
    let Staged {
        cells,
        names: _,
        space,
        regions,
        fields,
        rows,
    } = staged;
    let Prepared {
        newcomers,
        sections,
        soft,
    } = prepared;
    map_regions(&mut machine.memory, regions);
    machine.memory.laid_out();
    machine.memory.holds_bytes();
    patch_fields(&mut machine.memory, patches);
    write_fields(&mut machine.memory, &fields);
    add_sections(&mut machine.graph, &sections);
    rewire_if_any(
        &mut machine.graph,
        &links.unbinds,
        &links.binds,
        &links.moves,
    );
    bind_rows(&mut machine.graph, &rows);
    attach_cells(&mut machine.spaces, newcomers);
    machine.space = space;
    machine.next += cells.len() as u32;
    append(&mut machine.cells, cells);
    append_numbers(&mut machine.soft, soft);
}

/// Has links of others lead as they lead then. Where none of them changes, no link is looked at.
fn rewire_if_any(graph: &mut Graph, gone: &[LinkRow], new: &[LinkRow], moves: &[LinkRow])
    requires { CanRewire graph.old gone.now new.now moves.now }
    ensures rows { (c : CanRewire graph.old gone.now new.now moves.now) → graph.new.rows ≡ afters c.steps }
    ensures sections { graph.new.sections ≡ graph.old.sections }
    ensures room_for_rows { graph.old.spare_rows + length gone.now ≤ graph.new.spare_rows + length new.now }
    ensures room_for_sections { graph.old.spare_sections ≤ graph.new.spare_sections }
{
    if gone.is_empty() && new.is_empty() && moves.is_empty() {
        graph.in_order();
        return;
    }
    rewire(graph, gone, new, moves);
}

/// Appends to a list of numbers that has room.
fn append_numbers(into: &mut Vec<CellId>, mut cells: Vec<CellId>)
    requires { vec_len into.old + vec_len cells ≤ vec_capacity into.old }
    ensures { into.new.items ≡ into.old.items ++ cells.items }
{
    let _ = into.append(&mut cells);
}

/// Appends to a vector that has room.
fn append(into: &mut Vec<NewCell>, mut cells: Vec<NewCell>)
    requires { vec_len into.old + vec_len cells ≤ vec_capacity into.old }
    ensures { into.new.items ≡ into.old.items ++ cells.items }
{
    let _ = into.append(&mut cells);
}
