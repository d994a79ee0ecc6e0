//! New cells among those that take part in names.

ghost use Rattle.std.specs.Prelude.{◌≡◌, ◌<◌, ◌≤◌, ◌+◌, ◌++◌, ◌∷◌, [], length, map};
ghost use Rattle.cell_commit.specs.Cells.{AreFree, MayCome, arrived, name_count};

use cell_num::{CellId, Name};
use cell_space::{NameRows, Spaces};

/// What a new cell is called: its namespace, its stem, the names that it holds, and those that it holds
/// weakly.
#[derive(Drop)]
pub struct Newcomer {
    pub cell: CellId,
    pub ns: u16,
    pub stem: Name,
    pub names: NameRows,
    pub weak: NameRows,
}

/// Attaches a cell behind those that are there.
fn attach(spaces: &mut Spaces, newcomer: Newcomer)
    requires free { MayCome spaces.old.namespaces spaces.old.cells newcomer }
    requires room { 0 < spaces.old.spare_cells }
    requires room_for_names { length newcomer.weak + length newcomer.names < spaces.old.spare_names }
    ensures cells { spaces.new.cells ≡ spaces.old.cells ++ arrived newcomer ∷ [] }
    ensures namespaces { spaces.new.namespaces ≡ spaces.old.namespaces }
    ensures room { spaces.old.spare_cells ≤ spaces.new.spare_cells + 1 }
    ensures room_for_names { spaces.old.spare_names ≤ spaces.new.spare_names + (length newcomer.weak + length newcomer.names) + 1 }
{
    let Newcomer {
        cell,
        ns,
        stem,
        names,
        weak,
    } = newcomer;
    spaces.attach(cell, ns, stem, names, weak);
}

/// Attaches the cells, one after another, behind those that are there.
pub fn attach_cells(spaces: &mut Spaces, newcomers: Vec<Newcomer>)
    requires free { AreFree spaces.old.namespaces spaces.old.cells newcomers.items }
    requires room { length newcomers.items ≤ spaces.old.spare_cells }
    requires room_for_names { length newcomers.items + name_count newcomers.items ≤ spaces.old.spare_names }
    ensures cells { spaces.new.cells ≡ spaces.old.cells ++ map arrived newcomers.items }
    ensures namespaces { spaces.new.namespaces ≡ spaces.old.namespaces }
{
    for newcomer in newcomers {
        attach(spaces, newcomer);
    }
}
