//! Marks of cells, by their numbers.

ghost use Rattle.std.specs.Prelude.{◌≡◌};
ghost use Rattle.cell_graph.specs.Users.{is_marked};

use cell_num::CellId;

/// Whether the cell is marked.
pub fn is_marked(marks: &[bool], cell: CellId) -> bool
    ensures { result ≡ is_marked marks.now cell.0 }
{
    let place = cell.0 as usize;
    place < marks.len() && marks[place]
}
