//! Taking cells away.

ghost use Rattle.std.specs.Prelude.{◌≡◌};
ghost use Rattle.cell_graph.specs.Removal.{is_listed};

use cell_num::{CellId, SecKey};

/// What stands against taking cells away.
#[derive(Clone, Copy, Debug, PartialEq, Eq)]
pub struct StillUsed {
    /// A section of another cell that has a link into one of them.
    pub user: SecKey,
}

pub fn is_listed(cells: &[CellId], sec: SecKey) -> bool
    ensures { result ≡ is_listed cells.now sec }
{
    cells.iter().any(|cell| cell.0 == sec.cell.0)
}
