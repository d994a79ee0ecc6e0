//! What a change came to.

use cell_num::{CellId, Listed};

/// What was made, as a command answers it.
#[derive(Drop)]
pub struct Made {
    /// The new cells.
    pub fresh: Listed<CellId>,
    /// How many fields were patched, those of the new cells and those of others.
    pub patched: u32,
    /// The cells that went.
    pub removed: Listed<CellId>,
    /// All cells that are put aside then, where cells were replaced, and else none.
    pub aside: Listed<CellId>,
}
