//! A wanted cell.

use cell_num::{CellId, Name};

/// The file of a wanted cell, the number of the namespace that it is to stand in, and the cell that
/// it is to replace.
#[derive(Drop)]
pub struct Want {
    pub ns: u16,
    pub file: Name,
    pub replaces: Option<CellId>,
}
