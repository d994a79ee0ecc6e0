//! Who provides a name.

use cell_num::CellId;

/// A cell that has a name, and the number of the symbol there, from 1.
#[derive(Clone, Copy, Debug, PartialEq, Eq)]
pub struct Provider {
    pub cell: CellId,
    pub symbol: u32,
}

/// What a provider is looked up for: a namespace, or a cell that is there.
#[derive(Clone, Copy, Debug, PartialEq, Eq)]
pub enum Scope {
    Space(u16),
    Cell(CellId),
}
