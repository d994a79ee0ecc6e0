//! Who bears a name.

/// Who bears a name: an object, by one of its symbols, so that each cell of it does; or one cell, by an alias. Both are told by
/// their places, and the symbol is counted from 0.
#[derive(Clone, Copy, Debug, PartialEq, Eq)]
pub enum Bearer {
    Object { object: u32, symbol: u32 },
    Cell { cell: u32, symbol: u32 },
}
