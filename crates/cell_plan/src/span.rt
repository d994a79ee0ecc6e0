//! Where a task stands inside what a field is a part of.

use cell_num::CellId;

/// A field by its cell, section and offset, with the addresses at which a task stands inside the
/// instructions that it is a part of: from `first` to `last`. There is none where `last` is below
/// `first`.
#[derive(Clone, Copy, Debug, PartialEq, Eq)]
pub struct Span {
    pub cell: CellId,
    pub section: u16,
    pub offset: u32,
    pub first: u64,
    pub last: u64,
}
