//! What the lines of a dump say of its cells, as they were read.

use crate::wide::Wide;
use cell_num::Name;

/// A line that places a section of the cell.
#[derive(Clone, Copy, Debug, PartialEq, Eq)]
pub struct WrittenPlace {
    pub line: u32,
    pub section: u64,
    pub start: u64,
}

/// A line that gives the cell a further name, for the symbol at that place of its object, from 0. The name stands in the
/// file of the dump, from `name_start` to `name_end`. There may be millions of these, of 20 bytes each.
#[derive(Drop)]
pub struct WrittenAlias {
    pub line: u32,
    pub symbol: Wide,
    pub name_start: u32,
    pub name_end: u32,
}

/// A cell: its line, and the lines of its places and its aliases, which follow it.
#[derive(Drop)]
pub struct WrittenCell {
    pub line: u32,
    pub cell: u32,
    pub ns: u16,
    pub stem: Name,
    pub file: Name,
    /// The swap that put it aside, if one did.
    pub group: Option<u64>,
    pub places: Vec<WrittenPlace>,
    pub aliases: Vec<WrittenAlias>,
}
