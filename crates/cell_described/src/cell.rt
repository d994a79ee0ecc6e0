//! Cells as a dump describes them.

use cell_audit::WrittenAlias;
use cell_num::{CellId, Listed, Name};
use cell_world::SecPlace;

/// Where the space of the machine begins, and how many pages it has.
#[derive(Clone, Copy, Debug, PartialEq, Eq)]
pub struct Bounds {
    pub base: u64,
    pub pages: u64,
}

/// A cell of the described machine. `line` is the number of its line in the file, `object` the place
/// of its object in the list of all; cells of one file have one object. The names of its aliases
/// stand in the file.
#[derive(Drop)]
pub struct DescribedCell {
    pub line: u32,
    pub id: CellId,
    pub ns: u16,
    pub stem: Name,
    pub file: Name,
    /// The swap that put it aside, if one did.
    pub group: Option<u64>,
    pub object: usize,
    pub places: Listed<SecPlace>,
    pub aliases: Vec<WrittenAlias>,
}
