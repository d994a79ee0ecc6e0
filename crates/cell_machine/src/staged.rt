//! All that a load adds, before anything is changed.

use cell_link::FieldValue;
use cell_place::Space;
use cell_space::NameRows;
use cell_world::{LinkRow, NewCell, Region};

/// New cells in their places, what each of them defines, the space with their runs, their regions with
/// their own bytes, what their fields hold, and their links.
#[derive(Drop)]
pub struct Staged {
    pub cells: Vec<NewCell>,
    pub names: Vec<NameRows>,
    pub space: Space,
    pub regions: Vec<Region>,
    pub fields: Vec<FieldValue>,
    pub rows: Vec<LinkRow>,
}
