//! The object files of a folder, found by namespace and stem and by name. They are bytes here: what they
//! mean is read when a cell is to come of one (`cell_gather`).
#![tactic(auto)]

mod depot;
mod file_name;
mod names;
mod shelves;

pub use cell_world::File;
pub use depot::{Depot, DepotFault};
pub use file_name::{namespace_of, stem_of};
