//! Which sections are present, and the links between them. A section is a key here, its cell and its
//! number, and a place in an arena: no bytes, which are in `cell_mem`, and no section of an object.
//!
//! Two arenas, with two sorted lists of places beside them. Each is a type of its own, which counts
//! what is looked at.
#![tactic(auto)]

mod chains;
mod gap;
mod graph;
mod links;
mod marks;
mod near;
mod order;
mod removal;
mod row_list;
mod rows;
mod section;
mod section_list;
mod steps;
mod walks;
mod weak;

pub use cell_world::LinkRow;
pub use graph::Graph;
pub use marks::mark;
pub use removal::StillUsed;
pub use rows::{ChainRow, Rows};
pub use steps::Steps;
pub use walks::{CellDeps, Deps, Users};
pub use weak::Weak;
