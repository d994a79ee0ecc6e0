//! Looks at cells that have their places: the one of a number, where its sections stand, and what its
//! symbols are. It places none.
#![tactic(auto)]

mod cells;
mod own;
mod places;
mod sections;

pub use cells::{cell_among, cell_numbered};
pub use own::{own_target, symbol_at, target_in};
pub use places::start_of;
pub use sections::section_of;
