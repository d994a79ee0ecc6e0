//! Where a new cell comes to stand, and what its pages hold before its fields are written. Places are
//! found here: `cell_placed` looks at cells that have theirs.
#![tactic(auto)]

mod cells;
mod image;
mod layout;
mod placement;
mod placements;
mod places;
mod regions;
mod starts;

pub use cells::{TakenRuns, place_cells};
pub use layout::{Layout, lay_out};
pub use placement::{PlaceFail, Placement, place};
