//! Changes of cells: new ones come, beside the others or in the place of some. First the whole decision is
//! made, then come steps that take no memory.
#![tactic(auto)]

mod affected;
mod back;
mod change;
mod copying;
mod entering;
mod made;
mod old_cells;
mod planning;
mod ready;
mod request;
mod restarting;
mod standing;
mod sweep;
mod transferring;

pub use change::make_change;
pub use made::Made;
pub use request::{CellCopy, Change, Ending, Options};
