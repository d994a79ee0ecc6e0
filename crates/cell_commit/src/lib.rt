//! What a commit is made of: regions are mapped, fields are written and sealed, sections are added,
//! links are bound, moved or taken away, and cells are attached.
//! None of these calls takes memory or fails. The commit itself, which makes them in order, is in `cell_load`.
#![tactic(auto)]

mod attach;
mod bind;
mod fields;
mod laws;
mod regions;
mod row;
mod sections;
mod wiring;

pub use attach::{Newcomer, attach_cells};
pub use bind::{bind_rows, move_rows};
pub use fields::{patch_fields, write_fields};
pub use laws::{mapping_adds, writing_adds, writing_seals};
pub use regions::map_regions;
pub use row::link_row;
pub use sections::{CellSections, add_sections};
pub use wiring::{Rewiring, rewire};
