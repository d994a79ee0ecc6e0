//! What commands show of the machine, which they leave as it is.
#![tactic(auto)]

mod all_bytes;
mod all_cells;
mod all_links;
mod all_names;
mod all_spaces;
mod links;
mod overview;
mod provider;
mod section;
mod whole;

pub use links::{deps, users};
pub use overview::map;
pub use provider::find;
pub use section::dump;
pub use whole::dump_all;
