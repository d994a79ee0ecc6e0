//! The machine that a dump describes, linked anew: what its cells name, whether they can be linked, and what their sections
//! hold then.
#![tactic(auto)]

mod chain;
mod contents;
mod entries;
mod firsts;
mod ground;
mod link;
mod own;
mod places;
mod provider;
mod scene;
mod section_bytes;
mod symbols;
mod unlinked;
mod writing;

pub use chain::chain_of;
pub use contents::relinked_contents;
pub use entries::Entries;
pub use ground::{Ground, scene_of};
pub use places::start_in;
pub use provider::Sights;
pub use scene::Scene;
pub use unlinked::check_linked;
