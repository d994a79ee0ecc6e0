//! Namespaces, and every cell in them, present or coming: what it is called, whether it is attached, and
//! who provides a name. No memory: which pages are taken is `Space` of `cell_place`.
#![tactic(auto)]

mod ahead;
mod cell;
mod chain;
mod hash;
mod index;
mod lookup;
mod names;
mod namespaces;
mod nearest;
mod path;
mod provider;
mod rows;
mod spaces;
mod symbol_name;
mod word;

pub use ahead::Ahead;
pub use cell::{SpaceCell, into_names};
pub use cell_world::Namespace;
pub use chain::Chain;
pub use names::NameRows;
pub use path::Path;
pub use provider::{Provider, Scope};
pub use spaces::Spaces;
pub use symbol_name::{base_name, crate_of};
