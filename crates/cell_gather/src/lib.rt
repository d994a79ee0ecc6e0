//! Which cells a load or a swap brings: the wanted ones, and then whatever they need, from the nearest
//! depot. They have no places yet, and the machine stays as it is.
#![tactic(auto)]

mod append;
mod bring;
mod clashes;
mod copies;
mod definitions;
mod equal;
mod fresh;
mod gathering;
mod heirs;
mod load;
mod nearest;
mod read;
mod reexport;
mod room;
mod supply;
mod used;
mod want;

pub use copies::{Original, append_copies};
pub use definitions::weak_definitions;
pub use gathering::{Gathered, gather};
pub use room::Room;
pub use used::needs;
pub use want::Want;
