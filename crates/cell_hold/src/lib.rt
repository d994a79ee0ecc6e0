//! Which cells must stay, and who holds them, from sections, links, memory and the words of tasks. It
//! takes nothing away: that is `cell_unload`.
#![tactic(auto)]

mod boxed;
mod bytes;
mod direct;
mod found;
mod holder;
mod leads;
mod others;
mod places;
mod reached;
mod roots;
mod sections;
mod spots;
mod used;
mod words;
mod worklist;

pub use boxed::Boxed;
pub use holder::holder_of;
pub use places::Places;
pub use roots::{Root, TaskView};
pub use worklist::kept;
