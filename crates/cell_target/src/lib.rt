//! What each entry of a cell names, and where a name's provider has it: over the present cells and the
//! new ones of a load or a swap, which is not done yet. What the field then holds is `cell_link`.
#![tactic(auto)]

mod asked;
mod cells;
mod entries;
mod highs;
mod named;
mod provided;
mod scene;
mod symbols;
mod targets;

pub use cell_world::{NewCell, Target};
pub use highs::Highs;
pub use named::Named;
pub use scene::Scene;
pub use targets::Targets;
