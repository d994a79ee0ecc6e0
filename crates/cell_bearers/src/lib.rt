//! Who bears each name of a described machine: objects, whose cells all have their symbols' names, and cells with aliases. An
//! index of them, and what a cell that asks for a name sees of them.
#![tactic(auto)]

mod adding;
mod bearer;
mod first;
mod firsts;
mod index;
mod key;
mod named;
mod nearest;
mod order;
mod rows;
mod seeing;
mod sight;
mod text;

pub use bearer::Bearer;
pub use first::FirstBearer;
pub use index::{Index, index_of};
pub use named::Owner;
pub use rows::{Row, Rows};
pub use sight::{Sight, sight_of};
pub use text::text_at;
