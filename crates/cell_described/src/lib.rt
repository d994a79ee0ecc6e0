//! The cells of a dump as cells of the machine that it describes, with the objects of their files:
//! whether each cell has one, and whether its sections and aliases may stand where the dump says.
#![tactic(auto)]

mod aliases;
mod cell;
mod describing;
mod fail;
mod finding;
mod objects;
mod places;
mod placing;
mod reading;
mod taken;

pub use cell::{Bounds, DescribedCell};
pub use describing::{Described, describe};
pub use fail::DescribeFail;
