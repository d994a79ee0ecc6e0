//! The commands that change cells. Each looks its words up, makes the change that they ask for, and answers
//! by what that has made.
#![tactic(auto)]

mod cloning;
mod loading;
mod recovering;
mod swapping;
mod wants;

pub use cloning::clone;
pub use loading::load;
pub use recovering::{rebuild, recover};
pub use swapping::{SwapWords, swap};
