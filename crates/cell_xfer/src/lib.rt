//! The transfer routines of a swap, which carry state over: their runs over the memory, and the names that
//! they ask for. Where they begin is found in `cell_routines`.
#![tactic(auto)]

mod asking;
mod carrying;
mod firsts;
mod routines;
mod turn;

pub use carrying::{Transfer, carry_over};
pub use firsts::{Addresses, Firsts};
pub use routines::transfer;
