//! Taking cells away, for `unload`, `purge` and swaps: first the whole decision, which cells the machine
//! keeps by `cell_hold`, then steps that take no memory.
#![tactic(auto)]

mod holding;
mod named;
mod outlook;
mod places;
mod regions;
mod removal;
mod survey;
mod sweep;
mod unloading;

pub use holding::{roots, view_of};
pub use named::named_cell;
pub use outlook::Outlook;
pub use removal::take_away;
pub use survey::Survey;
pub use sweep::remove_unkept;
pub use unloading::{purge, unload};
