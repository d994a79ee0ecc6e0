//! Where the routines of a swap begin, and the addresses that they may ask for.
#![tactic(auto)]

mod addresses;
mod begins;
mod definitions;
mod entries;
mod routines;

pub use addresses::add_addresses;
pub use begins::begins_of;
pub use entries::{Begin, can_begin_at};
pub use routines::routines_at;
