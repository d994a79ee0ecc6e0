//! What a change changes in cells that stay, and which task stands inside a part of it. The whole plan of
//! a change, new cells and routines included, is made in `cell_change`.
#![tactic(auto)]

mod changed;
mod changes;
mod coverage;
mod exchange;
mod firsts;
mod known;
mod lasts;
mod laws;
mod marks;
mod old;
mod partners;
mod places;
mod rising;
mod span;
mod spans;
mod spots;
mod steps;
mod torn;
mod uppers;
mod users;
mod values;

pub use cell_commit::Rewiring;
pub use cell_link::FieldValue;
pub use cell_num::CellId;
pub use cell_object::Entry;
pub use cell_world::{LinkRow, NewCell, Target};
pub use changed::Changed;
pub use changes::Change;
pub use coverage::check_coverage;
pub use exchange::Exchange;
pub use laws::{links_are_own, links_tell_changes};
pub use old::Old;
pub use span::Span;
pub use spans::spans_of;
pub use torn::{TaskPc, Torn, first_torn};
pub use users::may_change;
