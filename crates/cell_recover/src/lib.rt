//! Which attached cells are renewed for a task that has faulted: the one that it stands in, or all that it
//! holds. It renews none: that is `cell_commands`, by a change.
#![tactic(auto)]

mod rebuild;
mod recovery;

pub use rebuild::plan_rebuild;
pub use recovery::plan_recovery;
