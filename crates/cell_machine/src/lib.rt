//! The parts of the machine in one record: what holds of each machine, what is found in it, what has
//! been staged for it, and how a command was answered. The commands are in the crates above.
#![tactic(auto)]

mod lookup;
mod machine;
mod names;
mod staged;

pub use machine::Machine;
pub use names::{check_new_namespace, namespace, unknown, unknown_number};
pub use staged::Staged;
