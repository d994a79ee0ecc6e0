//! The machine that runs: the machine's parts with the object files, and the call that does one command
//! by the crate of its kind. Of the commands only `ns` is done here.
#![tactic(auto)]

mod answer;
mod namespaces;
mod system;

pub use cell_world::{Command, Fail, File, Refusal, Reply};
pub use system::System;
