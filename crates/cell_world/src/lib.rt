//! The machine as definitions: in `specs/` its state, and what each command makes of it. In code only
//! what all crates speak of: commands, replies, refusals, limits and parts of the state. The machine
//! that runs is `cell_machine` and the crates above it.
#![tactic(auto)]

mod command;
mod fail;
mod file;
mod layout;
mod line;
mod refusal;
mod reply;
mod state;
mod transfer;

pub use command::{CellName, Command, SwapItem};
pub use fail::Fail;
pub use file::File;
pub use layout::{Class, Starts};
pub use line::{DumpLine, Part};
pub use refusal::{Many, Refusal};
pub use reply::{Found, LinkLine, MapCell, MapSection, Reply, TaskLine, TaskRun, TaskState};
pub use state::{
    LinkRow, Namespace, NewCell, Origin, Permission, Placed, Region, SecPlace, Standing, Target,
};
pub use transfer::{Failure, NameAddr, Record, Routine};
