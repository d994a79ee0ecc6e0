//! The script: its lines, and the commands on them.
#![tactic(auto)]

mod cells;
mod command;
mod line;
mod read;
mod swap;
mod transfer;
mod words;

pub use cell_world::Command;
pub use line::{Line, Script};
pub use read::{ScriptFail, read_script};
pub use words::{is_file, is_name, is_symbol};
