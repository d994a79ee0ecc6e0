//! The command line: a folder and a script, or what the generator takes.
#![tactic(auto)]

mod arguments;
mod command;

pub use arguments::{Arguments, ArgumentsFault, Task, read_arguments};
