//! A large run that needs no folder: crates that name each other, a script that loads and then replaces them all.
#![tactic(auto)]

mod draws;
mod files;
mod making;
mod script;
mod text;

pub use making::{Generated, generate};
