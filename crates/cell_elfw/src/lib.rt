//! Writes relocatable ELF objects.
#![tactic(auto)]

mod draft;
mod fail;
mod headers;
mod number;
mod parts;
mod room;
mod rows;
mod strings;
mod symbols;
mod tables;
mod writing;

pub use fail::WriteFail;
pub use writing::write_object;
