//! The audit of a dump: whether its lines are those of the machine that it describes, linked anew from the files.
#![tactic(auto)]

mod auditing;
mod cell_lines;
mod compare;
mod comparing;
mod content_lines;
mod cursor;
mod link_lines;
mod name_lines;
mod space_lines;

pub use auditing::audit;
