//! What a program works on: the object files of a folder and one file beside them, over any host; and of a run, its script.
#![tactic(auto)]

mod folder;
mod object_name;
mod reason;
mod take;

pub use folder::{Beside, Folder, Refusals, take_folder};
pub use reason::{Reason, What};
pub use take::{Input, take_from};
