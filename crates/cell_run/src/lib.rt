//! A whole run, over any host, any sink and any machine.
#![tactic(auto)]

mod driving;
mod fixed_machine;
mod in_memory;
mod job;
mod machine;
mod refuse;
mod shelf;
mod status;
mod summary;
mod top;

pub use cell_input::What;
pub use fixed_machine::{Answer, FixedMachine};
pub use in_memory::cells_in_memory;
pub use job::{Job, Shows};
pub use machine::Machine;
pub use shelf::Shelf;
pub use status::Status;
pub use summary::Summary;
pub use top::cells;
