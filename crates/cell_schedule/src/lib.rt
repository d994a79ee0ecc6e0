//! The commands that start tasks, give them turns, end them and show them. Turns go as the script says: no
//! task is chosen here. What a turn does is `cell_task`.
#![tactic(auto)]

mod ending;
mod entry;
mod live_task;
mod overview;
mod round;
mod slice;
mod stack;
mod starting;
mod stepping;

pub use ending::kill;
pub use entry::{Entry, find_entry};
pub use live_task::live;
pub use overview::tasks;
pub use round::run;
pub use starting::spawn;
pub use stepping::step;
