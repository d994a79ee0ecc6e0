//! The live tasks: their arena, and turns of a task.
#![tactic(auto)]

mod clearing;
mod numbers;
mod output;
mod slice;
mod task;
mod tasks;
mod turn;
mod turned;
mod words;

pub use numbers::Numbers;
pub use slice::{Ran, Slice};
pub use task::{Task, TaskFault};
pub use tasks::Tasks;
pub use turned::Turned;
pub use words::stack_bytes;
