//! Where holding begins.

use crate::boxed::Boxed;
use cell_num::CellId;

/// What of a live task may hold cells: its number, the cell that it began in, its pc and registers,
/// and the first address of its stack.
#[derive(Clone, Copy, Debug, PartialEq, Eq)]
pub struct TaskView {
    pub task: u32,
    pub root: CellId,
    pub pc: u64,
    pub x: [u64; 32],
    pub stack: u64,
}

/// An attached cell, a task with its words, or one further word of a task. Most are cells, so a task
/// stands apart.
#[derive(Debug, Drop)]
pub enum Root {
    Attached(CellId),
    Task(Boxed<TaskView>),
    Word(u32, u64),
}
