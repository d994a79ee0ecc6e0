//! A live task.

ghost use Rattle.std.specs.Prelude.{ℕ, ◌≡◌, ◌+◌, ◌<◌, ◌^◌};
ghost use Rattle.cell_num.specs.Limits.{stack_size};
ghost use Rattle.cell_world.specs.Running.Restart.{restarted};
ghost use Rattle.cell_task.specs.State.{seen_as};

use cell_hart::Hart;
use cell_num::{Cause, CellId};
use cell_world::Origin;

/// Why a task stands still: its instruction at `pc` trapped.
#[derive(Clone, Copy, Debug, PartialEq, Eq)]
pub struct TaskFault {
    pub cause: Cause,
    pub pc: u64,
}

/// A live task: what it keeps of its spawn, the cell that it began in, its registers and pc, and
/// the first address of its stack. A task without a fault is ready.
#[derive(Drop)]
pub struct Task {
    pub origin: Origin,
    pub root: CellId,
    pub hart: Hart,
    pub stack: u64,
    pub fault: Option<TaskFault>,
}

impl Task {
    /// Stands at `entry`, which is in `root`, as it stood at its spawn: ready, with its argument.
    pub fn begin_again(&mut self, entry: u64, root: CellId)
        requires { self.old.stack + stack_size < 2 ^ 64 }
        ensures { (number : ℕ) → seen_as number self.new ≡ restarted (seen_as number self.old) (root.0, entry) }
    {
        self.root = root;
        self.hart = Hart::begin(entry, self.origin.arg, self.stack);
        self.fault = None;
    }
}
