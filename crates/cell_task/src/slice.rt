//! Turns of one task, one after another.

ghost use Rattle.std.specs.Prelude.{ℕ, ◌≡◌, ◌+◌, ◌*◌, ◌≤◌, None, true, is_some, vec_capacity, vec_len};
ghost use Rattle.cell_mem.specs.State.{region_from};
ghost use Rattle.cell_task.specs.Slices.{IsAmong, IsRun, begun, memory_left, run_from, stopped_by, tasks_left};
ghost use Rattle.cell_task.specs.State.{TasksState};

use crate::{Task, Turned};
use cell_mem::Memory;
use cell_world::TaskState;

/// How long a task may go on: at most so many turns, fewer where it yields and `until_yield` says so.
#[derive(Clone, Copy, Debug, PartialEq, Eq)]
pub struct Slice {
    pub turns: u32,
    pub until_yield: bool,
}

/// How many turns a task had in its slice, and how it stands after them.
#[derive(Clone, Copy, Debug, PartialEq, Eq)]
pub struct Ran {
    pub turns: u32,
    pub state: TaskState,
}

/// How a task stands that goes no further in this slice.
#[inline(always)]
fn stopped(turned: Turned, until_yield: bool) -> Option<TaskState>
    ensures { result ≡ stopped_by until_yield turned }
{
    match turned {
        Turned::Ready => None,
        Turned::Yield => {
            if until_yield {
                Some(TaskState::Ready)
            } else {
                None
            }
        }
        Turned::Done(code) => Some(TaskState::Done(code)),
        Turned::Fault(cause, pc) => Some(TaskState::Fault(cause, pc)),
    }
}

impl Task {
    /// The turns of a slice. A task that ended is still to be taken away, and its stack to be unmapped.
    pub(crate) fn run(&mut self, slice: Slice, memory: &mut Memory, out: &mut Vec<u8>) -> Ran
        requires undo { memory.old.undo ≡ None }
        requires room { vec_len out.old + 20 * slice.turns ≤ vec_capacity out.old }
        ensures run { (s : TasksState) (number : ℕ) → IsAmong s number self.old → IsRun (run_from slice.turns slice.until_yield number (begun s memory.old out.old.items)) (tasks_left s number self.new result.state) (memory_left memory.new self.new result.state) result out.new.items }
        ensures mapped { is_some (region_from memory.old self.old.stack) ≡ true → is_some (region_from memory.new self.new.stack) ≡ true }
    {
        for had in 0..slice.turns {
            // The regions stand apart, so a store leaves the stack as long as it was.
            memory.laid_out();
            let turned = self.turn(memory, out);
            if let Some(state) = stopped(turned, slice.until_yield) {
                return Ran {
                    turns: had + 1,
                    state,
                };
            }
        }
        Ran {
            turns: slice.turns,
            state: TaskState::Ready,
        }
    }
}
