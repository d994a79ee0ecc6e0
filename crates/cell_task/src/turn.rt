//! One turn of a task.

ghost use Rattle.std.specs.Prelude.{◌≡◌, ◌+◌, ◌≤◌, None, Some, [], vec_capacity, vec_len};
ghost use Rattle.cell_hart.specs.Step.{seen_of};
ghost use Rattle.cell_world.specs.Running.Move.{called, move, passed, state_at};
ghost use Rattle.cell_world.specs.Running.Turn.{task_column, task_row};

use crate::output::put_decimal;
use crate::{Task, TaskFault, Turned};
use cell_hart::Stop;
use cell_mem::Memory;
use cell_num::Cause;

impl Task {
    ghost use Rattle.cell_task.specs.Ran.{IsRan, answered, hart_as};

    /// How a task stands that has gone on: at the pc 0 it ends.
    fn gone_on(&self, yields: bool) -> Turned
        ensures { result ≡ answered (state_at (hart_as self.now.hart)) yields }
    {
        if self.hart.pc == 0 {
            return Turned::Done(self.hart.x[10]);
        }
        if yields { Turned::Yield } else { Turned::Ready }
    }

    /// The task stands still at its pc.
    fn trap(&mut self, cause: Cause) -> Turned
        ensures answer { result ≡ Turned.Fault cause self.old.hart.pc }
        ensures fault { self.new ≡ record self.old { fault = Some (record { cause = cause; pc = self.old.hart.pc }) } }
    {
        let pc = self.hart.pc;
        self.fault = Some(TaskFault { cause, pc });
        Turned::Fault(cause, pc)
    }

    /// On to the instruction after a call.
    fn pass(&mut self, yields: bool) -> Turned
        ensures { IsRan (passed [] (hart_as self.old.hart) yields []) result self.old self.new [] [] }
    {
        self.hart.pc = self.hart.pc.wrapping_add(4);
        self.gone_on(yields)
    }

    /// The call whose number stands in x17: 0 ends the task with the code in x10, 1 puts out the
    /// low byte of x10, 2 puts out x10 in decimal, 3 yields. Any other traps.
    fn call(&mut self, out: &mut Vec<u8>) -> Turned
        requires { vec_len out.old + 20 ≤ vec_capacity out.old }
        ensures ran { IsRan (called [] (hart_as self.old.hart) (task_row self.old.hart.x)) result self.old self.new out.old.items out.new.items }
        ensures room { vec_capacity out.new ≡ vec_capacity out.old }
        ensures short { vec_len out.new ≤ vec_len out.old + 20 }
    {
        let x10 = self.hart.x[10];
        match self.hart.x[17] {
            0 => Turned::Done(x10),
            1 => {
                out.push_reserved((x10 % 256) as u8);
                self.pass(false)
            }
            2 => {
                put_decimal(x10, out);
                self.pass(false)
            }
            3 => self.pass(true),
            _ => self.trap(Cause::Call),
        }
    }

    /// An instruction, or a call, which puts out at most 20 bytes.
    #[inline(always)]
    pub(crate) fn turn(&mut self, memory: &mut Memory, out: &mut Vec<u8>) -> Turned
        requires undo { memory.old.undo ≡ None }
        requires room { vec_len out.old + 20 ≤ vec_capacity out.old }
        ensures ran { IsRan (move task_column (seen_of memory.old) (hart_as self.old.hart)) result self.old self.new out.old.items out.new.items }
        ensures memory { memory.new ≡ record memory.old { regions = (move task_column (seen_of memory.old) (hart_as self.old.hart)).regions } }
        ensures room { vec_capacity out.new ≡ vec_capacity out.old }
        ensures short { vec_len out.new ≤ vec_len out.old + 20 }
    {
        match self.hart.step(memory) {
            Stop::Next => self.gone_on(false),
            Stop::Call => self.call(out),
            Stop::Trap { cause, .. } => self.trap(cause),
        }
    }
}
