//! The live tasks.

ghost use Rattle.std.specs.Prelude.{◌≡◌, ◌+◌, ◌-◌, ◌*◌, ◌<◌, ◌≤◌, ◌^◌, None, Some, [], true, is_some, length, map, option_map, vec_capacity, vec_len, IfNone, IfOk, IfSome, OnErr, OnOk};
ghost use Rattle.cell_num.specs.Limits.{stack_size};
ghost use Rattle.cell_mem.specs.State.{region_from};
ghost use Rattle.cell_world.specs.Commands.SpawnCommand.{new_task};
ghost use Rattle.cell_world.specs.Running.Words.{words_of as words_in_task};
ghost use Rattle.cell_world.specs.World.{Task as WorldTask};
ghost use Rattle.cell_world.specs.Running.Restart.{restarted};
ghost use Rattle.cell_task.specs.Clearing.{CanClear, with_cleared};
ghost use Rattle.cell_task.specs.State.{IsReady, live_in, no_tasks, seen_as, with_changed, with_new, without};
ghost use Rattle.cell_task.specs.Slices.{IsRun, begun, run_from};
ghost use Rattle.cell_task.specs.Turns.{IsTurn};
ghost use Rattle.cell_task.specs.Numbers.{HasAt, Lacks, RisesSomewhere};

use crate::clearing::clear_stack;
use crate::words::put_words;
use crate::{Numbers, Ran, Slice, Task, Turned};
use cell_hart::Hart;
use cell_mem::Memory;
use cell_num::CellId;
use cell_world::{Origin, TaskState};
use slab::Slab;
use std::alloc::{AllocError, Global};
use std::marker::Model;

/// The arena of the live tasks, their numbers, ascending, and for each number the task's key in
/// the arena. Contracts see the tasks in the order of their numbers, and the next number.
#[derive(Drop)]
pub struct Tasks {
    arena: Slab<Task>,
    numbers: Vec<u32>,
    keys: Vec<usize>,
    next: u32,
}

impl Model for Tasks {
    ghost use Rattle.cell_task.specs.State.{TasksState};

    ghost Value = { TasksState };

    ghost use Rattle.cell_task.specs.Inside.{IsSound, state_of};

    ghost view = { state_of };

    ghost invariant = { IsSound };
}

/// The place of a number among numbers that rise, by halves.
fn search_in(numbers: &[u32], task: u32) -> Option<usize>
    requires { RisesSomewhere numbers.now }
    ensures found { IfSome result (λ place. HasAt numbers.now place task) }
    ensures absent { IfNone result (Lacks numbers.now task) }
{
    numbers.binary_search(&task).ok()
}

/// The place of a number among numbers that rise. As long as no task has ended, it is one below the number.
fn place_in(numbers: &[u32], task: u32) -> Option<usize>
    requires { RisesSomewhere numbers.now }
    ensures found { IfSome result (λ place. HasAt numbers.now place task) }
    ensures absent { IfNone result (Lacks numbers.now task) }
{
    let guess = task.saturating_sub(1) as usize;
    if guess < numbers.len() && numbers[guess] == task {
        return Some(guess);
    }
    search_in(numbers, task)
}

impl Tasks {
    /// No task; the first one has the number 1.
    pub fn new(alloc: Global) -> Tasks
        ensures { result ≡ no_tasks }
    {
        Tasks {
            arena: Slab::new(alloc),
            numbers: Vec::new(alloc),
            keys: Vec::new(alloc),
            next: 1,
        }
    }

    /// The number of the next task.
    pub fn next(&self) -> u32
        ensures { result ≡ self.now.next }
    {
        self.next
    }

    /// How many tasks are live.
    pub fn count(&self) -> usize
        ensures { result ≡ length self.now.tasks }
    {
        self.numbers.len()
    }

    /// The numbers of the live tasks, ascending.
    pub fn live(&self) -> Numbers
        ensures { result ≡ map (λ t. t.number) self.now.tasks }
    {
        Numbers::of(&self.numbers)
    }

    /// The live task of that number.
    pub fn get(&self, task: u32) -> Option<&Task>
        ensures { option_map (λ t. seen_as task t.now) result ≡ live_in self.now task }
    {
        let place = place_in(&self.numbers, task)?;
        self.arena.get(self.keys[place])
    }

    /// Starts a task at `entry`, which is in `root` and has the origin's name, with the origin's
    /// argument in x10. Its stack begins at `stack` and has four pages, which the caller maps.
    pub fn spawn(
        &mut self,
        origin: Origin,
        entry: u64,
        stack: u64,
        root: CellId,
    ) -> Result<u32, AllocError>
        requires numbers { self.old.next ≤ 65535 }
        requires stack { stack + stack_size < 2 ^ 64 }
        ensures number { IfOk result (λ number. number ≡ self.old.next) }
        ensures started { OnOk result (self.new ≡ with_new self.old (new_task self.old.next root.0 entry origin stack)) }
        ensures kept { OnErr result (self.new ≡ self.old) }
    {
        self.numbers.reserve(1)?;
        self.keys.reserve(1)?;
        self.arena.reserve(1)?;
        let hart = Hart::begin(entry, origin.arg, stack);
        let task = Task {
            origin,
            root,
            hart,
            stack,
            fault: None,
        };
        let key = self.arena.insert_reserved(task);
        let number = self.next;
        self.numbers.push(number)?;
        self.keys.push(key)?;
        self.next += 1;
        Ok(number)
    }

    /// Begins a live task again at `entry`, which is in `root`: its registers are as at its spawn, and
    /// its stack is cleared. Its number, its stack and its origin stay. This takes no memory.
    pub fn restart(&mut self, task: u32, entry: u64, root: CellId, memory: &mut Memory)
        requires live { is_some (live_in self.old task) ≡ true }
        requires stack { (t : WorldTask) → live_in self.old task ≡ Some t → CanClear memory.old t.stack }
        requires undo { memory.old.undo ≡ None }
        ensures tasks { (t : WorldTask) → live_in self.old task ≡ Some t → self.new ≡ with_changed self.old (restarted t (root.0, entry)) }
        ensures memory { (t : WorldTask) → live_in self.old task ≡ Some t → memory.new ≡ with_cleared memory.old t.stack }
    {
        let Some(place) = place_in(&self.numbers, task) else {
            unreachable!();
        };
        let Some(live) = self.arena.get_mut(self.keys[place]) else {
            unreachable!();
        };
        let stack = live.stack;
        live.begin_again(entry, root);
        clear_stack(memory, stack);
    }

    /// Takes a live task away, and gives the first address of its stack, which the caller unmaps.
    pub fn kill(&mut self, task: u32) -> u64
        requires { is_some (live_in self.old task) ≡ true }
        ensures stack { option_map (λ t. t.stack) (live_in self.old task) ≡ Some result }
        ensures gone { self.new ≡ without self.old task }
    {
        let Some(place) = place_in(&self.numbers, task) else {
            unreachable!();
        };
        let _ = self.numbers.remove(place);
        let key = self.keys.remove(place);
        match self.arena.try_remove(key) {
            Some(task) => task.stack,
            None => unreachable!(),
        }
    }

    /// One turn of a ready task: an instruction, or a call. What it puts out is appended to `out`.
    /// A task that ends is no longer live, and its stack is unmapped. This takes no memory.
    pub fn turn(&mut self, task: u32, memory: &mut Memory, out: &mut Vec<u8>) -> Turned
        requires ready { IsReady self.old task }
        requires stack { (t : WorldTask) → live_in self.old task ≡ Some t → is_some (region_from memory.old t.stack) ≡ true }
        requires undo { memory.old.undo ≡ None }
        requires room { vec_len out.old + 20 ≤ vec_capacity out.old }
        ensures turned { (t : WorldTask) → live_in self.old task ≡ Some t → IsTurn self.old memory.old t out.old.items result self.new memory.new out.new.items }
        ensures room { vec_capacity out.new ≡ vec_capacity out.old }
        ensures short { vec_len out.new ≤ vec_len out.old + 20 }
    {
        // The regions stand apart, so a store leaves the stack as long as it was.
        memory.laid_out();
        let Some(place) = place_in(&self.numbers, task) else {
            unreachable!();
        };
        let Some(live) = self.arena.get_mut(self.keys[place]) else {
            unreachable!();
        };
        let turned = live.turn(memory, out);
        if let Turned::Done(_) = turned {
            let stack = self.kill(task);
            memory.unmap(stack);
        }
        turned
    }

    /// Turns of a ready task one after another, as many as its slice has. What it puts out is appended to
    /// `out`. A task that ends is no longer live, and its stack is unmapped. This takes no memory.
    pub fn run(&mut self, task: u32, slice: Slice, memory: &mut Memory, out: &mut Vec<u8>) -> Ran
        requires live { is_some (live_in self.old task) ≡ true }
        requires stack { (t : WorldTask) → live_in self.old task ≡ Some t → is_some (region_from memory.old t.stack) ≡ true }
        requires undo { memory.old.undo ≡ None }
        requires room { vec_len out.old + 20 * slice.turns ≤ vec_capacity out.old }
        ensures { IsRun (run_from slice.turns slice.until_yield task (begun self.old memory.old out.old.items)) self.new memory.new result out.new.items }
    {
        let Some(place) = place_in(&self.numbers, task) else {
            unreachable!();
        };
        let Some(live) = self.arena.get_mut(self.keys[place]) else {
            unreachable!();
        };
        let ran = live.run(slice, memory, out);
        if let TaskState::Done(_) = ran.state {
            let stack = self.kill(task);
            memory.unmap(stack);
        }
        ran
    }

    /// What of a live task may point into cells: its pc, x1 to x31, and the words of its stack
    /// from x2 on, the lowest first, or of the whole stack where x2 is outside it. After an error
    /// `into` is empty.
    pub fn words_of(
        &self,
        task: u32,
        memory: &Memory,
        into: &mut Vec<u64>,
    ) -> Result<(), AllocError>
        requires { is_some (live_in self.now task) ≡ true }
        ensures words { OnOk result (option_map (words_in_task memory.now.regions) (live_in self.now task) ≡ Some into.new.items) }
        ensures err { OnErr result (into.new.items ≡ []) }
    {
        into.clear();
        let Some(live) = self.get(task) else {
            unreachable!();
        };
        match put_words(live, memory, into) {
            Ok(()) => Ok(()),
            Err(fail) => {
                into.clear();
                Err(fail)
            }
        }
    }
}
