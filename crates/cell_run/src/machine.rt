//! The machine that a run is done on.

ghost use Rattle.std.specs.Prelude.{◌≡◌, ℕ, Bool, true, List, Result, Some, IsSomeAnd, OnOk};
ghost use Rattle.std.specs.declared.option.Option.{Option};
ghost use Rattle.cell_script.specs.Script.{is_said};
ghost use Rattle.cell_system.specs.State.{State};
ghost use Rattle.cell_world.specs.declared.command.Command.{Command};
ghost use Rattle.cell_world.specs.declared.file.File.{File};
ghost use Rattle.cell_world.specs.Placed.Pages.{IsSpace};
ghost use Rattle.cell_run.specs.Machine.{Answer, HasAnswered, IsNext, MayStart, first_state};

use cell_system::{Command, Fail, File, Reply};
use std::alloc::{AllocError, Global};

/// What crates are loaded into, swapped in and unloaded from, and tasks run on. It is started once for a
/// run, with a memory and object files, and then does the run's commands.
pub trait Machine {
    /// Whether it tells its files, its world and its counts.
    ghost tells: { Bool };
    /// What it tells, once it is started.
    ghost told: { Self → Option State };
    /// Whether it is started.
    ghost is_started: { Self → Bool };
    /// From a value it was started with that base, that many pages and these files, and has the other value then.
    ghost begun: { Self → ℕ → ℕ → List File → Self → Type 0 };
    /// In a value it gave that answer to that command, and has the other value then.
    ghost acts: { Self → Command → Answer → Self → Type 0 };

    /// Starts it with a memory of so many pages of 4096 bytes from the base on.
    fn start(
        &mut self,
        alloc: Global,
        base: u64,
        pages: u32,
        files: Vec<File>,
    ) -> Result<(), AllocError>
        requires space { IsSpace base pages }
        requires files { MayStart files.items }
        ensures begun { OnOk result (begun self.old base pages files.items self.new) }
        ensures started { OnOk result (is_started self.new ≡ true) };

    /// Does a command that a line of a script can say.
    fn act(&mut self, command: &Command) -> Result<Reply, Fail>
        requires started { is_started self.old ≡ true }
        requires said { is_said command.now ≡ true }
        ensures { HasAnswered (λ answer new. acts self.old command.now answer new × (is_started new ≡ true)) result self.new };

    /// A machine that tells begins without a cell.
    ghost begins_empty: { tells ≡ true → (old new : Self) → (base pages : ℕ) → (files : List File) → begun old base pages files new → told new ≡ Some (first_state base pages files) };

    /// A machine that tells answers as the plain machine does, and goes on as that does.
    ghost acts_plainly: { tells ≡ true → (old new : Self) → (command : Command) → (answer : Answer) → (s : State) → told old ≡ Some s → acts old command answer new → IsSomeAnd (told new) (IsNext s command answer) };
}
