//! The machine begins coherent, and each step, each command and each turn of a task keeps it so. `AreSound` holds of the sources of all files within the limit (`files_are_sound`).

ghost use Rattle.std.specs.Prelude.{ℕ, ◌≡◌, ◌≤◌, List, All, Some, Ok, Err, length, map, Bool};
ghost use Rattle.cell_world.specs.Answer.{Done};
ghost use Rattle.cell_world.specs.Commands.Asked.{next_clone, next_load, next_rebuild, next_recover, next_swap};
ghost use Rattle.cell_world.specs.Coherent.{AreSound, IsCoherent};
ghost use Rattle.cell_world.specs.Gather.{Source, source_of};
ghost use Rattle.cell_num.specs.Limits.{max_file_bytes};
ghost use Rattle.cell_world.specs.Next.{next};
ghost use Rattle.cell_world.specs.Commands.NsCommand.{next_ns};
ghost use Rattle.cell_world.specs.Placed.Pages.{IsSpace};
ghost use Rattle.cell_world.specs.Commands.SpawnCommand.{next_spawn};
ghost use Rattle.cell_world.specs.Commands.TaskCommands.{next_step, next_run, next_kill};
ghost use Rattle.cell_world.specs.Running.Turn.{turn};
ghost use Rattle.cell_world.specs.Commands.UnloadCommand.{next_purge, next_unload};
ghost use Rattle.cell_world.specs.World.{World, empty_world, Task, task_of};
ghost use Rattle.cell_world.specs.declared.command.CellName.{CellName};
ghost use Rattle.cell_world.specs.declared.command.Command.{Command};
ghost use Rattle.cell_world.specs.declared.command.SwapItem.{SwapItem};
ghost use Rattle.cell_world.specs.declared.file.File.{File};
ghost use Rattle.cell_world.specs.declared.refusal.Refusal.{Refusal};

/// The machine is coherent before the first command.
pub fn empty_is_coherent()
    ensures { (base : ℕ) (pages : ℕ) → IsSpace base pages → IsCoherent (empty_world base pages) }
{}

/// Each command keeps the machine coherent, be it accepted or refused, whatever files within the limit hold.
pub fn next_keeps_coherent()
    ensures files { (files : List File) (w : World) (command : Command) → All (λ f. length f.bytes ≤ max_file_bytes) files → IsCoherent w → IsCoherent (next (map source_of files) w command).world }
    ensures sources { (sources : List Source) (w : World) (command : Command) → AreSound sources → IsCoherent w → IsCoherent (next sources w command).world }
{}

/// A command that is refused leaves the machine as it was, a swap whose routines have run no less than any other.
pub fn refused_changes_nothing()
    ensures { (sources : List Source) (w : World) (command : Command) (refusal : Refusal) → (next sources w command).answer ≡ Err refusal → (next sources w command).world ≡ w }
{}

/// Each accepted command that changes something keeps the machine coherent. Only those that ask for a change of cells need more: that the
/// objects in the files are sound, which all that are read are (`files_are_sound`).
pub fn commands_keep_coherent()
    ensures ns { (w : World) (name : List ℕ) (parent : List ℕ) (d : Done) → IsCoherent w → next_ns w name parent ≡ Ok d → IsCoherent d.world }
    ensures load { (sources : List Source) (w : World) (ns : List ℕ) (stem : List ℕ) (d : Done) → AreSound sources → IsCoherent w → next_load sources w ns stem ≡ Ok d → IsCoherent d.world }
    ensures spawn { (w : World) (ns : List ℕ) (symbol : List ℕ) (arg : ℕ) (d : Done) → IsCoherent w → next_spawn w ns symbol arg ≡ Ok d → IsCoherent d.world }
    ensures step { (w : World) (task : ℕ) (n : ℕ) (d : Done) → IsCoherent w → next_step w task n ≡ Ok d → IsCoherent d.world }
    ensures run { (w : World) (n : ℕ) (d : Done) → IsCoherent w → next_run w n ≡ Ok d → IsCoherent d.world }
    ensures kill { (w : World) (task : ℕ) (d : Done) → IsCoherent w → next_kill w task ≡ Ok d → IsCoherent d.world }
    ensures unload { (w : World) (names : List CellName) (d : Done) → IsCoherent w → next_unload w names ≡ Ok d → IsCoherent d.world }
    ensures purge { (w : World) (d : Done) → IsCoherent w → next_purge w ≡ Ok d → IsCoherent d.world }
    ensures swap { (sources : List Source) (w : World) (items : List SwapItem) (reexport strict : Bool) (words : List (List ℕ)) (budget : ℕ) (d : Done) → AreSound sources → IsCoherent w →
        next_swap sources w items reexport strict words budget ≡ Ok d → IsCoherent d.world }
    ensures recover { (sources : List Source) (w : World) (task : ℕ) (d : Done) → AreSound sources → IsCoherent w → next_recover sources w task ≡ Ok d → IsCoherent d.world }
    ensures rebuild { (sources : List Source) (w : World) (task : ℕ) (d : Done) → AreSound sources → IsCoherent w → next_rebuild sources w task ≡ Ok d → IsCoherent d.world }
    ensures clone { (sources : List Source) (w : World) (name sibling : List ℕ) (d : Done) → AreSound sources → IsCoherent w → next_clone sources w name sibling ≡ Ok d → IsCoherent d.world }
{}

/// A turn of a live task keeps the machine coherent.
pub fn turn_keeps_coherent()
    ensures { (w : World) (t : Task) → IsCoherent w → task_of w t.number ≡ Some t → IsCoherent (turn w t).world }
{}
