//! What a turn of a task, and each command on tasks, may touch.

ghost use Rattle.std.specs.Prelude.{ℕ, ◌≡◌, Some, Ok};
ghost use Rattle.cell_world.specs.Answer.{Done};
ghost use Rattle.cell_world.specs.Coherent.{IsCoherent};
ghost use Rattle.cell_world.specs.Running.Execute.{Seen, seen_in};
ghost use Rattle.cell_world.specs.Running.Move.{Hart, Column, move};
ghost use Rattle.cell_world.specs.Commands.TaskCommands.{next_step, next_run, next_kill};
ghost use Rattle.cell_world.specs.Running.Turn.{turn};
ghost use Rattle.cell_world.specs.World.{World, Task, task_of};
ghost use Rattle.cell_lemmas.specs.Kept.{IsMemory, KeepsCells, KeepsFields, KeepsReadOnly, KeepsSealed, KeepsShapes, other_tasks, regions_left};

/// A turn of a hart, whatever its calls do, changes no region's start, length or permission, adds none and takes none away, and changes no byte that is sealed or stands in a region that isn't writable. So what was asked of the memory holds for the next turn, and at first it is that of a coherent machine.
pub fn move_keeps_memory()
    ensures shapes { (column : Column) (m : Seen) (h : Hart) → IsMemory m → KeepsShapes m.regions (move column m h).regions }
    ensures read_only { (column : Column) (m : Seen) (h : Hart) → IsMemory m → KeepsReadOnly m.regions (move column m h).regions }
    ensures sealed { (column : Column) (m : Seen) (h : Hart) → IsMemory m → KeepsSealed m (move column m h).regions }
    ensures next { (column : Column) (m : Seen) (h : Hart) → IsMemory m → IsMemory (record m { regions = (move column m h).regions }) }
    ensures first { (w : World) → IsCoherent w → IsMemory (seen_in w) }
{}

/// A turn of a live task changes no cell, no link, no namespace and no number to come; no region's start, length or permission, and it adds none and takes none away but the stack of a task that ends; no byte of a region that isn't writable or of a field; and no other task.
pub fn turn_changes_no_cell()
    ensures cells { (w : World) (t : Task) → IsCoherent w → task_of w t.number ≡ Some t → KeepsCells w (turn w t).world }
    ensures shapes { (w : World) (t : Task) → IsCoherent w → KeepsShapes (regions_left w.regions t.stack (turn w t).state) (turn w t).world.regions }
    ensures read_only { (w : World) (t : Task) → IsCoherent w → task_of w t.number ≡ Some t → KeepsReadOnly w.regions (turn w t).world.regions }
    ensures fields { (w : World) (t : Task) → IsCoherent w → task_of w t.number ≡ Some t → KeepsFields w (turn w t).world }
    ensures tasks { (w : World) (t : Task) → other_tasks t.number (turn w t).world.tasks ≡ other_tasks t.number w.tasks }
{}

/// An accepted `step`, `run` or `kill` changes no cell, no link, no namespace and no number to come.
pub fn tasks_change_no_cell()
    ensures step { (w : World) (task : ℕ) (n : ℕ) (d : Done) → next_step w task n ≡ Ok d → KeepsCells w d.world }
    ensures run { (w : World) (n : ℕ) (d : Done) → next_run w n ≡ Ok d → KeepsCells w d.world }
    ensures kill { (w : World) (task : ℕ) (d : Done) → next_kill w task ≡ Ok d → KeepsCells w d.world }
{}
