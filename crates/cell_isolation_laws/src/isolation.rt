//! What commands in one namespace leave of the others, and of their tasks.

ghost use Rattle.std.specs.Prelude.{ℕ, ◌≡◌, ◌<◌, Bool, List, [], All, None, Some, Ok, IsTrue, false, length};
ghost use Rattle.cell_num.specs.Lists.{In, holds};
ghost use Rattle.cell_world.specs.Answer.{Done};
ghost use Rattle.cell_world.specs.Change.{Change, Made, Want, make_change, replaced};
ghost use Rattle.cell_world.specs.Commands.Asked.{next_clone, next_load, next_swap, wants_of};
ghost use Rattle.cell_world.specs.Coherent.{AreSound, IsCoherent};
ghost use Rattle.cell_world.specs.Gather.{Source, fresh_cells};
ghost use Rattle.cell_world.specs.Names.{chain};
ghost use Rattle.cell_world.specs.Running.Execute.{seen_in};
ghost use Rattle.cell_world.specs.Running.Turn.{hart_of, turn, turns_of};
ghost use Rattle.cell_world.specs.World.{Task, World, task_of};
ghost use Rattle.cell_world.specs.declared.command.SwapItem.{SwapItem};
ghost use Rattle.cell_world.specs.declared.reply.TaskState.TheVariants.{Ready};
ghost use Rattle.cell_change_law.specs.Sound.{IsSound};
ghost use Rattle.cell_isolation_laws.specs.Footprint.{footprint, task_starts};
ghost use Rattle.cell_isolation_laws.specs.Touches.{KeepsTo, LooksSame, RunsSame, keeps_to};

/// A change without routines and without a task that begins again leaves the footprint of each namespace in whose chain none of its replaced and new cells
/// stands. So do an accepted load, an accepted swap without routines, and an accepted `clone`, whose new cells stand in no chain that was there.
pub fn footprints_stay()
    ensures change { (sources : List Source) (w : World) (c : Change) (made : Made) (ns : ℕ) → AreSound sources → IsCoherent w → IsSound sources w c → ns < length w.namespaces → c.routines ≡ [] → c.restarts ≡ None →
        make_change sources w c ≡ Ok made → All (λ d. holds (chain w.namespaces ns) d.ns ≡ false) (replaced c) → All (λ d. holds (chain w.namespaces ns) d.ns ≡ false) made.fresh → footprint made.world ns ≡ footprint w ns }
    ensures load { (sources : List Source) (w : World) (name stem : List ℕ) (d : Done) (ns : ℕ) → AreSound sources → IsCoherent w → ns < length w.namespaces → next_load sources w name stem ≡ Ok d →
        All (λ c. holds (chain w.namespaces ns) c.ns ≡ false) (fresh_cells w.next_cell d.world) → footprint d.world ns ≡ footprint w ns }
    ensures clone { (sources : List Source) (w : World) (name sibling : List ℕ) (d : Done) (ns : ℕ) → AreSound sources → IsCoherent w → ns < length w.namespaces → next_clone sources w name sibling ≡ Ok d →
        footprint d.world ns ≡ footprint w ns }
    ensures swap { (sources : List Source) (w : World) (items : List SwapItem) (reexport strict : Bool) (budget : ℕ) (wants : List Want) (made : Made) (d : Done) (ns : ℕ) → AreSound sources → IsCoherent w → ns < length w.namespaces →
        wants_of sources w items ≡ Ok wants →
        make_change sources w (record { wants = wants; reexport = reexport; strict = strict; routines = []; budget = budget; restarts = None; copies = [] }) ≡ Ok made →
        next_swap sources w items reexport strict [] budget ≡ Ok d →
        All (λ c. holds (chain w.namespaces ns) c.ns ≡ false) (replaced (record { wants = wants; reexport = reexport; strict = strict; routines = []; budget = budget; restarts = None; copies = [] })) →
        All (λ c. holds (chain w.namespaces ns) c.ns ≡ false) made.fresh → footprint d.world ns ≡ footprint w ns }
{}

/// Two machines with the same footprint of a namespace are the same to a live task: the task, the regions of the footprint's cells
/// and its own stack, and which of their bytes are sealed.
pub fn footprints_look_same()
    ensures { (w u : World) (ns : ℕ) (t : Task) → IsCoherent w → IsCoherent u → footprint u ns ≡ footprint w ns → In t w.tasks → LooksSame (task_starts w ns t) t.number w u }
{}

/// A turn that fetches, loads and stores in regions alone which two machines have in common does the same in both: how it stands
/// then, its pc and registers, and what it puts out. Where it goes on, the two are the same to it still.
pub fn turns_do_the_same()
    ensures state { (starts : List ℕ) (v w : World) (t : Task) (number : ℕ) → IsCoherent v → IsCoherent w → LooksSame starts number v w → task_of v number ≡ Some t → IsTrue (keeps_to starts (seen_in v) (hart_of t)) → (turn v t).state ≡ (turn w t).state }
    ensures out { (starts : List ℕ) (v w : World) (t : Task) (number : ℕ) → IsCoherent v → IsCoherent w → LooksSame starts number v w → task_of v number ≡ Some t → IsTrue (keeps_to starts (seen_in v) (hart_of t)) → (turn v t).out ≡ (turn w t).out }
    ensures task { (starts : List ℕ) (v w : World) (t : Task) (number : ℕ) → IsCoherent v → IsCoherent w → LooksSame starts number v w → task_of v number ≡ Some t → IsTrue (keeps_to starts (seen_in v) (hart_of t)) →
        task_of (turn v t).world number ≡ task_of (turn w t).world number }
    ensures on { (starts : List ℕ) (v w : World) (t : Task) (number : ℕ) → IsCoherent v → IsCoherent w → LooksSame starts number v w → task_of v number ≡ Some t → IsTrue (keeps_to starts (seen_in v) (hart_of t)) → (turn v t).state ≡ Ready →
        LooksSame starts number (turn v t).world (turn w t).world }
{}

/// And so do any number of turns that keep to them.
pub fn many_turns_do_the_same()
    ensures { (starts : List ℕ) (n number : ℕ) (v w : World) → IsCoherent v → IsCoherent w → LooksSame starts number v w → KeepsTo n starts v number → RunsSame number (turns_of n v number) (turns_of n w number) }
{}

/// A task whose next turns fetch, load and store only in the regions of a footprint's cells and in its own stack has after them the
/// same registers, state and output in each machine with the same footprint.
pub fn footprints_isolate()
    ensures { (w u : World) (ns n : ℕ) (t : Task) → IsCoherent w → IsCoherent u → footprint u ns ≡ footprint w ns → In t w.tasks → KeepsTo n (task_starts w ns t) w t.number → RunsSame t.number (turns_of n w t.number) (turns_of n u t.number) }
{}
