//! What a load, a swap, a recovery and a clone ask for is a sound change of cells.

ghost use Rattle.std.specs.Prelude.{ℕ, ◌≡◌, List, Bool, Ok};
ghost use Rattle.cell_world.specs.Commands.NsCommand.{with_namespace};
ghost use Rattle.cell_world.specs.Answer.{Done};
ghost use Rattle.cell_world.specs.Coherent.{AreSound, IsCoherent};
ghost use Rattle.cell_world.specs.Gather.{Source};
ghost use Rattle.cell_world.specs.World.{World};
ghost use Rattle.cell_world.specs.declared.command.SwapItem.{SwapItem};
ghost use Rattle.cell_world.specs.Commands.Asked.{next_clone, next_load, next_rebuild, next_recover, next_swap};
ghost use Rattle.cell_change_law.specs.Sound.{HasMade};

/// An accepted load, swap, recovery and rebuilding leave what a sound change makes, so what every change leaves they leave. An accepted clone leaves
/// what such a change makes of the machine that has the new namespace already, which is coherent.
pub fn askings_make_sound_changes()
    ensures load { (sources : List Source) (w : World) (ns : List ℕ) (stem : List ℕ) (d : Done) → AreSound sources → IsCoherent w → next_load sources w ns stem ≡ Ok d → HasMade sources w d }
    ensures swap { (sources : List Source) (w : World) (items : List SwapItem) (reexport strict : Bool) (words : List (List ℕ)) (budget : ℕ) (d : Done) → IsCoherent w →
        next_swap sources w items reexport strict words budget ≡ Ok d → HasMade sources w d }
    ensures recover { (sources : List Source) (w : World) (task : ℕ) (d : Done) → IsCoherent w → next_recover sources w task ≡ Ok d → HasMade sources w d }
    ensures clone { (sources : List Source) (w : World) (name sibling : List ℕ) (d : Done) → IsCoherent w → next_clone sources w name sibling ≡ Ok d →
        (parent : ℕ) × IsCoherent (with_namespace w sibling parent) × HasMade sources (with_namespace w sibling parent) d }
    ensures rebuild { (sources : List Source) (w : World) (task : ℕ) (d : Done) → IsCoherent w → next_rebuild sources w task ≡ Ok d → HasMade sources w d }
{}
