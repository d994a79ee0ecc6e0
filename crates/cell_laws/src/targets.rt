//! Which targets change: what attaching, detaching and removing cells does to them, and what each command may. `AreSound` holds of the sources of all files within the limit (`files_are_sound`).

ghost use Rattle.std.specs.Prelude.{ℕ, ◌≡◌, ◌<◌, IsTrue, List, Some, None, All, Ok, length, false};
ghost use Rattle.cell_num.specs.Lists.{holds};
ghost use Rattle.cell_object.specs.declared.object.Entry.{Entry};
ghost use Rattle.cell_world.specs.Answer.{Done};
ghost use Rattle.cell_world.specs.Coherent.{AreSound, IsCoherent};
ghost use Rattle.cell_world.specs.Gather.{Source};
ghost use Rattle.cell_world.specs.Names.{chain, provider_for, provider_of, strong_provider};
ghost use Rattle.cell_world.specs.Next.{outcome_of};
ghost use Rattle.cell_world.specs.Commands.NsCommand.{next_ns};
ghost use Rattle.cell_world.specs.Linked.Target.{target_of};
ghost use Rattle.cell_world.specs.Commands.UnloadCommand.{next_purge, next_unload, put_aside, detach};
ghost use Rattle.cell_world.specs.World.{Cell, Standing, World, is_attached};
ghost use Rattle.cell_world.specs.declared.state.Target.{Target};
ghost use Rattle.cell_world.specs.declared.command.CellName.{CellName};
ghost use Rattle.cell_world.specs.declared.command.Command.{Command};
ghost use Rattle.cell_lemmas.specs.Grown.{HasAttached};
ghost use Rattle.cell_lemmas.specs.Named.{IsNamed, IsNewGroup};
ghost use Rattle.cell_lemmas.specs.Left.{LeavesTargets};
ghost use Rattle.cell_lemmas.specs.Targets.{is_target_in};
ghost use Rattle.cell_lemmas.specs.Firm.{firm_target, weak_target};
ghost use Rattle.cell_object.specs.Parts.{has_no_weak};
ghost use Rattle.cell_laws.specs.Commands.{BringsNoCells};
ghost use Rattle.cell_laws.specs.KeepsTargets.{KeepsTargets};

/// A namespace that is added changes the chain of no other, and present cells keep the provider of each name.
pub fn namespaces_only_add()
    ensures chains { (w : World) (name : List ℕ) (parent : List ℕ) (d : Done) → IsCoherent w → next_ns w name parent ≡ Ok d → (ns : ℕ) → ns < length w.namespaces → chain d.world.namespaces ns ≡ chain w.namespaces ns }
    ensures providers { (w : World) (name : List ℕ) (parent : List ℕ) (d : Done) → IsCoherent w → next_ns w name parent ≡ Ok d → All (λ c. (symbol : List ℕ) → provider_of d.world c symbol ≡ provider_of w c symbol) w.cells }
{}

/// What a strong holder or the cell's own object gives an entry is what the entry names, and cells that are attached behind the others don't
/// change it, in whatever machine.
pub fn attaching_keeps_firm_targets()
    ensures firm { (w : World) (c : Cell) (e : Entry) (t : Target) → firm_target w c e ≡ Some t → target_of w c e ≡ Some t }
    ensures kept { (v : World) (w : World) (new : List Cell) → HasAttached v w new →
        (c : Cell) (e : Entry) (t : Target) → firm_target v c e ≡ Some t → firm_target w c e ≡ Some t }
{}

/// Attached cells that are put aside as a new group keep their own targets but for what a weak holder gave, and all other entries lose exactly
/// those that are in them: no other target changes, and none that is left is in them. The rule of names has to hold, with numbers of cells that
/// ascend and aliases of definitions of their own: a strong holder is told by the name then, and not by the order of cells.
pub fn detaching_loses_targets()
    ensures own { (w : World) (k : ℕ) (ns : List ℕ) → IsNamed w → IsNewGroup k w → All (λ c. IsTrue (holds ns c.id.0) → IsTrue (is_attached c.standing)) w.cells →
        All (λ c. IsTrue (holds ns c.id.0) → (e : Entry) → weak_target w c e ≡ None → target_of (detach k ns w) (put_aside k ns c) e ≡ target_of w c e) w.cells }
    ensures others { (w : World) (k : ℕ) (ns : List ℕ) → IsNamed w → IsNewGroup k w → All (λ c. IsTrue (holds ns c.id.0) → IsTrue (is_attached c.standing)) w.cells →
        All (λ c. holds ns c.id.0 ≡ false → (e : Entry) → is_target_in ns (target_of w c e) ≡ false → target_of (detach k ns w) c e ≡ target_of w c e) w.cells }
    ensures lost { (w : World) (k : ℕ) (ns : List ℕ) → IsNamed w → IsNewGroup k w → All (λ c. IsTrue (holds ns c.id.0) → IsTrue (is_attached c.standing)) w.cells →
        All (λ c. holds ns c.id.0 ≡ false → (e : Entry) → is_target_in ns (target_of (detach k ns w) c e) ≡ false) w.cells }
{}

/// Removing cells by `unload` and `purge` changes no target of a cell that stays.
pub fn removing_keeps_targets()
    ensures unload { (w : World) (names : List CellName) (d : Done) → IsCoherent w → next_unload w names ≡ Ok d → LeavesTargets w d.world }
    ensures purge { (w : World) (d : Done) → IsCoherent w → next_purge w ≡ Ok d → LeavesTargets w d.world }
{}

/// An accepted command that asks for no change of cells changes no target of a cell that stays.
pub fn other_commands_keep_targets()
    ensures { (sources : List Source) (w : World) (command : Command) (d : Done) → BringsNoCells command → AreSound sources → IsCoherent w → outcome_of sources w command ≡ Ok d → KeepsTargets w d.world }
{}

/// In a machine without a WEAK symbol the provider is the strong holder.
pub fn plain_providers_are_strong()
    ensures { (w : World) → All (λ c. IsTrue (has_no_weak c.object)) w.cells → (s : Standing) (ns : ℕ) (name : List ℕ) → provider_for w s ns name ≡ strong_provider w s ns name }
{}
