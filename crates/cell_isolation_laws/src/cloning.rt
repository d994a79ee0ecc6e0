//! Namespaces that are cloned.

ghost use Rattle.std.specs.Prelude.{ℕ, ◌≡◌, ◌⊎◌, List, All, None, Ok, Err, length};
ghost use Rattle.cell_num.specs.Limits.{max_cell_number, max_cells};
ghost use Rattle.cell_num.specs.Lists.{In};
ghost use Rattle.cell_world.specs.Answer.{Done};
ghost use Rattle.cell_world.specs.Change.{first_uncovered, gather};
ghost use Rattle.cell_world.specs.Commands.Asked.{cells_in, next_clone};
ghost use Rattle.cell_world.specs.Commands.NsCommand.{with_namespace};
ghost use Rattle.cell_world.specs.Coherent.{AreSound, IsCoherent};
ghost use Rattle.cell_world.specs.Gather.{Source};
ghost use Rattle.cell_world.specs.Linked.Relink.{field_count};
ghost use Rattle.cell_world.specs.Linked.Target.{target_of};
ghost use Rattle.cell_world.specs.World.{Cell, World};
ghost use Rattle.cell_world.specs.declared.refusal.Refusal.{Refusal};
ghost use Rattle.cell_world.specs.declared.refusal.Refusal.TheVariants.{TooMany};
ghost use Rattle.cell_world.specs.declared.refusal.Many.TheVariants.{Cells, CellNumbers};
ghost use Rattle.cell_change_law.specs.Cloned.{HasCloned, MayClone, clone_of};
ghost use Rattle.cell_change_law.specs.Sound.{HasCopied};
ghost use Rattle.cell_isolation_laws.specs.Copies.{IsCopy};

/// An accepted `clone` has passed these steps, of which a change of the machine with one namespace more is the last.
pub fn clones_are_changes()
    ensures { (sources : List Source) (w : World) (name sibling : List ℕ) (d : Done) → next_clone sources w name sibling ≡ Ok d → HasCloned sources w name sibling d }
{}

/// Its new cells are copies of the cells that are attached in the namespace, as many as these: each with the stem, the file, the object and the aliases of
/// its original, in the new namespace.
pub fn clones_are_copies()
    ensures copies { (sources : List Source) (w : World) (name sibling : List ℕ) (d : Done) → AreSound sources → IsCoherent w → (k : HasCloned sources w name sibling d) →
        All (λ c. (o : Cell) × In o (cells_in w k.ns) × IsCopy (length w.namespaces) o c) k.made.fresh }
    ensures many { (sources : List Source) (w : World) (name sibling : List ℕ) (d : Done) → AreSound sources → IsCoherent w → (k : HasCloned sources w name sibling d) →
        length k.made.fresh ≡ length (cells_in w k.ns) }
{}

/// Wherever a sibling may be added, the copies are refused for want of room for cells alone. With them the rule of names holds, each need has a provider, before
/// they have places, and no other cell has lost one. So no name is taken, and none is missing: neither E8 nor E9 comes.
pub fn copies_find_all()
    ensures room { (sources : List Source) (w : World) (sibling : List ℕ) → IsCoherent w → (k : MayClone w sibling) → (r : Refusal) →
        gather sources (with_namespace w sibling k.parent) (clone_of w k.ns) ≡ Err r → (r ≡ TooMany Cells max_cells) ⊎ (r ≡ TooMany CellNumbers max_cell_number) }
    ensures named { (sources : List Source) (w : World) (sibling : List ℕ) → IsCoherent w → (k : MayClone w sibling) → (g : World) →
        gather sources (with_namespace w sibling k.parent) (clone_of w k.ns) ≡ Ok g → HasCopied (with_namespace w sibling k.parent) (clone_of w k.ns) g }
    ensures covered { (sources : List Source) (w : World) (sibling : List ℕ) → AreSound sources → IsCoherent w → (k : MayClone w sibling) → (g : World) →
        gather sources (with_namespace w sibling k.parent) (clone_of w k.ns) ≡ Ok g → first_uncovered (with_namespace w sibling k.parent) (clone_of w k.ns) g ≡ None }
{}

/// Each cell that was there is as it was after a `clone`, and each of its entries names what it named.
pub fn cloning_keeps_targets()
    ensures { (sources : List Source) (w : World) (name sibling : List ℕ) (d : Done) → AreSound sources → IsCoherent w → next_clone sources w name sibling ≡ Ok d →
        All (λ c. In c d.world.cells × All (λ e. target_of d.world c e ≡ target_of w c e) c.object.entries) w.cells }
{}

/// So the fields that it counts are those of its new cells.
pub fn clones_count_their_fields()
    ensures { (sources : List Source) (w : World) (name sibling : List ℕ) (d : Done) → AreSound sources → IsCoherent w → (k : HasCloned sources w name sibling d) →
        k.made.patched ≡ field_count k.made.fresh }
{}
