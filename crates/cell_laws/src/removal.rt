//! Which cells are kept and who holds them, which are left when others go, and that nothing leads into one that went. `AreSound` holds of the sources of all files within the limit (`files_are_sound`).

ghost use Rattle.std.specs.Prelude.{ℕ, ◌≡◌, ◌<◌, IsTrue, List, All, None, Ok, length, suc, ◌↔◌, false, is_some, filter, nat_lt, Bool};
ghost use Rattle.cell_num.specs.Lists.{each_pair, holds, In};
ghost use Rattle.cell_world.specs.Answer.{Done, numbers_of};
ghost use Rattle.cell_world.specs.Coherent.{AreSound, IsCoherent};
ghost use Rattle.cell_world.specs.Gather.{Source};
ghost use Rattle.cell_world.specs.Kept.{Holding, IsKept, holder_in, holding_of, kept_in};
ghost use Rattle.cell_world.specs.Commands.UnloadCommand.{first_held, garbage_of, named_cells, next_purge, next_unload, put_aside, without_cells};
ghost use Rattle.cell_world.specs.World.{Cell, World};
ghost use Rattle.cell_world.specs.declared.command.CellName.{CellName};
ghost use Rattle.cell_world.specs.declared.command.SwapItem.{SwapItem};
ghost use Rattle.cell_lemmas.specs.Left.{IsFree, IsUnreached, LeavesFields, with_aside};

/// The kept cells that are computed are those that a path keeps, in the order of all cells.
pub fn kept_is_by_paths()
    ensures paths { (h : Holding) (c : ℕ) → IsTrue (holds (kept_in h) c) ↔ IsKept h c }
    ensures order { (h : Holding) → kept_in h ≡ filter (holds (kept_in h)) h.cells }
    ensures rises { (h : Holding) → IsTrue (each_pair nat_lt h.cells) → IsTrue (each_pair nat_lt (kept_in h)) }
{}

/// A kept cell that isn't attached has a holder. So of cells that aren't attached a refusal comes exactly where one of them is kept.
pub fn kept_has_holder()
    ensures holder { (h : Holding) (c : ℕ) → holds h.attached c ≡ false → IsKept h c → IsTrue (is_some (holder_in h c)) }
    ensures first { (h : Holding) (cells : List ℕ) → All (λ c. holds h.attached c ≡ false) cells → (first_held h cells ≡ None) ↔ All (λ c. IsKept h c → ⊥) cells }
{}

/// An `unload` of cells that are there is accepted exactly where, with them put aside, none of them is kept.
pub fn unload_is_exact()
    ensures { (w : World) (names : List CellName) (cells : List Cell) → IsCoherent w → named_cells w names ≡ Ok cells →
        ((d : Done) × (next_unload w names ≡ Ok d)) ↔ All (λ n. IsKept (holding_of (with_aside w cells)) n → ⊥) (numbers_of cells) }
{}

/// An accepted `unload` leaves what there was without the cells that go: none that stays is put aside.
pub fn unload_is_removal()
    ensures { (w : World) (names : List CellName) (cells : List Cell) (d : Done) → IsCoherent w → named_cells w names ≡ Ok cells → next_unload w names ≡ Ok d →
        d.world ≡ without_cells w (garbage_of (with_aside w cells)) }
{}

/// The cells that go are exactly the detached ones that nobody keeps. For `unload` those that it names count as detached.
pub fn removed_are_free()
    ensures garbage { (w : World) → IsCoherent w → All (λ c. IsTrue (holds (garbage_of w) c.id.0) ↔ IsFree w c) w.cells }
    ensures purge { (w : World) (d : Done) → IsCoherent w → next_purge w ≡ Ok d →
        (c : Cell) → In c d.world.cells ↔ (In c w.cells × (IsFree w c → ⊥)) }
    ensures unload { (w : World) (names : List CellName) (cells : List Cell) (d : Done) → IsCoherent w → named_cells w names ≡ Ok cells → next_unload w names ≡ Ok d →
        (c : Cell) → In c d.world.cells ↔ (In c w.cells × (IsFree (with_aside w cells) (put_aside (suc w.swaps) (numbers_of cells) c) → ⊥)) }
{}

/// After an accepted `unload` or `purge` every cell that is present is kept.
pub fn all_left_are_kept()
    ensures purge { (w : World) (d : Done) → IsCoherent w → next_purge w ≡ Ok d → All (λ c. IsKept (holding_of d.world) c.id.0) d.world.cells }
    ensures unload { (w : World) (names : List CellName) (d : Done) → IsCoherent w → next_unload w names ≡ Ok d →
        All (λ c. IsKept (holding_of d.world) c.id.0) d.world.cells }
{}

/// After an accepted `unload` or `purge` nothing leads into a cell that went: no link, no aligned word of a writable section of a cell that is present, and no word of a live task.
pub fn nothing_leads_to_removed()
    ensures purge { (w : World) (d : Done) → IsCoherent w → next_purge w ≡ Ok d →
        All (λ c. holds (numbers_of d.world.cells) c.id.0 ≡ false → IsUnreached w d.world c) w.cells }
    ensures unload { (w : World) (names : List CellName) (d : Done) → IsCoherent w → next_unload w names ≡ Ok d →
        All (λ c. holds (numbers_of d.world.cells) c.id.0 ≡ false → IsUnreached w d.world c) w.cells }
{}

/// Removing cells changes no byte of a field of a cell that stays.
pub fn removing_keeps_fields()
    ensures unload { (w : World) (names : List CellName) (d : Done) → IsCoherent w → next_unload w names ≡ Ok d → LeavesFields w d.world }
    ensures purge { (w : World) (d : Done) → IsCoherent w → next_purge w ≡ Ok d → LeavesFields w d.world }
{}
