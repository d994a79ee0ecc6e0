//! That what is found by links is what the definitions of a change name, on any two machines.

ghost use Rattle.std.specs.Prelude.{ℕ, ◌≡◌, ◌==◌, nat_lt, IsTrue, filter};
ghost use Rattle.cell_num.specs.Lists.{In, each_pair};
ghost use Rattle.cell_world.specs.Changed.{changed_misfit, is_changed, now_in};
ghost use Rattle.cell_world.specs.Linked.Field.{fields_of};
ghost use Rattle.cell_world.specs.Linked.Fit.{misfit_in};
ghost use Rattle.cell_world.specs.Linked.Relink.{links_of};
ghost use Rattle.cell_world.specs.Linked.Target.{targets_of};
ghost use Rattle.cell_world.specs.World.{Cell, World};
ghost use Rattle.cell_lemmas.specs.LinkSteps.{cell_steps};
ghost use Rattle.cell_plan.specs.Staying.{IsTold, StaysBy, links_in};
ghost use Rattle.cell_plan.specs.Steps.{changed_fields, steps_of};

/// The links of a cell before, with what its entries name by now, give each entry's link before and by now. The
/// fields an entry of which has another link are those that change, where that tells what names something else.
/// The first entry that doesn't fit, at any field, is the first one at a field that changes.
pub fn links_tell_changes()
    ensures steps { (v : World) (w : World) (c : Cell) → (now_in w c).placed ≡ c.placed → steps_of c.placed (targets_of w (now_in w c)) (links_in v c) ≡ cell_steps v w c }
    ensures fields { (v : World) (w : World) (c : Cell) → (now_in w c).placed ≡ c.placed → IsTold v w c →
        changed_fields c.placed (targets_of w (now_in w c)) (links_in v c) ≡ filter (is_changed v w c) (fields_of c.object) }
    ensures misfit { (v : World) (w : World) (c : Cell) → StaysBy v w c → changed_misfit v w c ≡ misfit_in w (now_in w c) }
{}

/// The links of a cell among all are those of its entries.
pub fn links_are_own()
    ensures { (v : World) (c : Cell) → IsTrue (each_pair (λ a b. nat_lt a.id.0 b.id.0) v.cells) → v.links ≡ links_of v → In c v.cells →
        filter (λ l. l.user.cell.0 == c.id.0) v.links ≡ links_in v c }
{}
