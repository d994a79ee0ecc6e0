//! Changes that replace no cell.

ghost use Rattle.std.specs.Prelude.{◌≡◌, List, [], None, Ok};
ghost use Rattle.cell_world.specs.Coherent.{AreSound, IsCoherent};
ghost use Rattle.cell_world.specs.Gather.{Source};
ghost use Rattle.cell_world.specs.World.{World};
ghost use Rattle.cell_lemmas.specs.Firm.{ChangesSoft};
ghost use Rattle.cell_lemmas.specs.Grown.{HasAttached};
ghost use Rattle.cell_world.specs.Change.{Change, Plan, first_uncovered, gather, new_since, old_of, plan_of};
ghost use Rattle.cell_change_law.specs.Sound.{HasCome, IsSound};

/// Where no cell is replaced, the new ones stand attached behind the others, nobody loses a need, and only such targets change as no strong holder and not the cell's own object gave.
pub fn adding_loses_nothing()
    ensures covered { (sources : List Source) (v : World) (c : Change) (g : World) → AreSound sources → IsCoherent v → IsSound sources v c → old_of c ≡ [] → gather sources v c ≡ Ok g → first_uncovered v c g ≡ None }
    ensures attached { (sources : List Source) (v : World) (c : Change) (w : World) → AreSound sources → IsCoherent v → IsSound sources v c → old_of c ≡ [] → HasCome sources v c w → HasAttached v w (new_since v w) }
    ensures soft { (sources : List Source) (v : World) (c : Change) (plan : Plan) → AreSound sources → IsCoherent v → IsSound sources v c → old_of c ≡ [] → plan_of sources v c ≡ Ok plan → ChangesSoft v plan.linked }
{}
