//! How the fields that change are found: an entry differs exactly where it leads into another cell, and cells of which none does needn't be looked
//! at, as are those that await no name which comes and have no link into a cell that is replaced or yields.

ghost use Rattle.std.specs.Prelude.{◌≡◌, Bool, false, not, ◌&&◌, IsTrue, List, [], All, Ok, filter, flat_map};
ghost use Rattle.cell_num.specs.Lists.{holds};
ghost use Rattle.cell_world.specs.Change.{Change, Plan, new_since, old_of, plan_of};
ghost use Rattle.cell_world.specs.Changed.{changed_fields, changed_in, differs, first_changed_misfit};
ghost use Rattle.cell_world.specs.Coherent.{AreSound, IsCoherent};
ghost use Rattle.cell_world.specs.Linked.Fit.{first_misfit};
ghost use Rattle.cell_world.specs.Gather.{Source};
ghost use Rattle.cell_world.specs.Linked.Linking.{link_refusal};
ghost use Rattle.cell_world.specs.Linked.Target.{target_of};
ghost use Rattle.cell_world.specs.World.{Cell, World};
ghost use Rattle.cell_lemmas.specs.Targets.{is_target_in};
ghost use Rattle.cell_object.specs.Parts.{has_no_weak};
ghost use Rattle.cell_lemmas.specs.Touched.{awaits, is_affected, swap_comers, touched};
ghost use Rattle.cell_lemmas.specs.Leads.{leads_elsewhere};
ghost use Rattle.cell_change_law.specs.Sound.{HasCome, IsSound};

/// The target of an entry differs exactly where it is in another cell. So the link that the entry had, if it had one, and the cell that it names by now tell it.
pub fn differing_leads_elsewhere()
    ensures { (sources : List Source) (v : World) (c : Change) (plan : Plan) → AreSound sources → IsCoherent v → IsSound sources v c → plan_of sources v c ≡ Ok plan →
        All (λ d. All (λ e. differs v plan.linked d e ≡ leads_elsewhere v plan.linked d e) d.object.entries) v.cells }
{}

/// Cells of which no entry differs add no field that changes and none that doesn't fit, so those that some test picks are enough, where no other has such an entry.
pub fn picked_cells_are_enough()
    ensures fields { (v : World) (w : World) (p : Cell → Bool) → All (λ c. p c ≡ false → All (λ e. differs v w c e ≡ false) c.object.entries) v.cells →
        changed_fields v w ≡ flat_map (changed_in v w) (filter p v.cells) }
    ensures misfit { (v : World) (w : World) (p : Cell → Bool) → All (λ c. p c ≡ false → All (λ e. differs v w c e ≡ false) c.object.entries) v.cells →
        first_changed_misfit v w v.cells ≡ first_changed_misfit v w (filter p v.cells) }
{}

/// What a cell with no WEAK symbol of a name that comes names in cells that stay, and that hold no name weakly which a cell that comes holds, it goes on naming.
/// The replaced cells leave, and count among those that come as well, since by then they ask each other first.
pub fn untouched_cells_stay_in_change()
    ensures { (sources : List Source) (v : World) (c : Change) (w : World) → AreSound sources → IsCoherent v → IsSound sources v c → HasCome sources v c w →
        All (λ d. awaits (swap_comers v (old_of c) (new_since v w)) d ≡ false → All (λ e. is_target_in (touched v (old_of c) (swap_comers v (old_of c) (new_since v w))) (target_of v d e) ≡ false → differs v w d e ≡ false) d.object.entries) v.cells }
{}

/// So the cells that await a name which comes and those with a link into a cell that is replaced or yields are such cells, once the new ones have their places.
pub fn affected_cells_of_change_are_enough()
    ensures fields { (sources : List Source) (v : World) (c : Change) (w : World) → AreSound sources → IsCoherent v → IsSound sources v c → HasCome sources v c w →
        changed_fields v w ≡ flat_map (changed_in v w) (filter (is_affected v (old_of c) (swap_comers v (old_of c) (new_since v w))) v.cells) }
    ensures misfit { (sources : List Source) (v : World) (c : Change) (w : World) → AreSound sources → IsCoherent v → IsSound sources v c → HasCome sources v c w →
        first_changed_misfit v w v.cells ≡ first_changed_misfit v w (filter (is_affected v (old_of c) (swap_comers v (old_of c) (new_since v w))) v.cells) }
{}

/// In a machine without a WEAK symbol a change changes exactly what names a replaced cell, but for the replaced cells' own entries. So where none
/// is replaced nothing changes, whatever comes, and what stands in the way of linking is a misfit of a new cell.
pub fn plain_machines_lose_replaced_targets()
    ensures lost { (sources : List Source) (v : World) (c : Change) (w : World) → AreSound sources → IsCoherent v → IsSound sources v c → HasCome sources v c w → All (λ d. IsTrue (has_no_weak d.object)) v.cells →
        All (λ d. All (λ e. differs v w d e ≡ (not (holds (old_of c) d.id.0) && is_target_in (old_of c) (target_of v d e))) d.object.entries) v.cells }
    ensures fields { (sources : List Source) (v : World) (c : Change) (w : World) → AreSound sources → IsCoherent v → IsSound sources v c → HasCome sources v c w → All (λ d. IsTrue (has_no_weak d.object)) v.cells →
        old_of c ≡ [] → changed_fields v w ≡ [] }
    ensures refusal { (sources : List Source) (v : World) (c : Change) (w : World) → AreSound sources → IsCoherent v → IsSound sources v c → HasCome sources v c w → All (λ d. IsTrue (has_no_weak d.object)) v.cells →
        old_of c ≡ [] → link_refusal v w ≡ first_misfit w (new_since v w) }
{}
