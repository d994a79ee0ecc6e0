//! What every change of a coherent machine leaves, whatever it asks for.

ghost use Rattle.std.specs.List.{list_all};
ghost use Rattle.std.specs.Prelude.{ℕ, ◌≡◌, ◌<◌, ◌↔◌, length, false, true, [], IsTrue, List, ◌++◌, All, Option, suc, map, filter, None, Some, Ok, Err, is_none};
ghost use Rattle.cell_num.specs.declared.ids.CellId.{CellId};
ghost use Rattle.cell_num.specs.Lists.{holds, In};
ghost use Rattle.cell_world.specs.Answer.{numbers_of};
ghost use Rattle.cell_world.specs.Changed.{changed_fields, differs, first_changed_misfit, now_in};
ghost use Rattle.cell_world.specs.Coherent.{AreSound, IsCoherent, IsReady};
ghost use Rattle.cell_world.specs.Running.Execute.{seen_in};
ghost use Rattle.cell_world.specs.Linked.Fit.{first_misfit};
ghost use Rattle.cell_world.specs.Gather.{Need, Source, missing};
ghost use Rattle.cell_world.specs.Kept.{IsKept, holding_of};
ghost use Rattle.cell_world.specs.Linked.Linking.{link_refusal};
ghost use Rattle.cell_world.specs.Names.{needs_of, provider_of};
ghost use Rattle.cell_world.specs.Placed.Place.{start_of_run};
ghost use Rattle.cell_world.specs.Linked.Relink.{relink};
ghost use Rattle.cell_world.specs.Commands.SwapTransfer.{Begin, begins_of, routines_in, stack_for};
ghost use Rattle.cell_world.specs.Linked.Target.{target_of};
ghost use Rattle.cell_world.specs.Torn.{first_torn};
ghost use Rattle.cell_world.specs.Running.Transfer.{after_turns};
ghost use Rattle.cell_world.specs.Commands.UnloadCommand.{garbage_of, purged, put_aside};
ghost use Rattle.cell_world.specs.Running.Restart.{restart_by};
ghost use Rattle.cell_world.specs.World.{Cell, Task, World, is_attached, is_ready};
ghost use Rattle.cell_world.specs.declared.refusal.Refusal.{Refusal};
ghost use Rattle.cell_world.specs.declared.refusal.Refusal.TheVariants.{Torn};
ghost use Rattle.cell_world.specs.declared.state.Target.{Target};
ghost use Rattle.cell_lemmas.specs.Begins.{BeginsIn};
ghost use Rattle.cell_lemmas.specs.Grown.{IsRegrown, links_from, with_changes};
ghost use Rattle.cell_lemmas.specs.Kept.{KeepsFields, KeepsReadOnly, KeepsSealed, KeepsShapes};
ghost use Rattle.cell_lemmas.specs.Left.{IsFree, IsUnreached, LeavesFields, LeavesTargets};
ghost use Rattle.cell_lemmas.specs.Linkable.{IsLinkable};
ghost use Rattle.cell_lemmas.specs.Lost.{IsLost};
ghost use Rattle.cell_lemmas.specs.Firm.{firm_target};
ghost use Rattle.cell_lemmas.specs.Targets.{FollowsTargets, is_target_in};
ghost use Rattle.cell_world.specs.Change.{Change, Made, Plan, addresses_of, first_uncovered, gather, made_by, make_change, new_since, old_of, plan_of, restart_refusal, restarted_task, restarting, set_aside, with_routines, with_sequel};
ghost use Rattle.cell_change_law.specs.Again.{BeginsAgain};
ghost use Rattle.cell_change_law.specs.Answered.{HasAnswered, IsOfPlaced};
ghost use Rattle.cell_change_law.specs.Sound.{HasCome, IsSound};

/// A need of another cell that has lost its provider refuses the change, and so does a task that has no place to begin again. Once the new cells have
/// their places, and the routines a stack, what stands in the way of linking decides; and a plan, an entry that doesn't fit and a task that stands
/// inside what changes are answered then alone. Such a task is the first one inside a field that changes.
pub fn refusals_decide()
    ensures uncovered { (sources : List Source) (v : World) (c : Change) (g : World) (need : Need) → gather sources v c ≡ Ok g → first_uncovered v c g ≡ Some need → plan_of sources v c ≡ Err (missing need) }
    ensures restart { (sources : List Source) (v : World) (c : Change) (g : World) (begins : List Begin) (refusal : Refusal) → gather sources v c ≡ Ok g → first_uncovered v c g ≡ None →
        begins_of (new_since v g) c.routines ≡ Ok begins → restart_refusal v c g ≡ Some refusal → plan_of sources v c ≡ Err refusal }
    ensures refused { (sources : List Source) (v : World) (c : Change) (w : World) (p : HasCome sources v c w) (begins : List Begin) (stack : Option ℕ) (refusal : Refusal) →
        begins_of (new_since v p.gathered) c.routines ≡ Ok begins → restart_refusal v c p.gathered ≡ None → stack_for w c.routines ≡ Ok stack → link_refusal v w ≡ Some refusal → plan_of sources v c ≡ Err refusal }
    ensures planned { (sources : List Source) (v : World) (c : Change) (w : World) (p : HasCome sources v c w) (begins : List Begin) (stack : Option ℕ) →
        begins_of (new_since v p.gathered) c.routines ≡ Ok begins → restart_refusal v c p.gathered ≡ None → stack_for w c.routines ≡ Ok stack → link_refusal v w ≡ None →
        plan_of sources v c ≡ Ok (record { fresh = new_since v w; changed = changed_fields v w; linked = relink w; stack = stack; routines = routines_in w begins; restarted = restarted_task v c w }) }
    ensures answered { (sources : List Source) (v : World) (c : Change) → IsOfPlaced (plan_of sources v c) → HasAnswered sources v c }
    ensures torn { (sources : List Source) (v : World) (c : Change) (task : ℕ) (cell : CellId) (section offset : ℕ) → plan_of sources v c ≡ Err (Torn task cell section offset) →
        (w : World) × HasCome sources v c w × (first_torn (changed_fields v w) (filter is_ready v.tasks) ≡ Some (Torn task cell section offset)) }
{}

/// Once the new cells have their places, the machine has grown by them, the replaced ones stand aside, and it can be linked;
/// where what is new and what changes fits, it is ready for it.
pub fn change_regrows()
    ensures aside { (sources : List Source) (v : World) (c : Change) (w : World) → AreSound sources → IsCoherent v → IsSound sources v c → HasCome sources v c w →
        All (λ d. now_in w d ≡ put_aside (suc v.swaps) (old_of c) d) v.cells }
    ensures attached { (sources : List Source) (v : World) (c : Change) (w : World) → AreSound sources → IsCoherent v → IsSound sources v c → HasCome sources v c w →
        IsTrue (list_all (λ d. is_attached d.standing) (new_since v w)) }
    ensures regrown { (sources : List Source) (v : World) (c : Change) (w : World) → AreSound sources → IsCoherent v → IsSound sources v c → HasCome sources v c w → IsRegrown v w (new_since v w) }
    ensures linkable { (sources : List Source) (v : World) (c : Change) (w : World) → AreSound sources → IsCoherent v → IsSound sources v c → HasCome sources v c w → IsLinkable w }
    ensures ready { (sources : List Source) (v : World) (c : Change) (w : World) → AreSound sources → IsCoherent v → IsSound sources v c → HasCome sources v c w →
        first_misfit w (new_since v w) ≡ None → first_changed_misfit v w v.cells ≡ None → IsReady w }
{}

/// Linking writes then the new cells' fields and those that change, and nothing else: an entry whose target doesn't differ names what it named. The fields that the change counts are these.
pub fn change_writes_changes()
    ensures writes { (sources : List Source) (v : World) (c : Change) (w : World) → AreSound sources → IsCoherent v → IsSound sources v c → HasCome sources v c w →
        first_misfit w (new_since v w) ≡ None → first_changed_misfit v w v.cells ≡ None →
        relink w ≡ record w { regions = map (with_changes v w (new_since v w)) w.regions; links = links_from w (map (now_in w) v.cells) ++ links_from w (new_since v w) } }
    ensures counts { (sources : List Source) (v : World) (c : Change) (plan : Plan) → plan_of sources v c ≡ Ok plan → plan.changed ≡ changed_fields v plan.linked }
    ensures others { (sources : List Source) (v : World) (c : Change) (plan : Plan) → AreSound sources → IsCoherent v → IsSound sources v c → plan_of sources v c ≡ Ok plan → FollowsTargets v plan.linked }
{}

/// Each target of another cell that was in a replaced cell differs then, and of all others only such as no strong holder and not the cell's
/// own object gave; of the replaced cells' own entries only such do. That is so as soon as the new cells have their places, whatever is answered then.
pub fn change_loses_targets()
    ensures lost { (sources : List Source) (v : World) (c : Change) (w : World) → AreSound sources → IsCoherent v → IsSound sources v c → HasCome sources v c w →
        All (λ d. All (λ e. holds (old_of c) d.id.0 ≡ false → is_target_in (old_of c) (target_of v d e) ≡ true → differs v w d e ≡ true) d.object.entries) v.cells }
    ensures firm { (sources : List Source) (v : World) (c : Change) (w : World) → AreSound sources → IsCoherent v → IsSound sources v c → HasCome sources v c w →
        All (λ d. All (λ e. (t : Target) → firm_target v d e ≡ Some t → is_target_in (old_of c) (Some t) ≡ false → differs v w d e ≡ false) d.object.entries) v.cells }
    ensures own { (sources : List Source) (v : World) (c : Change) (w : World) → AreSound sources → IsCoherent v → IsSound sources v c → HasCome sources v c w →
        All (λ d. IsTrue (holds (old_of c) d.id.0) → All (λ e. (t : Target) → firm_target v d e ≡ Some t → differs v w d e ≡ false) d.object.entries) v.cells }
{}

/// A cell that a change leaves alone lacks a name exactly where a replaced cell provided it, with those put aside no other cell holds it weakly for it, and no new cell that it can see has it.
pub fn coverage_of_change_is_exact()
    ensures { (sources : List Source) (v : World) (c : Change) (g : World) → AreSound sources → IsCoherent v → IsSound sources v c → gather sources v c ≡ Ok g →
        (d : Cell) → In d v.cells → holds (old_of c) d.id.0 ≡ false → (name : List ℕ) → In name (needs_of d.object) →
        (is_none (provider_of g d name) ≡ true) ↔ IsLost v (set_aside v c) (old_of c) (new_since v g) d name }
{}

/// Each routine begins in a new cell, at a multiple of 4 with four bytes in an executable section.
pub fn change_begins_in_new_cells()
    ensures { (sources : List Source) (v : World) (c : Change) (plan : Plan) → AreSound sources → IsCoherent v → IsSound sources v c → plan_of sources v c ≡ Ok plan →
        All (λ r. (d : Cell) × In d plan.fresh × BeginsIn d r.entry) plan.routines }
{}

/// The routines run on the lowest free run of the machine with the new cells linked, which after each of their turns is
/// coherent but for that stack. They change bytes alone, and of these none that is sealed or stands in a region that isn't writable.
pub fn routines_of_change_change_no_cell()
    ensures stack { (sources : List Source) (v : World) (c : Change) (plan : Plan) → AreSound sources → IsCoherent v → IsSound sources v c → plan_of sources v c ≡ Ok plan →
        (stack : ℕ) → plan.stack ≡ Some stack → start_of_run plan.linked 4 ≡ Ok stack }
    ensures turns { (sources : List Source) (v : World) (c : Change) (plan : Plan) → AreSound sources → IsCoherent v → IsSound sources v c → plan_of sources v c ≡ Ok plan →
        (n stack : ℕ) → plan.stack ≡ Some stack → IsCoherent (after_turns n plan.linked stack (addresses_of c plan) plan.routines) }
    ensures none { (sources : List Source) (v : World) (c : Change) (plan : Plan) → c.routines ≡ [] → plan_of sources v c ≡ Ok plan → with_routines c plan ≡ Ok plan.linked }
    ensures parts { (c : Change) (plan : Plan) (second : World) → with_routines c plan ≡ Ok second → record second { regions = plan.linked.regions } ≡ plan.linked }
    ensures shapes { (sources : List Source) (v : World) (c : Change) (plan : Plan) (second : World) → AreSound sources → IsCoherent v → IsSound sources v c → plan_of sources v c ≡ Ok plan →
        with_routines c plan ≡ Ok second → KeepsShapes plan.linked.regions second.regions }
    ensures read_only { (sources : List Source) (v : World) (c : Change) (plan : Plan) (second : World) → AreSound sources → IsCoherent v → IsSound sources v c → plan_of sources v c ≡ Ok plan →
        with_routines c plan ≡ Ok second → KeepsReadOnly plan.linked.regions second.regions }
    ensures fields { (sources : List Source) (v : World) (c : Change) (plan : Plan) (second : World) → AreSound sources → IsCoherent v → IsSound sources v c → plan_of sources v c ≡ Ok plan →
        with_routines c plan ≡ Ok second → KeepsFields plan.linked second }
    ensures sealed { (sources : List Source) (v : World) (c : Change) (plan : Plan) (second : World) → AreSound sources → IsCoherent v → IsSound sources v c → plan_of sources v c ≡ Ok plan →
        with_routines c plan ≡ Ok second → KeepsSealed (seen_in plan.linked) second.regions }
{}

/// A task that begins again is live, and begins where its spawn's name is by then, as it began at its spawn. That there is such a place is decided
/// before the new cells have theirs. But for that task and bytes, the machine is that with all linked, and where no task begins again, it is that
/// after the routines.
pub fn change_begins_a_task_again()
    ensures begins { (sources : List Source) (v : World) (c : Change) (plan : Plan) (t : Task) → plan_of sources v c ≡ Ok plan → plan.restarted ≡ Some t → BeginsAgain v c plan t }
    ensures surely { (sources : List Source) (v : World) (c : Change) (plan : Plan) (t : Task) → AreSound sources → IsCoherent v → IsSound sources v c → plan_of sources v c ≡ Ok plan → restarting v c ≡ Some t →
        (u : Task) × (plan.restarted ≡ Some u) }
    ensures parts { (c : Change) (plan : Plan) (last : World) → with_sequel c plan ≡ Ok last → record last { regions = plan.linked.regions; tasks = plan.linked.tasks } ≡ plan.linked }
    ensures follows { (c : Change) (plan : Plan) (second : World) → with_routines c plan ≡ Ok second → with_sequel c plan ≡ Ok (restart_by plan.restarted second) }
    ensures none { (sources : List Source) (v : World) (c : Change) (plan : Plan) (second : World) → c.restarts ≡ None → plan_of sources v c ≡ Ok plan → with_routines c plan ≡ Ok second → with_sequel c plan ≡ Ok second }
{}

/// With a plan and a sequel that ends well, a strict change is accepted exactly where then nobody keeps a replaced cell, and one that isn't strict always. Either makes the same.
pub fn strict_change_is_exact()
    ensures strict { (sources : List Source) (v : World) (c : Change) (plan : Plan) (last : World) → AreSound sources → IsCoherent v → IsSound sources v c → plan_of sources v c ≡ Ok plan → with_sequel c plan ≡ Ok last →
        c.strict ≡ true → ((made : Made) × (make_change sources v c ≡ Ok made)) ↔ All (λ n. IsKept (holding_of last) n → ⊥) (old_of c) }
    ensures other { (sources : List Source) (v : World) (c : Change) (plan : Plan) (last : World) → AreSound sources → IsCoherent v → IsSound sources v c → plan_of sources v c ≡ Ok plan → with_sequel c plan ≡ Ok last →
        c.strict ≡ false → make_change sources v c ≡ Ok (made_by c plan last) }
    ensures is { (sources : List Source) (v : World) (c : Change) (plan : Plan) (last : World) (made : Made) → AreSound sources → IsCoherent v → IsSound sources v c → plan_of sources v c ≡ Ok plan → with_sequel c plan ≡ Ok last →
        make_change sources v c ≡ Ok made → made ≡ made_by c plan last }
{}

/// The last step is a purge of the machine after the sequel, where cells were replaced, and else there is none.
pub fn change_sweeps()
    ensures purges { (c : Change) (plan : Plan) (last : World) → 0 < length (old_of c) → (made_by c plan last).world ≡ purged last }
    ensures removed { (c : Change) (plan : Plan) (last : World) → 0 < length (old_of c) → (made_by c plan last).removed ≡ garbage_of last }
    ensures none { (c : Change) (plan : Plan) (last : World) → old_of c ≡ [] → (made_by c plan last).world ≡ last }
{}

/// The machine is coherent when all is linked, after the routines, once a task has begun again, and when the cells have gone that nobody keeps.
pub fn change_keeps_coherent()
    ensures linked { (sources : List Source) (v : World) (c : Change) (plan : Plan) → AreSound sources → IsCoherent v → IsSound sources v c → plan_of sources v c ≡ Ok plan → IsCoherent plan.linked }
    ensures run { (sources : List Source) (v : World) (c : Change) (plan : Plan) (second : World) → AreSound sources → IsCoherent v → IsSound sources v c → plan_of sources v c ≡ Ok plan →
        with_routines c plan ≡ Ok second → IsCoherent second }
    ensures begun { (sources : List Source) (v : World) (c : Change) (plan : Plan) (last : World) → AreSound sources → IsCoherent v → IsSound sources v c → plan_of sources v c ≡ Ok plan →
        with_sequel c plan ≡ Ok last → IsCoherent last }
    ensures made { (sources : List Source) (v : World) (c : Change) (made : Made) → AreSound sources → IsCoherent v → IsSound sources v c → make_change sources v c ≡ Ok made → IsCoherent made.world }
{}

/// At its end each entry of a cell that stays names what it named when all was linked.
pub fn change_settles_targets()
    ensures { (sources : List Source) (v : World) (c : Change) (plan : Plan) (made : Made) → AreSound sources → IsCoherent v → IsSound sources v c → plan_of sources v c ≡ Ok plan → make_change sources v c ≡ Ok made →
        All (λ d. IsTrue (holds (numbers_of made.world.cells) d.id.0) → All (λ e. target_of made.world (now_in made.world d) e ≡ target_of plan.linked (now_in plan.linked d) e) d.object.entries) v.cells }
{}

/// The cells that go at the end of a change that replaces cells are exactly the detached ones that nobody keeps once its routines have run and a task has begun again. Then
/// every cell that is left is kept, nothing leads into one that went, and what is left names and holds what it did.
pub fn change_removes_free_cells()
    ensures left { (sources : List Source) (v : World) (c : Change) (plan : Plan) (last : World) → AreSound sources → IsCoherent v → IsSound sources v c → plan_of sources v c ≡ Ok plan → with_sequel c plan ≡ Ok last →
        0 < length (old_of c) → (d : Cell) → In d (made_by c plan last).world.cells ↔ (In d last.cells × (IsFree last d → ⊥)) }
    ensures kept { (sources : List Source) (v : World) (c : Change) (plan : Plan) (last : World) → AreSound sources → IsCoherent v → IsSound sources v c → plan_of sources v c ≡ Ok plan → with_sequel c plan ≡ Ok last →
        0 < length (old_of c) → All (λ d. IsKept (holding_of (made_by c plan last).world) d.id.0) (made_by c plan last).world.cells }
    ensures unreached { (sources : List Source) (v : World) (c : Change) (plan : Plan) (last : World) → AreSound sources → IsCoherent v → IsSound sources v c → plan_of sources v c ≡ Ok plan → with_sequel c plan ≡ Ok last →
        0 < length (old_of c) → All (λ d. holds (numbers_of (made_by c plan last).world.cells) d.id.0 ≡ false → IsUnreached last (made_by c plan last).world d) last.cells }
    ensures targets { (sources : List Source) (v : World) (c : Change) (plan : Plan) (last : World) → AreSound sources → IsCoherent v → IsSound sources v c → plan_of sources v c ≡ Ok plan → with_sequel c plan ≡ Ok last →
        0 < length (old_of c) → LeavesTargets last (made_by c plan last).world }
    ensures fields { (sources : List Source) (v : World) (c : Change) (plan : Plan) (last : World) → AreSound sources → IsCoherent v → IsSound sources v c → plan_of sources v c ≡ Ok plan → with_sequel c plan ≡ Ok last →
        0 < length (old_of c) → LeavesFields last (made_by c plan last).world }
{}
