//! What the routines of a swap may touch, after each of their turns.

ghost use Rattle.std.specs.Prelude.{ℕ, ◌≡◌, List, Option, None, Some, Ok, map, suc, [], ◌∷◌};
ghost use Rattle.cell_num.specs.declared.ids.Cause.TheVariants.{Call};
ghost use Rattle.cell_num.specs.declared.ids.Why.TheVariants.{Budget, Returned, Trap};
ghost use Rattle.cell_world.specs.Coherent.{IsCoherent};
ghost use Rattle.cell_world.specs.Running.Execute.{Seen, seen_in};
ghost use Rattle.cell_world.specs.Running.Move.{move};
ghost use Rattle.cell_world.specs.Placed.Place.{start_of_run};
ghost use Rattle.cell_world.specs.declared.transfer.Routine.{Routine};
ghost use Rattle.cell_world.specs.Running.Transfer.{Addresses, Transferred, after_turns, routine_column, transfer, transferred};
ghost use Rattle.cell_world.specs.Running.Undo.{undone};
ghost use Rattle.cell_world.specs.World.{World};
ghost use Rattle.cell_lemmas.specs.Kept.{KeepsFields, KeepsReadOnly, KeepsSealed, KeepsShapes};
ghost use Rattle.cell_laws.specs.Progress.{Ended, Running, Runs, cut_off, progress_after};
ghost use Rattle.cell_laws.specs.Worked.{asking, displaced, failed, holding, pc_after, stores, storing};

/// The turns of a transfer one by one. Each is the move of the hart at which the transfer stands, over the memory
/// then: the hart of a routine begins at its entry with the registers of a spawn and goes on as its move leaves it,
/// and where a routine ends with the code 0 the next one begins. A budget of n turns comes to what the first n of
/// them leave; where they run out in a routine, the turn n + 1 is the move of that hart.
pub fn transfer_turn_by_turn()
    ensures is { (n : ℕ) (addresses : Addresses) (m : Seen) (stack : ℕ) (routines : List Routine) → transferred n addresses m stack routines ≡ cut_off (progress_after n addresses m stack routines) }
    ensures out { (n : ℕ) (addresses : Addresses) (m : Seen) (stack : ℕ) (routines : List Routine) (name : ℕ) → (transferred n addresses m stack routines).failure ≡ Some (record { routine = name; why = Budget }) →
        (r : Running) × (progress_after n addresses m stack routines ≡ Runs r) × (r.routine.name ≡ name) }
    ensures turn { (n : ℕ) (addresses : Addresses) (m : Seen) (stack : ℕ) (routines : List Routine) (r : Running) → progress_after n addresses m stack routines ≡ Runs r →
        (transferred (suc n) addresses m stack routines).regions ≡ (move (routine_column addresses) (record m { regions = (transferred n addresses m stack routines).regions }) r.hart).regions }
    ensures ended { (n : ℕ) (addresses : Addresses) (m : Seen) (stack : ℕ) (routines : List Routine) (t : Transferred) → progress_after n addresses m stack routines ≡ Ended t →
        transferred (suc n) addresses m stack routines ≡ transferred n addresses m stack routines }
{}

/// After each turn of a transfer the machine is coherent, where the region of the transfer's stack is left out. The first n turns of a transfer are those of one with the budget n (`transfer_turn_by_turn`).
pub fn transfer_keeps_coherent()
    ensures turns { (n : ℕ) (w : World) (stack : ℕ) (addresses : Addresses) (routines : List Routine) → IsCoherent w → start_of_run w 4 ≡ Ok stack → IsCoherent (after_turns n w stack addresses routines) }
    ensures end { (n : ℕ) (w v : World) (stack : ℕ) (addresses : Addresses) (routines : List Routine) → IsCoherent w → start_of_run w 4 ≡ Ok stack → transfer w stack addresses routines n ≡ Ok v → IsCoherent v }
{}

/// After each turn, and so after a transfer, only bytes of writable regions that are sealed by no field may differ: cells, links, tasks, namespaces, the space and all numbers are as they were, and so are starts, lengths and permissions of regions, those that aren't writable, and each field.
pub fn transfer_changes_no_cell()
    ensures parts { (n : ℕ) (w : World) (stack : ℕ) (addresses : Addresses) (routines : List Routine) → record (after_turns n w stack addresses routines) { regions = w.regions } ≡ w }
    ensures shapes { (n : ℕ) (w : World) (stack : ℕ) (addresses : Addresses) (routines : List Routine) → IsCoherent w → start_of_run w 4 ≡ Ok stack → KeepsShapes w.regions (after_turns n w stack addresses routines).regions }
    ensures read_only { (n : ℕ) (w : World) (stack : ℕ) (addresses : Addresses) (routines : List Routine) → IsCoherent w → start_of_run w 4 ≡ Ok stack → KeepsReadOnly w.regions (after_turns n w stack addresses routines).regions }
    ensures sealed { (n : ℕ) (w : World) (stack : ℕ) (addresses : Addresses) (routines : List Routine) → IsCoherent w → start_of_run w 4 ≡ Ok stack → KeepsSealed (seen_in w) (after_turns n w stack addresses routines).regions }
    ensures fields { (n : ℕ) (w : World) (stack : ℕ) (addresses : Addresses) (routines : List Routine) → IsCoherent w → start_of_run w 4 ≡ Ok stack → KeepsFields w (after_turns n w stack addresses routines) }
    ensures end { (n : ℕ) (w v : World) (stack : ℕ) (addresses : Addresses) (routines : List Routine) → transfer w stack addresses routines n ≡ Ok v → v ≡ after_turns n w stack addresses routines }
{}

/// By hand: a routine of six turns that stores 9, an instruction a turn. A code other than 0, or a budget of five turns, is a failure, which comes after the store; one record goes back behind it. With the code 0 and six turns it succeeds. A routine that asks for a name returns its address in the old or in the new cells, and any call but 0 to 5 traps.
pub fn transfers_by_hand()
    ensures returns { storing 7 10 ≡ record { regions = stores 7 ∷ holding 9 ∷ []; failure = failed (Returned 7) } }
    ensures runs_out { storing 0 5 ≡ record { regions = stores 0 ∷ holding 9 ∷ []; failure = failed Budget } }
    ensures succeeds { storing 0 6 ≡ record { regions = stores 0 ∷ holding 9 ∷ []; failure = None } }
    ensures turns { map (pc_after 0) (0 ∷ 1 ∷ 2 ∷ 3 ∷ 4 ∷ 5 ∷ 6 ∷ []) ≡ Some 0x10000 ∷ Some 0x10004 ∷ Some 0x10008 ∷ Some 0x1000c ∷ Some 0x10010 ∷ Some 0x10014 ∷ None ∷ [] }
    ensures goes_back { undone (stores 7 ∷ holding 9 ∷ []) displaced ≡ stores 7 ∷ holding 0 ∷ [] }
    ensures old { (asking 4).failure ≡ failed (Returned 0x4000) }
    ensures new { (asking 5).failure ≡ failed (Returned 0x5000) }
    ensures other { (asking 6).failure ≡ failed (Trap Call 0x1000c) }
{}
