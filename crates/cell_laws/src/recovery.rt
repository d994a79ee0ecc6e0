//! Faulted tasks that begin again: an accepted `recover` or `rebuild` is the swap of all its cells and a restart of the task.
//! What it leaves of the machine is what every change of cells leaves (`cell_change_law`).

ghost use Rattle.std.specs.Prelude.{ℕ, ◌≡◌, All, IsTrue, List, [], Ok, Some, false, map, true};
ghost use Rattle.cell_num.specs.Lists.{In};
ghost use Rattle.cell_num.specs.declared.ids.CellId.{CellId};
ghost use Rattle.cell_world.specs.Answer.{Done, done};
ghost use Rattle.cell_world.specs.Change.{Want, made_by};
ghost use Rattle.cell_world.specs.Coherent.{AreSound, IsCoherent};
ghost use Rattle.cell_world.specs.Commands.Asked.{next_rebuild, next_recover, next_swap, renewals, renewing, swap_reply, wants_of};
ghost use Rattle.cell_world.specs.Commands.Recovery.{faulted_task, rebuild_of, recovery_of, runs_at};
ghost use Rattle.cell_world.specs.Gather.{Source};
ghost use Rattle.cell_world.specs.Kept.{holding_of, kept_in};
ghost use Rattle.cell_world.specs.Running.Restart.{entry_again, restart, restarted};
ghost use Rattle.cell_world.specs.World.{Cell, Task, World, is_attached};
ghost use Rattle.cell_world.specs.declared.reply.Reply.TheVariants.{Rebuild, Recover};
ghost use Rattle.cell_world.specs.declared.reply.Reply.{Reply};
ghost use Rattle.cell_laws.specs.Recovery.{AreRenewals, HasRenewed, IsOfFile, holding_again, own_item};

/// An accepted one takes the live task, which has faulted, and renews the cells that it is defined to take. All that decides on a swap of these
/// cells decides on it. In the machine that is linked then the task begins again, and the one removal comes after that.
pub fn recovered_is_swapped()
    ensures recover { (sources : List Source) (w : World) (task : ℕ) (d : Done) → AreSound sources → IsCoherent w → next_recover sources w task ≡ Ok d →
        (t : Task) × (faulted_task w task ≡ Ok t) × HasRenewed sources w t (recovery_of w t) (Recover task) d }
    ensures rebuild { (sources : List Source) (w : World) (task : ℕ) (d : Done) → AreSound sources → IsCoherent w → next_rebuild sources w task ≡ Ok d →
        (t : Task) × (faulted_task w task ≡ Ok t) × HasRenewed sources w t (rebuild_of w t) (Rebuild task) d }
{}

/// The swap command for these cells, each with its own file, would be accepted by itself, and has the same plan: what it makes of the machine is
/// what is linked there, without a restart, and then the removal.
pub fn its_swap_is_accepted()
    ensures { (sources : List Source) (w : World) (t : Task) (cells : List Cell) (said : ℕ → List CellId → ℕ → List CellId → List CellId → Reply) (d : Done) (budget : ℕ) → AreSound sources → IsCoherent w →
        ((c : Cell) → In c cells → In c w.cells × IsTrue (is_attached c.standing)) → (b : HasRenewed sources w t cells said d) →
        next_swap sources w (map (own_item w) cells) true false [] budget
        ≡ done (swap_reply (made_by (renewing b.wants t.number) b.plan b.plan.linked)) (made_by (renewing b.wants t.number) b.plan b.plan.linked).world }
{}

/// The cells that a recovery takes are attached ones of the machine. At most one of these has a pc in executable bytes, so `recover` leaves none out.
pub fn recovery_takes_attached_cells()
    ensures recover { (w : World) (t : Task) (c : Cell) → In c (recovery_of w t) → In c w.cells × IsTrue (is_attached c.standing) }
    ensures rebuild { (w : World) (t : Task) (c : Cell) → In c (rebuild_of w t) → In c w.cells × IsTrue (is_attached c.standing) }
    ensures one { (w : World) (pc : ℕ) (c d : Cell) → IsCoherent w → In c w.cells → In d w.cells → IsTrue (runs_at pc c) → IsTrue (runs_at pc d) → c ≡ d }
{}

/// Where each cell's object is what its file is read as, as it is in a machine that runs, a recovery finds the file of each cell that it takes,
/// and that file is read as the cell's object: so no file is unknown or bad. A swap is asked for the same by the cells' own items.
pub fn recovery_is_wanted()
    ensures recover { (sources : List Source) (w : World) (t : Task) → IsCoherent w → All (IsOfFile sources) w.cells →
        (wants : List Want) × (renewals sources (recovery_of w t) ≡ Ok wants) × (wants_of sources w (map (own_item w) (recovery_of w t)) ≡ Ok wants) × AreRenewals sources (recovery_of w t) wants }
    ensures rebuild { (sources : List Source) (w : World) (t : Task) → IsCoherent w → All (IsOfFile sources) w.cells →
        (wants : List Want) × (renewals sources (rebuild_of w t) ≡ Ok wants) × (wants_of sources w (map (own_item w) (rebuild_of w t)) ≡ Ok wants) × AreRenewals sources (rebuild_of w t) wants }
{}

/// What is kept once a task has begun again is what is kept before it does, where three words stand in the place of the task: the address at
/// which it begins, its argument, and its x2. Its other registers are 0 then and its stack is cleared, and no section has the address 0.
pub fn three_words_keep()
    ensures { (w : World) (t : Task) (entry : ℕ × ℕ) → IsCoherent w → In t w.tasks → entry_again w t ≡ Some entry →
        kept_in (holding_of (restart (restarted t entry) w)) ≡ kept_in (holding_again w t entry) }
{}
