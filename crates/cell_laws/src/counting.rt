//! How many cells there are, by what replies say of them.

ghost use Rattle.std.specs.Prelude.{◌≡◌, ◌+◌, ◌≤◌, List, length};
ghost use Rattle.cell_world.specs.Answer.{done, fresh_by};
ghost use Rattle.cell_world.specs.Coherent.{IsCoherent};
ghost use Rattle.cell_world.specs.Gather.{Source};
ghost use Rattle.cell_num.specs.Limits.{max_cells};
ghost use Rattle.cell_world.specs.Next.{outcome_of};
ghost use Rattle.cell_world.specs.World.{World};
ghost use Rattle.cell_world.specs.declared.command.Command.{Command};
ghost use Rattle.cell_world.specs.declared.reply.Reply.{Reply};
ghost use Rattle.cell_laws.specs.Counts.{removed_by};

/// After a command the present cells are those of before and the new ones of its reply, but for those that it
/// says are removed; and there were never more at once than there may be.
pub fn replies_count_cells()
    ensures counted { (sources : List Source) (w : World) (command : Command) (reply : Reply) (new : World) → IsCoherent w → outcome_of sources w command ≡ done reply new →
        length new.cells + length (removed_by reply) ≡ length w.cells + length (fresh_by reply) }
    ensures room { (sources : List Source) (w : World) (command : Command) (reply : Reply) (new : World) → IsCoherent w → outcome_of sources w command ≡ done reply new →
        length w.cells + length (fresh_by reply) ≤ max_cells }
{}
