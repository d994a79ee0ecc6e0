//! The law on the dump of the machine that runs: whatever commands it has done, its audit is clean.
#![tactic(auto)]

ghost use Rattle.std.specs.Prelude.{ℕ, ◌≡◌, ◌<◌, ◌^◌, ◌++◌, All, List, Ok, flat_map, map};
ghost use Rattle.cell_world.specs.declared.reply.Reply.TheVariants.{DumpAll};
ghost use Rattle.cell_world.specs.DumpLines.{dump_lines};
ghost use Rattle.cell_world.specs.Gather.{source_of};
ghost use Rattle.cell_print.specs.Lines.{reply_lines};
ghost use Rattle.cell_audit.specs.Audits.{audit_of};
ghost use Rattle.cell_audit_laws.specs.Transcripts.{IsEarlier, ended};

use cell_audit_laws::coherent_is_clean;
use cell_system::System;

/// What `dumpall` prints of a system, on whatever line of a script, audits clean against the system's files: behind earlier
/// lines that begin no dump, and before whatever follows. Every system is so: `System::do_command` leaves it one, whatever the command.
pub fn dump_is_clean(system: &System)
    ensures { (before : List (List ℕ)) (line : ℕ) (rest : List ℕ) → All IsEarlier before → line < 2 ^ 64 →
        audit_of (flat_map ended before ++ (reply_lines line (DumpAll (dump_lines system.now.machine.world)) ++ rest)) (map source_of system.now.files) ≡ Ok tt }
{
    system.coherent();
    coherent_is_clean();
}
