//! The audit of a dump: whether it is what a machine shows that is linked anew from the same files.
#![tactic(auto)]

ghost use Rattle.std.specs.Prelude.{◌≡◌, ℕ, List, Ok};
ghost use Rattle.cell_world.specs.Gather.{Source};
ghost use Rattle.cell_audit.specs.Audits.{IsFresh, IsReading, audit_of};
ghost use Rattle.cell_audit.specs.Dumps.{Row, Text};

mod dump;
mod fail;
mod kept;
mod order;
mod read;
mod row;
mod told_bytes;
mod wide;
mod written;

pub use dump::{Lines, line_end};
pub use fail::AuditFail;
pub use kept::WrittenDump;
pub use read::read_dump;
pub use told_bytes::Told;
pub use wide::Wide;
pub use written::{WrittenAlias, WrittenCell, WrittenPlace};

/// A dump is clean exactly where it has a reading and its lines are those of the machine that it describes, linked anew.
pub fn clean_is_fresh()
    ensures clean { (dump : List ℕ) (sources : List Source) → audit_of dump sources ≡ Ok tt →
        (texts : List Text) × (rows : List Row) × IsReading dump sources texts rows × IsFresh sources texts rows }
    ensures fresh { (dump : List ℕ) (sources : List Source) (texts : List Text) (rows : List Row) → IsReading dump sources texts rows → IsFresh sources texts rows →
        audit_of dump sources ≡ Ok tt }
{}
