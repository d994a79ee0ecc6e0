//! What the answers of a run come to.

ghost use Rattle.std.specs.Prelude.{◌≡◌, Err, Ok, IfOk, length};
ghost use Rattle.cell_laws.specs.Counts.{removed_by};
ghost use Rattle.cell_world.specs.Answer.{fresh_by};
ghost use Rattle.cell_machine.specs.Does.{patched_by};
ghost use Rattle.cell_world.specs.declared.refusal.Refusal.{Refusal};
ghost use Rattle.cell_run.specs.Answered.{empty_summary, summary_line, with_answer};

use cell_print::Piece::{Long, Text};
use cell_print::put_line;
use cell_world::Reply;
use std::alloc::{AllocError, Global};

/// How many commands were answered, and what their answers come to. Each count stands still at its last value.
#[derive(Clone, Copy, Debug, PartialEq, Eq)]
pub struct Summary {
    pub commands: u64,
    pub accepted: u64,
    pub refused: u64,
    /// The new cells of the replies, but for those that were removed.
    pub cells: u64,
    /// The fields that were patched.
    pub patched: u64,
}

/// How many new cells a reply names.
fn fresh_count(reply: &Reply) -> u64
    ensures { result ≡ length (fresh_by reply.now) }
{
    match reply {
        Reply::Load { fresh, .. }
        | Reply::Swap { fresh, .. }
        | Reply::Recover { fresh, .. }
        | Reply::Rebuild { fresh, .. }
        | Reply::Clone { fresh, .. } => fresh.as_slice().len() as u64,
        _ => 0,
    }
}

/// How many cells it says are removed.
fn removed_count(reply: &Reply) -> u64
    ensures { result ≡ length (removed_by reply.now) }
{
    match reply {
        Reply::Swap { removed, .. }
        | Reply::Recover { removed, .. }
        | Reply::Rebuild { removed, .. }
        | Reply::Unload { removed }
        | Reply::Purge { removed } => removed.as_slice().len() as u64,
        _ => 0,
    }
}

/// How many fields it says are patched.
fn patched_count(reply: &Reply) -> u64
    ensures { result ≡ patched_by reply.now }
{
    match reply {
        Reply::Load { patched, .. }
        | Reply::Swap { patched, .. }
        | Reply::Recover { patched, .. }
        | Reply::Rebuild { patched, .. }
        | Reply::Clone { patched, .. } => u64::from(*patched),
        _ => 0,
    }
}

impl Summary {
    /// Of no answer.
    pub fn empty() -> Summary
        ensures { result ≡ empty_summary }
    {
        Summary {
            commands: 0,
            accepted: 0,
            refused: 0,
            cells: 0,
            patched: 0,
        }
    }

    pub fn add_reply(&mut self, reply: &Reply)
        ensures { self.new ≡ with_answer self.old (Ok reply.now) }
    {
        let cells = self.cells.saturating_add(fresh_count(reply));
        self.commands = self.commands.saturating_add(1);
        self.accepted = self.accepted.saturating_add(1);
        self.cells = cells.saturating_sub(removed_count(reply));
        self.patched = self.patched.saturating_add(patched_count(reply));
    }

    pub fn add_refusal(&mut self)
        ensures { (refusal : Refusal) → self.new ≡ with_answer self.old (Err refusal) }
    {
        self.commands = self.commands.saturating_add(1);
        self.refused = self.refused.saturating_add(1);
    }

    pub fn line(&self, alloc: Global) -> Result<Vec<u8>, AllocError>
        ensures { IfOk result (λ text. text.items ≡ summary_line self.now) }
    {
        let mut text = Vec::new(alloc);
        put_line(
            &[
                Text(b"commands "),
                Long(self.commands),
                Text(b" accepted "),
                Long(self.accepted),
                Text(b" refused "),
                Long(self.refused),
                Text(b" cells "),
                Long(self.cells),
                Text(b" patched "),
                Long(self.patched),
            ],
            &mut text,
        )?;
        Ok(text)
    }
}
