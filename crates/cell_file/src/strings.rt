//! String tables.

ghost use Rattle.std.specs.Prelude.{◌≡◌, ◌+◌, ◌≤◌, ◌<◌, length, IfOk, IfSome, IsNone, Ok, Some, is_some, unwrap_or, true, [], slice_range, position, ◌^◌};
ghost use Rattle.std.specs.List.{before_first, position_or_len};
ghost use Rattle.cell_object.specs.Bytes.{is_zero, string_at as string_of};
ghost use Rattle.cell_file.specs.Ends.{last_end as end_of};
ghost use Rattle.cell_file.specs.Outcome.{Passes};

use crate::ReadFail;
use cell_num::{Bytes, Shared};
use cell_object::elf::LONGEST_NAME;

fn first_zero(bytes: &[u8]) -> Option<usize>
    ensures { result ≡ position is_zero bytes.now }
{
    bytes.iter().position(|b| *b == 0)
}

/// One more than the place of the last zero byte, or 0 where there is none.
fn last_end(table: &[u8]) -> usize
    ensures { result ≡ end_of table.now }
{
    match table.iter().rposition(|b| *b == 0) {
        Some(at) => at + 1,
        None => 0,
    }
}

/// A string table of a file. Where a string can begin at the latest is known.
#[derive(Clone, Copy)]
pub struct Strings<'a> {
    whole: &'a Shared,
    pub table: &'a [u8],
    start: usize,
    end: usize,
    ghost table_is: { table.now ≡ slice_range whole.now start (start + length table.now) },
    ghost inside: { start + length table.now ≤ length whole.now },
    ghost fits: { start + length table.now < 2 ^ 64 },
    ghost end_is: { end ≡ end_of table.now },
}

impl<'a> Strings<'a> {
    /// The string table that is these bytes of a file. They are looked at once, from their end on.
    #[tactic(auto, using(crate::proofs::Ends::tables))]
    pub fn of(whole: &'a Shared, start: usize, len: usize) -> Strings<'a>
        requires { start + len ≤ length whole.now }
        ensures { result.table.now ≡ slice_range whole.now start (start + len) }
    {
        let table = &whole.as_slice()[start..start + len];
        Strings {
            whole,
            table,
            start,
            end: last_end(table),
        }
    }

    /// Whether a string begins at a place, which takes no search.
    #[tactic(auto, using(crate::proofs::Ends::has_end))]
    pub fn has(&self, at: u32) -> bool
        ensures { result ≡ is_some (string_of at self.now.table.now) }
    {
        (at as usize) < self.end
    }

    /// The string at a place, of which no byte is looked at.
    #[tactic(auto, using(crate::proofs::Ends::texts))]
    pub fn text(&self, at: u32) -> Result<Bytes, ReadFail>
        requires { is_some (string_of at self.now.table.now) ≡ true }
        ensures memory { Passes result (Ok tt) }
        ensures text { IfOk result (λ text. string_of at self.now.table.now ≡ Some text) }
    {
        let from = at as usize;
        let part = self.whole.part(self.start + from, self.table.len() - from)?;
        Ok(Bytes::text(part))
    }

    /// The string at a place, or nothing where it is longer than a GLOBAL's name may be. At most one
    /// byte more than that is looked at.
    #[tactic(auto, using(crate::proofs::Ends::begins))]
    pub fn short(&self, at: u32) -> Option<&'a [u8]>
        requires { is_some (string_of at self.now.table.now) ≡ true }
        ensures short { IfSome result (λ name. name.now ≡ unwrap_or (string_of at self.now.table.now) []) }
        ensures long { IsNone result → 1024 < length (unwrap_or (string_of at self.now.table.now) []) }
    {
        short(&self.table[at as usize..])
    }
}

/// What stands before the first zero byte, where that is at most a GLOBAL's longest name.
fn short(rest: &[u8]) -> Option<&[u8]>
    requires { position_or_len is_zero rest.now < length rest.now }
    ensures short { IfSome result (λ name. name.now ≡ before_first is_zero rest.now) }
    ensures long { IsNone result → 1024 < length (before_first is_zero rest.now) }
{
    let seen = &rest[..rest.len().min(LONGEST_NAME + 1)];
    match first_zero(seen) {
        Some(len) => Some(&seen[..len]),
        None => None,
    }
}
