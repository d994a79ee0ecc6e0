//! Lines of a dump against fresh ones.

ghost use Rattle.std.specs.Prelude.{◌≡◌, ◌∷◌, [], drop};
ghost use Rattle.cell_audit.specs.Outcome.{Agrees};
ghost use Rattle.cell_num.specs.Lists.{equals};
ghost use Rattle.cell_compared.specs.Left.{IsDifference, Steps, left};
ghost use Rattle.cell_compared.specs.Walk.{Walks, ended};

use crate::cursor::Cursor;
use cell_audit::{AuditFail, Lines, line_end};
use cell_dumped::put_line;
use cell_num::Name;
use cell_world::DumpLine;
use std::alloc::Global;

/// A line of the dump, by its number in the file.
#[derive(Clone, Copy)]
pub struct Held<'a> {
    pub number: u32,
    pub text: &'a [u8],
}

/// What stands behind two spaces.
fn behind_spaces(text: &[u8]) -> &[u8]
    ensures { result.now ≡ drop 2 text.now }
{
    if text.len() >= 2 { &text[2..] } else { &[] }
}

/// Whether the line, without the spaces before it, is the fresh one.
fn is_shown(held: &[u8], fresh: &[u8]) -> bool
    ensures { result ≡ equals (drop 2 held.now) fresh.now }
{
    behind_spaces(held) == fresh
}

impl<'a> Cursor<'a> {
    /// The next line, if one is left.
    fn next_line(&mut self) -> Option<Held<'a>>
        ensures steps { Steps (left self.old) (left self.new) result }
        ensures fresh { self.new.fresh ≡ self.old.fresh }
    {
        let rest = self.rest?;
        let number = rest.first as u32;
        match line_end(&self.file[rest.start..rest.end]) {
            Some(len) => {
                let end = rest.start + len;
                self.rest = Some(Lines {
                    start: end + 1,
                    end: rest.end,
                    first: rest.first + 1,
                });
                let text = &self.file[rest.start..end];
                Some(Held { number, text })
            }
            None => {
                self.rest = None;
                let text = &self.file[rest.start..rest.end];
                Some(Held { number, text })
            }
        }
    }

    /// The fault of a line that differs.
    fn differs(&self, alloc: Global, held: Held) -> AuditFail
        ensures { IsDifference held.entry self.now.fresh.items result }
    {
        let found = Name::of(alloc, behind_spaces(held.text));
        let fresh = Name::of(alloc, &self.fresh);
        match (found, fresh) {
            (Ok(found), Ok(fresh)) => AuditFail::Differs {
                line: held.number,
                held: found,
                fresh,
            },
            _ => AuditFail::OutOfMemory,
        }
    }

    /// Compares the next line with a fresh one. Where none is left there is nothing to compare.
    pub fn expect(&mut self, alloc: Global, line: &DumpLine) -> Result<(), AuditFail>
        ensures { Walks (left self.old) (line.now ∷ []) (left self.new) result }
    {
        self.fresh.clear();
        put_line(&mut self.fresh, line)?;
        let Some(held) = self.next_line() else {
            return Ok(());
        };
        if is_shown(held.text, &self.fresh) {
            Ok(())
        } else {
            Err(self.differs(alloc, held))
        }
    }

    /// No line may be left.
    pub fn finish(&mut self, alloc: Global) -> Result<(), AuditFail>
        ensures { Agrees (ended (left self.old)) result }
    {
        self.fresh.clear();
        match self.next_line() {
            Some(held) => Err(self.differs(alloc, held)),
            None => Ok(()),
        }
    }
}
