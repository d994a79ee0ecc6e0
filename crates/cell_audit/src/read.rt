//! The reading of a dump.

ghost use Rattle.std.specs.Prelude.{◌≡◌, ◌<◌, ◌^◌, List, Ok, Some, length, IfErr, IfOk, OnOk};
ghost use Rattle.cell_audit.specs.Audits.{readable, reading_of};
ghost use Rattle.cell_audit.specs.Dumps.{Row, dump_in, rows_in};
ghost use Rattle.cell_audit.specs.Kept.{Tells};
ghost use Rattle.cell_audit.specs.Outcome.{FailsBy, GoesOn, StopsAt};
ghost use Rattle.cell_audit.specs.Reader.{IsKept, IsReady};
ghost use Rattle.cell_audit.specs.Within.{AreWithin, IsWithin, text_of, texts_of};
ghost use Rattle.cell_world.specs.Placed.Pages.{IsSpace};

use crate::AuditFail;
use crate::dump::{Line, Lines, dump_in, line_end};
use crate::kept::WrittenDump;
use crate::order::Known;
use crate::row::read_behind;
use std::alloc::Global;

/// What is read of a dump so far.
#[derive(Drop)]
struct Reader {
    /// Which lines may follow.
    known: Known,
    written: WrittenDump,
}

impl Reader {
    /// Reads one line more. After an error the reader is good for nothing.
    fn take_line(&mut self, alloc: Global, file: &[u8], line: Line) -> Result<(), AuditFail>
        requires within { IsWithin file.now line }
        requires ready { IsReady self.old.known self.old.written.cells.items }
        ensures read { (rows : List Row) → IsKept file.now rows self.old.known self.old.written → OnOk result (GoesOn file.now rows (text_of file.now line) self.new) }
        ensures unread { (rows : List Row) → IsKept file.now rows self.old.known self.old.written → IfErr result (StopsAt rows (text_of file.now line)) }
        ensures lines { OnOk result (self.new.written.lines ≡ self.old.written.lines) }
    {
        let mut known = self.known;
        let Some(said) = read_behind(alloc, &mut known, &file[line.start..line.end])? else {
            return Err(AuditFail::Unreadable { line: line.number });
        };
        self.written.keep(alloc, said, line)?;
        self.known = known;
        Ok(())
    }
}

/// Reads the dump of a file. Where there is none, or a line has no reading behind those before it, the answer is
/// `Unreadable`, with line 0 or that line.
pub fn read_dump(alloc: Global, file: &[u8]) -> Result<WrittenDump, AuditFail>
    requires { length file.now < 2 ^ 32 }
    ensures texts { IfOk result (λ w. dump_in file.now ≡ Some (texts_of file.now w.lines)) }
    ensures within { IfOk result (λ w. AreWithin file.now w.lines) }
    ensures rows { IfOk result (λ w. (rows : List Row) × (reading_of file.now ≡ Ok rows) × Tells file.now rows w) }
    ensures space { IfOk result (λ w. IsSpace w.base w.pages) }
    ensures fault { IfErr result (λ fault. FailsBy fault (reading_of file.now)) }
{
    match dump_in(file) {
        Some(lines) => read_lines(alloc, file, lines),
        None => Err(AuditFail::Unreadable { line: 0 }),
    }
}

fn read_lines(alloc: Global, file: &[u8], lines: Lines) -> Result<WrittenDump, AuditFail>
    requires within { AreWithin file.now lines }
    requires small { length file.now < 2 ^ 32 }
    ensures lines { IfOk result (λ w. w.lines ≡ lines) }
    ensures read { IfOk result (λ w. (rows : List Row) × (rows_in (texts_of file.now lines) ≡ Ok rows) × Tells file.now rows w) }
    ensures unread { IfErr result (λ fault. FailsBy fault (readable (rows_in (texts_of file.now lines)))) }
{
    let mut reader = Reader {
        known: Known::nothing(),
        written: WrittenDump::nothing(alloc, lines),
    };
    let mut start = lines.start;
    let mut number = lines.first;
    while let Some(len) = line_end(&file[start..lines.end]) {
        let end = start + len;
        reader.take_line(
            alloc,
            file,
            Line {
                number: number as u32,
                start,
                end,
            },
        )?;
        start = end + 1;
        number += 1;
    }
    let end = lines.end;
    reader.take_line(
        alloc,
        file,
        Line {
            number: number as u32,
            start,
            end,
        },
    )?;
    Ok(reader.written)
}
