//! Lines of refusals.

ghost use Rattle.std.specs.Prelude.{◌≡◌, ◌++◌, Err, OnOk};
ghost use Rattle.cell_print.specs.Lines.{lines_of, Extends};

use crate::Piece::{Cause, Cell, Dec, Hex, Holder, Kind, Long, Many, Name, Place, Task, Text, Why};
use crate::put_answer;
use cell_num::SecKey;
use cell_world::Refusal;
use std::alloc::AllocError;

/// Appends the line of a refusal to a command of that line.
pub fn put_refusal(line: u32, refusal: &Refusal, into: &mut Vec<u8>) -> Result<(), AllocError>
    ensures ok { OnOk result (into.new.items ≡ into.old.items ++ lines_of line (Err refusal.now)) }
    ensures extends { Extends into.old.items into.new.items }
{
    match refusal {
        Refusal::Unknown { word } => put_answer(line, b"E1 unknown", &[Name(word)], into),
        Refusal::NameTaken { word } => put_answer(line, b"E2 taken", &[Name(word)], into),
        Refusal::NotRunnable { task, cause, pc } => {
            put_answer(
                line,
                b"E3 faulted",
                &[Task(*task), Cause(*cause), Hex(*pc)],
                into,
            )
        }
        Refusal::TooMany { kind, limit } => {
            put_answer(line, b"E4 too-many", &[Many(*kind), Dec(*limit)], into)
        }
        Refusal::NoObject { stem } => put_answer(line, b"E5 no-object", &[Name(stem)], into),
        Refusal::Ambiguous { one, two } => {
            put_answer(line, b"E6 ambiguous", &[Name(one), Name(two)], into)
        }
        Refusal::BadObject { file, rule, at } => {
            let rule = Dec(u32::from(*rule));
            put_answer(
                line,
                b"E7 object",
                &[Name(file), Text(b"rule"), rule, Text(b"at"), Long(*at)],
                into,
            )
        }
        Refusal::Duplicate { name, holder } => {
            put_answer(line, b"E8 duplicate", &[Name(name), Cell(*holder)], into)
        }
        Refusal::Missing { name, needed_by } => {
            put_answer(line, b"E9 missing", &[Name(name), Cell(*needed_by)], into)
        }
        Refusal::NoEntry { name } => put_answer(line, b"E10 no-entry", &[Name(name)], into),
        Refusal::Exhausted { wanted, largest } => {
            put_answer(line, b"E11 exhausted", &[Dec(*wanted), Dec(*largest)], into)
        }
        Refusal::Overflow {
            cell,
            section,
            offset,
            kind,
        } => {
            let place = Place(
                SecKey {
                    cell: *cell,
                    section: *section,
                },
                *offset,
            );
            put_answer(line, b"E12 overflow", &[place, Kind(*kind)], into)
        }
        Refusal::Torn {
            task,
            cell,
            section,
            offset,
        } => {
            let place = Place(
                SecKey {
                    cell: *cell,
                    section: *section,
                },
                *offset,
            );
            put_answer(line, b"E13 torn", &[Task(*task), place], into)
        }
        Refusal::Transfer { name, why } => {
            put_answer(line, b"E14 transfer", &[Name(name), Why(*why)], into)
        }
        Refusal::Held { cell, holder } => {
            put_answer(line, b"E15 held", &[Cell(*cell), Holder(*holder)], into)
        }
        Refusal::NotFaulted { task } => {
            put_answer(line, b"E16 not-faulted", &[Task(*task)], into)
        }
        Refusal::NoCrate { task, pc } => {
            put_answer(line, b"E17 no-crate", &[Task(*task), Hex(*pc)], into)
        }
        Refusal::NoParent { word } => put_answer(line, b"E18 no-parent", &[Name(word)], into),
    }
}
