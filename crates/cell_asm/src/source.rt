//! A source from its bytes to its object.

ghost use Rattle.std.specs.Prelude.{◌≡◌, ◌^◌, ◌<◌, ◌≤◌, List, map, find, length, IfOk};
ghost use Rattle.cell_object.specs.Writable.{IsWritable};
ghost use Rattle.cell_asm.specs.Assembled.{placed_line, placed_texts, has_lost, object_unless, assembled, Assembles};
ghost use Rattle.cell_asm.specs.Lines.{line_of};
ghost use Rattle.cell_asm.specs.Progress.{Goes, Places, failure, Follows};
ghost use Rattle.cell_asm.specs.declared.statement.Laid.{Laid as LaidValue};

use crate::entry::{entries, first_lost};
use crate::kind::{AsmFail, AsmKind, Stop};
use crate::line::read_line;
use crate::place::Progress;
use crate::section::sections;
use crate::symbol::make_symbols;
use cell_object::Object;
use cell_text::lines;
use std::alloc::{AllocError, Global};

/// Assembles a source: lines that end with a line feed, which the last may lack. Lines are counted
/// from 1. The first line with a fault other than Label is answered, with the first of its faults in
/// the order Word, Operand, Range, Section, Twice, Long; where there is none, the first line with
/// the fault Label.
#[tactic(auto, using(crate::proofs::PlacingLemmas::wholes))]
pub fn assemble(alloc: Global, source: &[u8]) -> Result<Object, AsmFail>
    requires { length source.now < 2 ^ 31 }
    ensures object { Assembles result (assembled source.now) }
    ensures writable { IfOk result IsWritable }
{
    let texts = lines(alloc, source)?;
    let progress = place_lines(alloc, &texts)?;
    object(alloc, &progress)
}

/// What the lines in their places come to, or the first with a fault.
fn place_lines<'a>(alloc: Global, texts: &[&'a [u8]]) -> Result<Progress<'a>, AsmFail>
    requires { length texts.now < 2 ^ 32 }
    ensures { Places result (placed_texts (map (λ text. text.now) texts.now)) }
{
    let mut progress = Progress::new(alloc);
    let mut number: u32 = 0;
    for text in texts {
        number += 1;
        if let Err(stop) = place_line(alloc, &mut progress, number, text) {
            return Err(failed(stop, number));
        }
    }
    Ok(progress)
}

/// What stops the reading of a line, with the line's number.
fn failed(stop: Stop, line: u32) -> AsmFail
    ensures { result ≡ failure stop line }
{
    match stop {
        Stop::Fault(kind) => AsmFail::Fault { line, kind },
        Stop::OutOfMemory => AsmFail::OutOfMemory,
    }
}

fn place_line<'a>(
    alloc: Global,
    progress: &mut Progress<'a>,
    number: u32,
    text: &'a [u8],
) -> Result<(), Stop>
    requires { progress.old.made < number }
    ensures line { (before : List LaidValue) → Follows progress.old before → Goes progress.new before result (placed_line before number (line_of text.now)) }
    ensures made { progress.new.made ≤ number }
{
    let line = read_line(alloc, text)?;
    progress.place(number, line)
}

/// The object of the lines, unless one refers to a label that is none.
fn object(alloc: Global, progress: &Progress<'_>) -> Result<Object, AsmFail>
    requires { length progress.now.parts.items ≤ 4 }
    ensures { (lines : List LaidValue) → Follows progress.now lines → Assembles result (object_unless lines (find (has_lost lines) lines)) }
{
    if let Some(line) = first_lost(progress) {
        return Err(AsmFail::Fault {
            line,
            kind: AsmKind::Label,
        });
    }
    let sections = sections(alloc, &progress.parts, &progress.bodies)?;
    let symbols = make_symbols(alloc, progress)?;
    let entries = entries(alloc, progress, &symbols)?;
    Ok(Object {
        sections,
        symbols: symbols.into_list(),
        entries,
    })
}
