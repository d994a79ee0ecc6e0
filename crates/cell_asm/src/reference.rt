//! References: the entries to come, and the instructions that `%pcrel_lo` may name.

ghost use Rattle.std.specs.Prelude.{◌≡◌, ◌++◌, ◌+◌, ◌<◌, ◌^◌, ◌||◌, ◌&&◌, ℕ, OnOk};
ghost use Rattle.std.specs.List.{list_any};
ghost use Rattle.std.specs.Ordering.{nat_cmp};
ghost use Rattle.std.specs.BTreeSet.{contains};
ghost use Rattle.cell_num.specs.Kinds.{is_upper_pcrel as upper_pcrel};
ghost use Rattle.cell_asm.specs.Places.{marks_in as marks_of};
ghost use Rattle.cell_asm.specs.Objects.{target_key as key_of};
ghost use Rattle.cell_asm.specs.Progress.{HasRoom, reference_at, references_of, is_upper_at};

use crate::statement::{Key, Laid, Mark, Part, Statement, Target};
use cell_num::{RelKind, is_upper_pcrel};
use std::alloc::AllocError;
use std::collections::BTreeSet;

/// An entry to come: the number of its line, its section and offset there, and the key of its symbol.
#[derive(Drop)]
pub struct Reference<'a> {
    pub line: u32,
    pub part: Option<Part>,
    pub offset: u32,
    pub kind: RelKind,
    pub key: Key<'a>,
    pub addend: i64,
}

/// Appends the references of a line.
pub fn put_references<'a>(
    references: &mut Vec<Reference<'a>>,
    laid: &Laid<'a>,
) -> Result<(), AllocError>
    requires { HasRoom laid.now }
    ensures { OnOk result (references.new.items ≡ references.old.items ++ references_of laid.now) }
{
    for mark in marks_in(&laid.line.statement) {
        references.push(reference_of(laid, mark))?;
    }
    Ok(())
}

fn reference_of<'a>(laid: &Laid<'a>, mark: &Mark<'a>) -> Reference<'a>
    requires { laid.now.offset + mark.now.at < 2 ^ 32 }
    ensures { result ≡ reference_at laid.now mark.now }
{
    Reference {
        line: laid.number,
        part: laid.part,
        offset: laid.offset + mark.at as u32,
        kind: mark.fix.kind,
        key: target_key(laid, &mark.fix.target),
        addend: mark.fix.addend,
    }
}

fn target_key<'a>(laid: &Laid<'a>, target: &Target<'a>) -> Key<'a>
    ensures { result ≡ key_of laid.now target.now }
{
    match target {
        Target::Named(name) => Key::Named(name.again()),
        Target::Made => Key::Made(laid.made),
    }
}

/// The entries for the bytes of a statement.
pub fn marks_in<'b, 'a>(statement: &'b Statement<'a>) -> &'b [Mark<'a>]
    ensures { result.now ≡ marks_of statement.now }
{
    match statement {
        Statement::Bytes(_, block) => block.marks.as_slice(),
        _ => &[],
    }
}

/// Adds the offset of the line, if it has an instruction with `%pcrel_hi` or `%got_pcrel_hi` in `.text`.
pub fn put_upper(uppers: &mut BTreeSet<u32>, laid: &Laid<'_>) -> Result<(), AllocError>
    ensures { OnOk result ((q : ℕ) → contains nat_cmp uppers.new q ≡ (contains nat_cmp uppers.old q || is_upper_at q laid.now)) }
{
    if matches!(laid.part, Some(Part::Text)) && has_upper(marks_in(&laid.line.statement)) {
        uppers.insert(laid.offset)?;
    }
    Ok(())
}

fn has_upper(marks: &[Mark<'_>]) -> bool
    ensures { result ≡ list_any (λ m. upper_pcrel m.fix.kind) marks.now }
{
    marks.iter().any(|mark| is_upper_pcrel(mark.fix.kind))
}
