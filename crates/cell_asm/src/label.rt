//! The labels of a line, and the names that it mentions.

ghost use Rattle.std.specs.Prelude.{◌≡◌, ◌++◌, ℕ, List, flat_map, OnOk};
ghost use Rattle.cell_num.specs.Lists.{or_else};
ghost use Rattle.cell_asm.specs.Objects.{target_names};
ghost use Rattle.cell_asm.specs.Places.{makes_label as label_made, given, keys_of, labels_at};
ghost use Rattle.cell_asm.specs.Progress.{names_in, known, spot_here};

use crate::known::Known;
use crate::reference::marks_in;
use crate::statement::{Binding, Key, Label, Laid, Line, Mark, Spot, Statement, Target};
use crate::text::Text;
use std::alloc::AllocError;

/// Whether the statement makes a label.
pub fn makes_label(statement: &Statement<'_>) -> bool
    ensures { result ≡ label_made statement.now }
{
    marks_in(statement)
        .iter()
        .any(|mark| matches!(mark.fix.target, Target::Made))
}

/// Appends the labels of a line: its own, and the one that it makes.
pub fn put_labels<'a>(labels: &mut Vec<Label<'a>>, laid: &Laid<'a>) -> Result<(), AllocError>
    ensures { OnOk result (labels.new.items ≡ labels.old.items ++ labels_at laid.now.part laid.now.offset (keys_of laid.now)) }
{
    let Some(part) = laid.part else {
        return Ok(());
    };
    let offset = laid.offset;
    if let Some(name) = &laid.line.label {
        let key = Key::Named(name.again());
        labels.push(Label { key, part, offset })?;
    }
    if makes_label(&laid.line.statement) {
        let key = Key::Made(laid.made);
        labels.push(Label { key, part, offset })?;
    }
    Ok(())
}

/// Keeps where the label of the line is.
#[tactic(auto, using(crate::proofs::SymbolLemmas::or_none))]
pub fn put_spot<'a>(spots: &mut Known<'a, Spot>, laid: &Laid<'a>) -> Result<(), AllocError>
    ensures { OnOk result ((q : List ℕ) → known spots.new q ≡ or_else (known spots.old q) (spot_here laid.now.part laid.now.offset laid.now.line.label q)) }
{
    let Some(part) = laid.part else {
        return Ok(());
    };
    if let Some(name) = &laid.line.label {
        let offset = laid.offset;
        spots.add(name.bytes(), Spot { part, offset })?;
    }
    Ok(())
}

/// Keeps the binding that the statement gives a name.
#[tactic(auto, using(crate::proofs::SymbolLemmas::or_none))]
pub fn put_binding<'a>(
    bindings: &mut Known<'a, Binding>,
    statement: &Statement<'a>,
) -> Result<(), AllocError>
    ensures { OnOk result ((q : List ℕ) → known bindings.new q ≡ or_else (known bindings.old q) (given q statement.now)) }
{
    if let Statement::Bind(binding, name) = statement {
        bindings.add(name.bytes(), *binding)?;
    }
    Ok(())
}

/// Appends the names that a line mentions, its label too.
pub fn put_mentions<'a>(names: &mut Vec<Text<'a>>, line: &Line<'a>) -> Result<(), AllocError>
    ensures { OnOk result (names.new.items ≡ names.old.items ++ names_in line.now) }
{
    if let Some(name) = &line.label {
        names.push(name.again())?;
    }
    match &line.statement {
        Statement::Bind(_, name) => names.push(name.again())?,
        Statement::Bytes(_, block) => put_targets(names, block.marks.as_slice())?,
        _ => (),
    }
    Ok(())
}

fn put_targets<'a>(names: &mut Vec<Text<'a>>, marks: &[Mark<'a>]) -> Result<(), AllocError>
    ensures { OnOk result (names.new.items ≡ names.old.items ++ flat_map (λ m. target_names m.fix.target) marks.now) }
{
    for mark in marks {
        if let Target::Named(name) = &mark.fix.target {
            names.push(name.again())?;
        }
    }
    Ok(())
}
