//! A line: its label, its statement, its comment.

ghost use Rattle.std.specs.Prelude.{◌≡◌, ◌≤◌, ◌-◌, ◌==◌, map, length, not, IfOk};
ghost use Rattle.std.specs.List.{prefix_len, suffix_len, slice_split};
ghost use Rattle.cell_asm.specs.Faults.{Gives};
ghost use Rattle.cell_asm.specs.Lines.{is_blank as blank, is_inked as inked, trimmed as trimmed_of, code_of as code_of_line, first_word as first_word_of, after_word as after_word_of, operand_texts, spelled, operands as operands_of, statement_in as statement_in_text, has_label as labelled, label_name, line_of};
ghost use Rattle.cell_asm.specs.Statements.{statement as statement_of};

use crate::directive::directed;
use crate::instruction::instruction;
use crate::kind::{AsmKind, Stop};
use crate::mnemonic::{read_directive, read_mnemonic};
use crate::names::is_name;
use crate::operand::{Operand, read_operand};
use crate::statement::{Content, Line, Statement};
use crate::text::Text;
use cell_num::Listed;
use std::alloc::{AllocError, Global};

/// Reads a line. Of several faults the first in the order Word, Operand, Range is answered.
pub fn read_line<'a>(alloc: Global, text: &'a [u8]) -> Result<Line<'a>, Stop>
    ensures { Gives result (line_of text.now) }
{
    let code = code_of(text);
    if !has_label(code) {
        let statement = read_statement(alloc, code)?;
        return Ok(Line {
            label: None,
            statement,
        });
    }
    let Some(label) = read_label(first_word(code)) else {
        return Err(Stop::Fault(AsmKind::Word));
    };
    let statement = read_statement(alloc, after_word(code))?;
    Ok(Line {
        label: Some(label),
        statement,
    })
}

/// The line without its comment and the blanks at its ends.
fn code_of(text: &[u8]) -> &[u8]
    ensures { result.now ≡ code_of_line text.now }
{
    trimmed(&text[..comment_start(text)])
}

/// The place of the first `#`, or the length.
#[tactic(auto, using(crate::proofs::ListLemmas::ends))]
fn comment_start(text: &[u8]) -> usize
    ensures place { result ≡ prefix_len (λ b. not (b == 35)) text.now }
    ensures inside { result ≤ length text.now }
{
    for (i, b) in text.iter().enumerate() {
        if *b == b'#' {
            return i;
        }
    }
    text.len()
}

fn is_blank(b: u8) -> bool
    ensures { result ≡ blank b }
{
    b == b' ' || b == b'\t'
}

/// The text without the blanks at its ends.
fn trimmed(text: &[u8]) -> &[u8]
    ensures { result.now ≡ trimmed_of text.now }
{
    let rest = &text[blanks_before(text)..];
    &rest[..end_of_ink(rest)]
}

/// How many blanks the text begins with.
#[tactic(auto, using(crate::proofs::ListLemmas::ends))]
fn blanks_before(text: &[u8]) -> usize
    ensures place { result ≡ prefix_len blank text.now }
    ensures inside { result ≤ length text.now }
{
    for (i, b) in text.iter().enumerate() {
        if !is_blank(*b) {
            return i;
        }
    }
    text.len()
}

/// The place after the last byte that isn't blank.
#[tactic(auto, using(crate::proofs::ListLemmas::ends))]
fn end_of_ink(text: &[u8]) -> usize
    ensures place { result ≡ length text.now - suffix_len blank text.now }
    ensures inside { result ≤ length text.now }
{
    let mut end = 0;
    for (i, b) in text.iter().enumerate() {
        if !is_blank(*b) {
            end = i + 1;
        }
    }
    end
}

/// The place of the first blank, or the length.
#[tactic(auto, using(crate::proofs::ListLemmas::ends))]
fn word_end(text: &[u8]) -> usize
    ensures place { result ≡ prefix_len inked text.now }
    ensures inside { result ≤ length text.now }
{
    for (i, b) in text.iter().enumerate() {
        if is_blank(*b) {
            return i;
        }
    }
    text.len()
}

fn first_word(text: &[u8]) -> &[u8]
    ensures { result.now ≡ first_word_of text.now }
{
    &text[..word_end(text)]
}

fn after_word(text: &[u8]) -> &[u8]
    ensures { result.now ≡ after_word_of text.now }
{
    trimmed(&text[word_end(text)..])
}

/// Whether the first word ends in a colon.
fn has_label(code: &[u8]) -> bool
    ensures { result ≡ labelled code.now }
{
    first_word(code).ends_with(b":")
}

/// The name before the colon.
fn read_label<'a>(word: &'a [u8]) -> Option<Text<'a>>
    ensures { result ≡ label_name word.now }
{
    let name = &word[..word.len().saturating_sub(1)];
    is_name(name).then_some(Text::of(name))
}

/// The statement of a text that begins with its word.
fn read_statement<'a>(alloc: Global, text: &'a [u8]) -> Result<Statement<'a>, Stop>
    ensures { Gives result (statement_in_text text.now) }
{
    if text.is_empty() {
        return Ok(Statement::Nothing);
    }
    let operands = read_operands(alloc, after_word(text))?;
    statement(alloc, first_word(text), operands.as_slice())
}

/// The operands between the commas; there are none where nothing follows the word.
fn read_operands<'a>(alloc: Global, text: &'a [u8]) -> Result<Listed<Operand<'a>>, Stop>
    ensures { Gives result (operands_of (map spelled (operand_texts text.now))) }
{
    if text.is_empty() {
        return Ok(Listed::from_vec(Vec::new(alloc)));
    }
    let parts = parts_of(alloc, text)?;
    read_parts(alloc, parts.as_slice())
}

/// What stands between the commas.
fn parts_of<'a>(alloc: Global, text: &'a [u8]) -> Result<Vec<&'a [u8]>, AllocError>
    ensures { IfOk result (λ parts. map (λ part. part.now) parts.items ≡ slice_split (λ b. b == 44) text.now) }
{
    text.split(|b| *b == b',').collect(alloc)
}

fn read_parts<'a>(alloc: Global, parts: &[&'a [u8]]) -> Result<Listed<Operand<'a>>, Stop>
    ensures { Gives result (operands_of (map (λ part. spelled (trimmed_of part.now)) parts.now)) }
{
    let mut operands = Vec::new(alloc);
    for part in parts {
        match read_operand(trimmed(part)) {
            Some(operand) => operands.push(operand)?,
            None => return Err(Stop::Fault(AsmKind::Word)),
        }
    }
    Ok(Listed::from_vec(operands))
}

/// What the word and the operands say.
fn statement<'a>(
    alloc: Global,
    word: &[u8],
    operands: &[Operand<'a>],
) -> Result<Statement<'a>, Stop>
    ensures { Gives result (statement_of word.now operands.now) }
{
    if let Some(directive) = read_directive(word) {
        return directed(alloc, directive, operands);
    }
    let Some(mnemonic) = read_mnemonic(word) else {
        return Err(Stop::Fault(AsmKind::Word));
    };
    let block = instruction(alloc, mnemonic, operands)?;
    Ok(Statement::Bytes(Content::Code, block))
}
