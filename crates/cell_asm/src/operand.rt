//! Operands, as they are spelled.

ghost use Rattle.std.specs.Prelude.{◌≡◌, ◌-◌, ◌≤◌, not, length};
ghost use Rattle.std.specs.List.{position_or_len, suffix_len};
ghost use Rattle.cell_asm.specs.Operands.{expression as expression_of, with_rest as with_rest_of, less as less_of, is_sign as sign, modifier as modifier_of, immediate as immediate_of, operand as operand_of, modified as modified_of, memory as memory_of, front as front_of, inside as inside_of, is_open as opens};

use crate::mnemonic::row_in;
use crate::names::{is_name, register};
use crate::number::number;
use crate::text::Text;

/// `NAME`, `NAME+N` and `NAME-N`, or `NAME-NAME`.
#[derive(Drop)]
pub enum Expression<'a> {
    Name(Text<'a>),
    Sum(Text<'a>, i128),
    Difference(Text<'a>, Text<'a>),
}

/// An address, or which part of it `%word(EXPR)` asks for; or the upper part of the address of its slot.
#[derive(Clone, Copy, Debug, PartialEq, Eq)]
pub enum Modifier {
    Whole,
    Hi,
    Lo,
    PcrelHi,
    PcrelLo,
    GotPcrelHi,
}

/// A number, or an address or a part of one.
#[derive(Drop)]
pub enum Immediate<'a> {
    Number(i128),
    Part(Modifier, Expression<'a>),
}

/// An operand, or `I(reg)`.
#[derive(Drop)]
pub enum Operand<'a> {
    Value(Immediate<'a>),
    Memory(Immediate<'a>, u8),
}

/// The operand that the text spells.
pub fn read_operand<'a>(text: &'a [u8]) -> Option<Operand<'a>>
    ensures { result ≡ operand_of text.now }
{
    if let Some(value) = read_immediate(text) {
        Some(Operand::Value(value))
    } else if let Some(plain) = read_expression(text) {
        Some(Operand::Value(Immediate::Part(Modifier::Whole, plain)))
    } else {
        memory(text)
    }
}

/// `I(reg)`
fn memory<'a>(text: &'a [u8]) -> Option<Operand<'a>>
    ensures { result ≡ memory_of text.now }
{
    if !text.ends_with(b")") {
        return None;
    }
    let offset = read_immediate(front(text))?;
    let base = register(inside(text))?;
    Some(Operand::Memory(offset, base))
}

fn read_immediate<'a>(text: &'a [u8]) -> Option<Immediate<'a>>
    ensures { result ≡ immediate_of text.now }
{
    match number(text) {
        Some(value) => Some(Immediate::Number(value)),
        None => modified(text),
    }
}

/// `%word(EXPR)`
fn modified<'a>(text: &'a [u8]) -> Option<Immediate<'a>>
    ensures { result ≡ modified_of text.now }
{
    if !text.ends_with(b")") {
        return None;
    }
    let modifier = read_modifier(front(text))?;
    let of = read_expression(inside(text))?;
    Some(Immediate::Part(modifier, of))
}

/// The parts of an address.
static MODIFIERS: [(&[u8], Modifier); 5] = [
    (b"%hi", Modifier::Hi),
    (b"%lo", Modifier::Lo),
    (b"%pcrel_hi", Modifier::PcrelHi),
    (b"%pcrel_lo", Modifier::PcrelLo),
    (b"%got_pcrel_hi", Modifier::GotPcrelHi),
];

fn read_modifier(text: &[u8]) -> Option<Modifier>
    ensures { result ≡ modifier_of text.now }
{
    row_in(&MODIFIERS, text)
}

/// What stands before the last `(`.
fn front(text: &[u8]) -> &[u8]
    ensures { result.now ≡ front_of text.now }
{
    &text[..after_open(text).saturating_sub(1)]
}

/// What stands between the last `(` and the last byte.
fn inside(text: &[u8]) -> &[u8]
    ensures { result.now ≡ inside_of text.now }
{
    let rest = &text[after_open(text)..];
    &rest[..rest.len().saturating_sub(1)]
}

/// The place after the last `(`, or 0.
#[tactic(auto, using(crate::proofs::ListLemmas::ends))]
fn after_open(text: &[u8]) -> usize
    ensures place { result ≡ length text.now - suffix_len (λ b. not (opens b)) text.now }
    ensures inside { result ≤ length text.now }
{
    let mut after = 0;
    for (i, b) in text.iter().enumerate() {
        if *b == b'(' {
            after = i + 1;
        }
    }
    after
}

fn read_expression<'a>(text: &'a [u8]) -> Option<Expression<'a>>
    ensures { result ≡ expression_of text.now }
{
    let end = name_end(text);
    let name = &text[..end];
    if is_name(name) {
        with_rest(name, &text[end..])
    } else {
        None
    }
}

/// The place of the first sign, or the length.
#[tactic(auto, using(crate::proofs::ListLemmas::ends))]
fn name_end(text: &[u8]) -> usize
    ensures place { result ≡ position_or_len sign text.now }
    ensures inside { result ≤ length text.now }
{
    for (i, b) in text.iter().enumerate() {
        if *b == b'+' || *b == b'-' {
            return i;
        }
    }
    text.len()
}

/// The expression of a name and what stands behind it.
fn with_rest<'a>(name: &'a [u8], rest: &'a [u8]) -> Option<Expression<'a>>
    ensures { result ≡ with_rest_of name.now rest.now }
{
    let name = Text::of(name);
    match rest {
        [] => Some(Expression::Name(name)),
        [b'+', text @ ..] => {
            let by = number(text)?;
            Some(Expression::Sum(name, by))
        }
        [_, text @ ..] => less(name, text),
    }
}

/// The expression of a name and what stands behind a minus.
fn less<'a>(name: Text<'a>, text: &'a [u8]) -> Option<Expression<'a>>
    ensures { result ≡ less_of name.entry text.now }
{
    match number(text) {
        Some(by) => Some(Expression::Sum(name, -by)),
        None if is_name(text) => Some(Expression::Difference(name, Text::of(text))),
        None => None,
    }
}
