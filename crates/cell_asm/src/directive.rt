//! What a directive says, from its operands.

ghost use Rattle.std.specs.Prelude.{◌≡◌, ◌≤◌, ◌<◌, IfOk};
ghost use Rattle.cell_asm.specs.Faults.{Gives, joined, with_value};
ghost use Rattle.cell_asm.specs.Statements.{layout as layout_by, layout_of as layout_with, stored as stored_of, filled as filled_of, datum as datum_of, numbers as numbers_of, count as count_of, unit as unit_of, directed as directed_of};
ghost use Rattle.cell_asm.specs.Blocks.{appended, drafted};
ghost use Rattle.cell_num.specs.Bits.{modulo_2};

use crate::kind::{AsmKind, Stop, both, or_stop};
use crate::mnemonic::{Directive, Width};
use crate::operand::{Expression, Immediate, Modifier, Operand};
use crate::statement::{Block, Content, Draft, Fix, Piece, Statement};
use crate::wanted::{entry, fix, name, within};
use cell_num::RelKind;
use std::alloc::{AllocError, Global};

/// The most that `.align` takes: pages have 2^12 bytes.
const MOST_ALIGNMENT: u128 = 12;

/// How many bytes a number has, and the kinds of its entries: an address, and the two of a
/// difference.
#[derive(Clone, Copy, Debug, PartialEq, Eq)]
pub struct Layout {
    pub bytes: u8,
    pub content: Content,
    pub address: Option<RelKind>,
    pub add: RelKind,
    pub sub: RelKind,
}

fn layout_row(
    bytes: u8,
    content: Content,
    address: Option<RelKind>,
    add: RelKind,
    sub: RelKind,
) -> Layout
    ensures { result ≡ layout_by bytes content address add sub }
{
    Layout {
        bytes,
        content,
        address,
        add,
        sub,
    }
}

fn layout_of(width: Width) -> Layout
    ensures { result ≡ layout_with width }
{
    use Content::{Narrow, Wide};
    use RelKind::{Abs32, Abs64, Add8, Add16, Add32, Add64, Sub8, Sub16, Sub32, Sub64};
    match width {
        Width::Byte => layout_row(1, Narrow, None, Add8, Sub8),
        Width::Half => layout_row(2, Narrow, None, Add16, Sub16),
        Width::Word => layout_row(4, Wide, Some(Abs32), Add32, Sub32),
        Width::Quad => layout_row(8, Wide, Some(Abs64), Add64, Sub64),
    }
}

/// The bytes of a number that fits as a signed or as an unsigned one.
fn stored(width: Width, number: i128) -> Result<u64, AsmKind>
    ensures { result ≡ stored_of width number }
{
    match width {
        Width::Byte => Ok(within(-0x80, 0xff, number)?.rem_euclid(1 << 8) as u64),
        Width::Half => Ok(within(-0x8000, 0xffff, number)?.rem_euclid(1 << 16) as u64),
        Width::Word => Ok(within(-0x8000_0000, 0xffff_ffff, number)?.rem_euclid(1 << 32) as u64),
        Width::Quad => Ok(
            within(-0x8000_0000_0000_0000, 0xffff_ffff_ffff_ffff, number)?.rem_euclid(
                1 << 64,
            ) as u64,
        ),
    }
}

fn filled<'a>(width: Width, value: u64, fix: Option<Fix<'a>>, second: Option<Fix<'a>>) -> Piece<'a>
    ensures { result ≡ filled_of width value fix.entry second.entry }
{
    Piece {
        width: layout_of(width).bytes,
        value,
        fix,
        second,
    }
}

/// One of a list of numbers: a number, an address, or a difference of two.
fn datum<'a>(width: Width, operand: &Operand<'a>) -> Result<Piece<'a>, AsmKind>
    ensures { result ≡ datum_of width operand.now }
{
    match operand {
        Operand::Value(Immediate::Number(number)) => {
            Ok(filled(width, stored(width, *number)?, None, None))
        }
        Operand::Value(Immediate::Part(Modifier::Whole, Expression::Difference(left, right))) => {
            let plus = fix(layout_of(width).add, left, 0);
            let minus = fix(layout_of(width).sub, right, 0);
            Ok(filled(width, 0, Some(plus), Some(minus)))
        }
        Operand::Value(Immediate::Part(Modifier::Whole, expression)) => {
            let fix = entry(layout_of(width).address, expression)?;
            Ok(filled(width, 0, Some(fix), None))
        }
        _ => Err(AsmKind::Operand),
    }
}

/// The bytes behind which one number more stands, or the fault that is answered.
fn added<'a>(
    draft: Result<Draft<'a>, AsmKind>,
    piece: Result<Piece<'a>, AsmKind>,
) -> Result<Result<Draft<'a>, AsmKind>, AllocError>
    ensures { IfOk result (λ new. with_value drafted new ≡ joined appended (with_value drafted draft.entry) piece.entry) }
{
    match both(draft, piece) {
        Ok((mut draft, piece)) => {
            draft.add(piece)?;
            Ok(Ok(draft))
        }
        Err(kind) => Ok(Err(kind)),
    }
}

/// One number or more.
fn numbers<'a>(alloc: Global, width: Width, operands: &[Operand<'a>]) -> Result<Block<'a>, Stop>
    ensures { Gives result (numbers_of width operands.now) }
{
    if operands.is_empty() {
        return Err(Stop::Fault(AsmKind::Operand));
    }
    let mut draft = Ok(Draft::new(alloc));
    for operand in operands {
        draft = added(draft, datum(width, operand))?;
    }
    Ok(or_stop(draft)?.finished())
}

/// A number that isn't negative.
fn count(operand: &Operand<'_>) -> Result<u128, AsmKind>
    ensures { result ≡ count_of operand.now }
{
    match operand {
        Operand::Value(Immediate::Number(number)) if *number >= 0 => Ok(*number as u128),
        Operand::Value(Immediate::Number(_)) => Err(AsmKind::Range),
        _ => Err(AsmKind::Operand),
    }
}

/// The multiple of an alignment, from its power of two.
fn alignment(operand: &Operand<'_>) -> Result<u16, AsmKind>
    ensures { result ≡ unit_of operand.now }
{
    match count(operand) {
        Ok(power) if power <= MOST_ALIGNMENT => Ok(1 << (power as u32)),
        Ok(_) => Err(AsmKind::Range),
        Err(kind) => Err(kind),
    }
}

/// What the directive says.
pub fn directed<'a>(
    alloc: Global,
    directive: Directive,
    operands: &[Operand<'a>],
) -> Result<Statement<'a>, Stop>
    ensures { Gives result (directed_of directive operands.now) }
{
    match (directive, operands) {
        (Directive::Choose(part), []) => Ok(Statement::Choose(part)),
        (Directive::Numbers(width), _) => {
            let block = numbers(alloc, width, operands)?;
            Ok(Statement::Bytes(layout_of(width).content, block))
        }
        (Directive::Bind(binding), [operand]) => {
            Ok(Statement::Bind(binding, or_stop(name(operand))?))
        }
        (Directive::Zeros, [operand]) => Ok(Statement::Zeros(or_stop(count(operand))?)),
        (Directive::Align, [operand]) => Ok(Statement::Align(or_stop(alignment(operand))?)),
        _ => Err(Stop::Fault(AsmKind::Operand)),
    }
}
