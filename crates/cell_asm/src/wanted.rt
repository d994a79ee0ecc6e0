//! What is wanted of one operand.

ghost use Rattle.std.specs.Prelude.{◌≡◌, ◌≤◌, ◌<◌, ◌≤ℤ◌, pos, negsuc, IfOk, if◌then◌else◌};
ghost use Rattle.cell_asm.specs.Wanted.{register as register_of, name as name_of, within as within_of, is_bare as bare, fix as fix_of, entry as entry_of, fitting as fitting_of, kind_of as kind_with, plain as plain_of, field as field_of, value as value_of, memory as memory_of};

use crate::kind::AsmKind;
use crate::mnemonic::Form;
use crate::names;
use crate::operand::{Expression, Immediate, Modifier, Operand};
use crate::statement::{Field, Fix, Target};
use crate::text::Text;
use cell_num::RelKind;

/// Twelve bits hold a number from -2048 to 2047.
const LEAST_LOW: i128 = -0x800;

const MOST_LOW: i128 = 0x7ff;

/// Twenty bits hold a number up to this one.
const MOST_UPPER: i128 = 0xf_ffff;

/// A register, below 32.
pub fn register(operand: &Operand<'_>) -> Result<u8, AsmKind>
    ensures { result ≡ register_of operand.now }
{
    match operand {
        Operand::Value(Immediate::Part(Modifier::Whole, Expression::Name(name))) => {
            names::register(name.bytes()).ok_or(AsmKind::Word)
        }
        _ => Err(AsmKind::Operand),
    }
}

pub fn name<'a>(operand: &Operand<'a>) -> Result<Text<'a>, AsmKind>
    ensures { result ≡ name_of operand.now }
{
    match operand {
        Operand::Value(Immediate::Part(Modifier::Whole, Expression::Name(name))) => {
            Ok(name.again())
        }
        _ => Err(AsmKind::Operand),
    }
}

/// The number, where it is from `least` to `most`.
pub fn within(least: i128, most: i128, number: i128) -> Result<i128, AsmKind>
    ensures number { result ≡ within_of least most number }
    ensures least { IfOk result (λ n. least ≤ℤ n) }
    ensures most { IfOk result (λ n. n ≤ℤ most) }
{
    if least <= number && number <= most {
        Ok(number)
    } else {
        Err(AsmKind::Range)
    }
}

/// Whether no number is added to the address of the kind's symbol.
fn is_bare(kind: RelKind) -> bool
    ensures { result ≡ bare kind }
{
    match kind {
        RelKind::Branch
        | RelKind::Jal
        | RelKind::PcrelLo12I
        | RelKind::PcrelLo12S
        | RelKind::GotHi20 => true,
        _ => false,
    }
}

/// An entry for a name, to whose address a number is added.
pub fn fix<'a>(kind: RelKind, name: &Text<'a>, addend: i64) -> Fix<'a>
    ensures { result ≡ fix_of kind name.now addend }
{
    Fix {
        kind,
        target: Target::Named(name.again()),
        addend,
    }
}

/// The entry of that kind, where there is one for the expression.
pub fn entry<'a>(kind: Option<RelKind>, expression: &Expression<'a>) -> Result<Fix<'a>, AsmKind>
    ensures { result ≡ entry_of kind expression.now }
{
    match (kind, expression) {
        (Some(kind), Expression::Name(name)) => Ok(fix(kind, name, 0)),
        (Some(kind), Expression::Sum(name, by)) if !is_bare(kind) => {
            let addend = within(i128::from(i64::MIN), i128::from(i64::MAX), *by)?;
            Ok(fix(kind, name, addend as i64))
        }
        _ => Err(AsmKind::Operand),
    }
}

/// The number, where it fits.
fn fitting(form: Form, number: i128) -> Result<i32, AsmKind>
    ensures { result ≡ fitting_of form number }
{
    match form {
        Form::Upper | Form::UpperPcrel => Ok(within(0, MOST_UPPER, number)? as i32),
        Form::Shift => Ok(within(0, 63, number)? as i32),
        Form::ShiftWord => Ok(within(0, 31, number)? as i32),
        Form::Low | Form::LowStore | Form::Small => {
            Ok(within(LEAST_LOW, MOST_LOW, number)? as i32)
        }
        _ => Err(AsmKind::Operand),
    }
}

/// The kind of the entry for an address or a part of one.
fn kind_of(form: Form, modifier: Modifier) -> Option<RelKind>
    ensures { result ≡ kind_with form modifier }
{
    match (form, modifier) {
        (Form::Low, Modifier::Lo) => Some(RelKind::Lo12I),
        (Form::Low, Modifier::PcrelLo) => Some(RelKind::PcrelLo12I),
        (Form::LowStore, Modifier::Lo) => Some(RelKind::Lo12S),
        (Form::LowStore, Modifier::PcrelLo) => Some(RelKind::PcrelLo12S),
        (Form::Upper, Modifier::Hi) => Some(RelKind::Hi20),
        (Form::UpperPcrel, Modifier::PcrelHi) => Some(RelKind::PcrelHi20),
        (Form::UpperPcrel, Modifier::GotPcrelHi) => Some(RelKind::GotHi20),
        (Form::Branch, Modifier::Whole) => Some(RelKind::Branch),
        (Form::Jump, Modifier::Whole) => Some(RelKind::Jal),
        (Form::Call, Modifier::Whole) => Some(RelKind::CallPlt),
        (Form::Address, Modifier::Whole) => Some(RelKind::PcrelHi20),
        _ => None,
    }
}

/// A number without an entry.
pub fn plain<'a>(number: i32) -> Field<'a>
    ensures { result ≡ plain_of number }
{
    Field { number, fix: None }
}

fn field<'a>(form: Form, immediate: &Immediate<'a>) -> Result<Field<'a>, AsmKind>
    ensures { result ≡ field_of form immediate.now }
{
    match immediate {
        Immediate::Number(number) => Ok(plain(fitting(form, *number)?)),
        Immediate::Part(modifier, expression) => {
            let fix = entry(kind_of(form, *modifier), expression)?;
            Ok(Field {
                number: 0,
                fix: Some(fix),
            })
        }
    }
}

pub fn value<'a>(form: Form, operand: &Operand<'a>) -> Result<Field<'a>, AsmKind>
    ensures { result ≡ value_of form operand.now }
{
    match operand {
        Operand::Value(value) => field(form, value),
        Operand::Memory(_, _) => Err(AsmKind::Operand),
    }
}

/// `I(rs1)`: the field, and the register.
pub fn memory<'a>(form: Form, operand: &Operand<'a>) -> Result<(Field<'a>, u8), AsmKind>
    ensures { result ≡ memory_of form operand.now }
{
    match operand {
        Operand::Memory(value, base) => {
            let field = field(form, value)?;
            Ok((field, *base))
        }
        Operand::Value(_) => Err(AsmKind::Operand),
    }
}
