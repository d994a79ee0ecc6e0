//! Words as instructions.

ghost use Rattle.std.specs.Prelude.{◌≡◌, ◌<◌, ◌≤◌, ◌*◌, ◌-ℤ◌, pos, nat_lt, if◌then◌else◌};
ghost use Rattle.cell_isa.specs.Instruction.{decode as decoded, instruction as instruction_of, fields_at, immediate as immediate_of, alone as alone_of};
ghost use Rattle.cell_isa.specs.Table.{row_of};

use crate::format::{Format, has_rd, has_rs1, has_rs2};
use crate::insn::{Insn, Op};
use crate::table::{Row, operation, row_of_op};
use cell_num::Field;

/// The instruction that a word is: `None` where no row of the table has it.
#[tactic(auto, unfolding(crate::specs::Instruction::decode))]
pub fn decode(word: u32) -> Option<Insn>
    ensures { result ≡ decoded word }
{
    let op = operation(word)?;
    Some(instruction(word, op))
}

/// An instruction that uses no field.
fn alone(op: Op) -> Insn
    ensures { result ≡ alone_of op }
{
    Insn {
        op,
        rd: 0,
        rs1: 0,
        rs2: 0,
        imm: 0,
    }
}

/// The instruction of an operation that stands in a word of its row.
fn instruction(word: u32, op: Op) -> Insn
    ensures { result ≡ instruction_of word op (row_of op) }
{
    match row_of_op(op) {
        Row::Word(_) => alone(op),
        Row::Fields { format, .. } => fields(word, op, format),
    }
}

/// The fields that an operation of a format uses.
fn fields(word: u32, op: Op, format: Format) -> Insn
    ensures { result ≡ fields_at op format word }
{
    Insn {
        op,
        rd: register(has_rd(format), Field::<11, 7>::get(word)),
        rs1: register(has_rs1(format), Field::<19, 15>::get(word)),
        rs2: register(has_rs2(format), Field::<24, 20>::get(word)),
        imm: immediate(word, format),
    }
}

/// A register where it is used, and else 0.
fn register(used: bool, number: u32) -> u8
    requires { number < 32 }
    ensures { result ≡ (if used then number else 0) }
{
    if used { number as u8 } else { 0 }
}

/// A number below twice `limit` as a signed one, whose highest bit is the sign.
fn signed(number: u32, limit: u32) -> i32
    requires below { number < 2 * limit }
    requires small { limit ≤ 0x10_0000 }
    ensures { result ≡ (if nat_lt number limit then pos number else pos number -ℤ pos (2 * limit)) }
{
    if number < limit {
        number as i32
    } else {
        number as i32 - (2 * limit) as i32
    }
}

fn immediate_i(word: u32) -> i32
    ensures { result ≡ immediate_of Format.Immediate word }
{
    signed(Field::<31, 20>::get(word), 0x800)
}

fn immediate_s(word: u32) -> i32
    ensures { result ≡ immediate_of Format.Store word }
{
    signed(
        (Field::<31, 25>::get(word) << 5) + Field::<11, 7>::get(word),
        0x800,
    )
}

fn immediate_b(word: u32) -> i32
    ensures { result ≡ immediate_of Format.Branch word }
{
    signed(
        (Field::<31, 31>::get(word) << 12)
            + (Field::<7, 7>::get(word) << 11)
            + (Field::<30, 25>::get(word) << 5)
            + (Field::<11, 8>::get(word) << 1),
        0x1000,
    )
}

fn immediate_j(word: u32) -> i32
    ensures { result ≡ immediate_of Format.Jump word }
{
    signed(
        (Field::<31, 31>::get(word) << 20)
            + (Field::<19, 12>::get(word) << 12)
            + (Field::<20, 20>::get(word) << 11)
            + (Field::<30, 21>::get(word) << 1),
        0x10_0000,
    )
}

/// The immediate of a word in a format.
fn immediate(word: u32, format: Format) -> i32
    ensures { result ≡ immediate_of format word }
{
    match format {
        Format::Upper => Field::<31, 12>::get(word) as i32,
        Format::Jump => immediate_j(word),
        Format::Immediate => immediate_i(word),
        Format::Branch => immediate_b(word),
        Format::Store => immediate_s(word),
        Format::Register => 0,
        Format::Shift => Field::<25, 20>::get(word) as i32,
        Format::ShiftWord => Field::<24, 20>::get(word) as i32,
    }
}
