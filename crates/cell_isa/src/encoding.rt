//! Instructions as words.

ghost use Rattle.std.specs.Prelude.{◌≡◌, ◌<◌, ◌+◌, ◌*◌, ◌^◌, true};
ghost use Rattle.cell_isa.specs.declared.table.Row.TheVariants.{Fields as FieldsOf};
ghost use Rattle.cell_isa.specs.Instruction.{encode as encoded, have_room as room_for, are_unused as unused, is_register as register_of, does_fit as fits_in, is_even as even, immediate_bits as bits_of, word_with as word_of};
ghost use Rattle.cell_isa.specs.Sound.{is_sound};
ghost use Rattle.cell_num.specs.Bits.{modulo_2};

use crate::format::{Format, has_rd, has_rs1, has_rs2};
use crate::insn::Insn;
use crate::table::{Row, row_of_op};
use cell_num::Field;

/// The word of an instruction: `None` where a register is above 31, the immediate has no room in the format, or a field
/// that the instruction does not use is not 0.
pub fn encode(insn: &Insn) -> Option<u32>
    ensures { result ≡ encoded insn.now }
{
    match row_of_op(insn.op) {
        Row::Word(word) if are_unused(insn) => Some(word),
        Row::Fields {
            format,
            opcode,
            funct3,
            funct7,
        } if have_room(insn, format) => Some(word_with(insn, format, opcode, funct3, funct7)),
        _ => None,
    }
}

fn are_unused(insn: &Insn) -> bool
    ensures { result ≡ unused insn.now }
{
    insn.rd == 0 && insn.rs1 == 0 && insn.rs2 == 0 && insn.imm == 0
}

fn is_register(used: bool, number: u8) -> bool
    ensures { result ≡ register_of used number }
{
    if used { number < 32 } else { number == 0 }
}

fn is_even(number: i32) -> bool
    ensures { result ≡ even number }
{
    number.rem_euclid(2) == 0
}

/// Whether the format has room for the immediate.
fn does_fit(format: Format, number: i32) -> bool
    ensures { result ≡ fits_in format number }
{
    match format {
        Format::Upper => 0 <= number && number <= 0xf_ffff,
        Format::Jump => is_even(number) && -0x10_0000 <= number && number <= 0xf_fffe,
        Format::Branch => is_even(number) && -0x1000 <= number && number <= 0xffe,
        Format::Immediate | Format::Store => -0x800 <= number && number <= 0x7ff,
        Format::Register => number == 0,
        Format::Shift => 0 <= number && number <= 63,
        Format::ShiftWord => 0 <= number && number <= 31,
    }
}

/// Whether the format has room for each field.
fn have_room(insn: &Insn, format: Format) -> bool
    ensures { result ≡ room_for insn.now format }
{
    is_register(has_rd(format), insn.rd)
        && is_register(has_rs1(format), insn.rs1)
        && is_register(has_rs2(format), insn.rs2)
        && does_fit(format, insn.imm)
}

/// The bits of an immediate, each in its place. `number` is the immediate modulo 2^32.
fn immediate_bits(format: Format, number: u32) -> u32
    ensures { result ≡ bits_of format number }
{
    match format {
        Format::Upper => Field::<19, 0>::get(number) << 12,
        Format::Jump => immediate_bits_j(number),
        Format::Immediate => Field::<11, 0>::get(number) << 20,
        Format::Branch => immediate_bits_b(number),
        Format::Store => { (Field::<11, 5>::get(number) << 25) + (Field::<4, 0>::get(number) << 7) }
        Format::Register => 0,
        Format::Shift => Field::<5, 0>::get(number) << 20,
        Format::ShiftWord => Field::<4, 0>::get(number) << 20,
    }
}

fn immediate_bits_j(number: u32) -> u32
    ensures { result ≡ bits_of Format.Jump number }
{
    (Field::<20, 20>::get(number) << 31)
        + (Field::<10, 1>::get(number) << 21)
        + (Field::<11, 11>::get(number) << 20)
        + (Field::<19, 12>::get(number) << 12)
}

fn immediate_bits_b(number: u32) -> u32
    ensures { result ≡ bits_of Format.Branch number }
{
    (Field::<12, 12>::get(number) << 31)
        + (Field::<10, 5>::get(number) << 25)
        + (Field::<4, 1>::get(number) << 8)
        + (Field::<11, 11>::get(number) << 7)
}

/// A signed number modulo 2^32.
fn modulo(number: i32) -> u32
    ensures { result ≡ modulo_2 32 number }
{
    i64::from(number).rem_euclid(1 << 32) as u32
}

/// The numbers of a row, each in its place.
fn number_bits(opcode: u32, funct3: u32, funct7: u32) -> u32
    requires opcode { opcode < 128 }
    requires funct3 { funct3 < 8 }
    requires funct7 { funct7 < 128 }
    ensures { result ≡ opcode + funct3 * 2 ^ 12 + funct7 * 2 ^ 25 }
{
    opcode + (funct3 << 12) + (funct7 << 25)
}

/// Registers, each in its place.
fn register_bits(rd: u8, rs1: u8, rs2: u8) -> u32
    ensures { result ≡ rd * 2 ^ 7 + rs1 * 2 ^ 15 + rs2 * 2 ^ 20 }
{
    (u32::from(rd) << 7) + (u32::from(rs1) << 15) + (u32::from(rs2) << 20)
}

/// The numbers of the row, the registers and the immediate, each in its place.
fn word_with(insn: &Insn, format: Format, opcode: u32, funct3: u32, funct7: u32) -> u32
    requires numbers { is_sound (FieldsOf format opcode funct3 funct7) ≡ true }
    requires room { room_for insn.now format ≡ true }
    ensures { result ≡ word_of insn.now format opcode funct3 funct7 }
{
    number_bits(opcode, funct3, funct7)
        + register_bits(insn.rd, insn.rs1, insn.rs2)
        + immediate_bits(format, modulo(insn.imm))
}
