//! The fields of an instruction's word, each by itself, for a hart that takes no more of them than it needs.
//! RISC-V unprivileged manual, "Base Instruction Formats" and "Immediate Encoding Variants"
#![tactic(auto)]

ghost use Rattle.std.specs.Prelude.{◌≡◌, ◌<◌, ◌≤◌, ◌*◌, ◌-ℤ◌, pos, nat_lt, if◌then◌else◌};
ghost use Rattle.cell_num.specs.Bits.{bits_at};
ghost use Rattle.cell_isa.specs.declared.format.Format.TheVariants.{Branch, Immediate, Jump, Shift, ShiftWord, Store, Upper};
ghost use Rattle.cell_isa.specs.Instruction.{immediate};

use cell_num::Field;

pub fn rd(word: u32) -> u8
    ensures { result ≡ bits_at 11 7 word }
{
    Field::<11, 7>::get(word) as u8
}

pub fn rs1(word: u32) -> u8
    ensures { result ≡ bits_at 19 15 word }
{
    Field::<19, 15>::get(word) as u8
}

pub fn rs2(word: u32) -> u8
    ensures { result ≡ bits_at 24 20 word }
{
    Field::<24, 20>::get(word) as u8
}

/// The immediate of the format I: the upper twelve bits, with their sign.
#[tactic(auto, using(crate::proofs::Signs::upper_twelve))]
pub fn immediate_i(word: u32) -> i32
    ensures { result ≡ immediate Immediate word }
{
    word.cast_signed() >> 20
}

/// A number below twice `limit` as a signed one, whose highest bit is the sign.
fn signed(number: u32, limit: u32) -> i32
    requires below { number < 2 * limit }
    requires small { limit ≤ 0x10_0000 }
    ensures { result ≡ (if nat_lt number limit then pos number else pos number -ℤ pos (2 * limit)) }
{
    if number < limit {
        number as i32
    } else {
        number as i32 - (2 * limit) as i32
    }
}

/// The immediate of the format S.
pub fn immediate_s(word: u32) -> i32
    ensures { result ≡ immediate Store word }
{
    signed(
        (Field::<31, 25>::get(word) << 5) + Field::<11, 7>::get(word),
        0x800,
    )
}

/// The immediate of the format B.
pub fn immediate_b(word: u32) -> i32
    ensures { result ≡ immediate Branch word }
{
    signed(
        (Field::<31, 31>::get(word) << 12)
            + (Field::<7, 7>::get(word) << 11)
            + (Field::<30, 25>::get(word) << 5)
            + (Field::<11, 8>::get(word) << 1),
        0x1000,
    )
}

/// The immediate of the format J.
pub fn immediate_j(word: u32) -> i32
    ensures { result ≡ immediate Jump word }
{
    signed(
        (Field::<31, 31>::get(word) << 20)
            + (Field::<19, 12>::get(word) << 12)
            + (Field::<20, 20>::get(word) << 11)
            + (Field::<30, 21>::get(word) << 1),
        0x10_0000,
    )
}

/// The immediate of the format U, as it stands in the upper twenty bits.
pub fn immediate_u(word: u32) -> i32
    ensures { result ≡ immediate Upper word }
{
    Field::<31, 12>::get(word) as i32
}

/// How far a shift by a number goes.
pub fn shift(word: u32) -> i32
    ensures { result ≡ immediate Shift word }
{
    Field::<25, 20>::get(word) as i32
}

/// How far a shift by a number goes in the word forms.
pub fn shift_word(word: u32) -> i32
    ensures { result ≡ immediate ShiftWord word }
{
    Field::<24, 20>::get(word) as i32
}
