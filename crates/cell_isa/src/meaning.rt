//! What an instruction gives, and where it leads.
//! RISC-V unprivileged manual, "Integer Computational Instructions", "Control Transfer Instructions" and "M Extension for
//! Integer Multiplication and Division"

ghost use Rattle.std.specs.Prelude.{◌≡◌, ◌+◌, ◌*ℤ◌, pos};
ghost use Rattle.cell_num.specs.Bits.{wrap, wrap_ℤ};
ghost use Rattle.cell_isa.specs.Meaning.{result_of, is_taken as taken_by, aim_of, access_of, word as word_of};

use crate::arithmetic::{
    divide, divide_unsigned, flag, is_less, low_word, multiply_high, multiply_high_mixed,
    multiply_high_unsigned, remain, remain_unsigned, shift_signed, word,
};
use crate::insn::Op;
use crate::memory::Access;

/// An immediate on 64 bits.
fn extended(imm: i32) -> u64
    ensures { result ≡ wrap_ℤ imm }
{
    i64::from(imm).cast_unsigned()
}

/// An immediate in the upper 20 bits of a word.
fn upper(imm: i32) -> u64
    ensures { result ≡ word_of (wrap_ℤ (imm *ℤ pos 4096)) }
{
    word((i64::from(imm) * 4096).cast_unsigned())
}

/// The number that an instruction writes to rd: `pc` is its address, `a` is rs1, `b` is rs2. It is 0 where the operation
/// writes none, and where it loads.
#[inline(always)]
pub fn result(op: Op, pc: u64, a: u64, b: u64, imm: i32) -> u64
    ensures { result ≡ result_of op pc a b imm }
{
    let number = extended(imm);
    match op {
        Op::Lui => upper(imm),
        Op::Auipc => pc.wrapping_add(upper(imm)),
        Op::Jal | Op::Jalr => pc.wrapping_add(4),

        Op::Addi => a.wrapping_add(number),
        Op::Slti => flag(is_less(a, number)),
        Op::Sltiu => flag(a < number),
        Op::Xori => a ^ number,
        Op::Ori => a | number,
        Op::Andi => a & number,
        Op::Slli => a << (number % 64),
        Op::Srli => a >> (number % 64),
        Op::Srai => shift_signed(a, number % 64),

        Op::Add => a.wrapping_add(b),
        Op::Sub => a.wrapping_sub(b),
        Op::Slt => flag(is_less(a, b)),
        Op::Sltu => flag(a < b),
        Op::Xor => a ^ b,
        Op::Or => a | b,
        Op::And => a & b,
        Op::Sll => a << (b % 64),
        Op::Srl => a >> (b % 64),
        Op::Sra => shift_signed(a, b % 64),

        Op::Addiw => word(a.wrapping_add(number)),
        Op::Slliw => word(a << (number % 32)),
        Op::Srliw => word(low_word(a) >> (number % 32)),
        Op::Sraiw => shift_signed(word(a), number % 32),

        Op::Addw => word(a.wrapping_add(b)),
        Op::Subw => word(a.wrapping_sub(b)),
        Op::Sllw => word(a << (b % 32)),
        Op::Srlw => word(low_word(a) >> (b % 32)),
        Op::Sraw => shift_signed(word(a), b % 32),

        Op::Mul => a.wrapping_mul(b),
        Op::Mulh => multiply_high(a, b),
        Op::Mulhsu => multiply_high_mixed(a, b),
        Op::Mulhu => multiply_high_unsigned(a, b),
        Op::Div => divide(a, b),
        Op::Divu => divide_unsigned(a, b),
        Op::Rem => remain(a, b),
        Op::Remu => remain_unsigned(a, b),

        Op::Mulw => word(a.wrapping_mul(b)),
        Op::Divw => word(divide(word(a), word(b))),
        Op::Divuw => word(divide_unsigned(low_word(a), low_word(b))),
        Op::Remw => word(remain(word(a), word(b))),
        Op::Remuw => word(remain_unsigned(low_word(a), low_word(b))),

        _ => 0,
    }
}

/// Whether a branch or a jump is taken: `a` is rs1, `b` is rs2.
pub fn is_taken(op: Op, a: u64, b: u64) -> bool
    ensures { result ≡ taken_by op a b }
{
    match op {
        Op::Beq => a == b,
        Op::Bne => a != b,
        Op::Blt => is_less(a, b),
        Op::Bge => !is_less(a, b),
        Op::Bltu => a < b,
        Op::Bgeu => a >= b,
        Op::Jal | Op::Jalr => true,
        _ => false,
    }
}

/// Where a branch or a jump leads that is taken: `pc` is its address, `a` is rs1. It need not be a multiple of 4.
pub fn aim(op: Op, pc: u64, a: u64, imm: i32) -> u64
    ensures { result ≡ aim_of op pc a imm }
{
    match op {
        Op::Jalr => a.wrapping_add(extended(imm)) & !1,
        _ => pc.wrapping_add(extended(imm)),
    }
}

/// The address of a load or a store: `a` is rs1.
pub fn address(a: u64, imm: i32) -> u64
    ensures { result ≡ wrap (a + wrap_ℤ imm) }
{
    a.wrapping_add(extended(imm))
}

fn loads(width: u8, with_sign: bool) -> Access
    ensures { result ≡ Access.Loads width with_sign }
{
    Access::Loads { width, with_sign }
}

/// How an operation touches memory.
pub fn access(op: Op) -> Access
    ensures { result ≡ access_of op }
{
    match op {
        Op::Lb => loads(1, true),
        Op::Lh => loads(2, true),
        Op::Lw => loads(4, true),
        Op::Ld => loads(8, true),
        Op::Lbu => loads(1, false),
        Op::Lhu => loads(2, false),
        Op::Lwu => loads(4, false),
        Op::Sb => Access::Stores { width: 1 },
        Op::Sh => Access::Stores { width: 2 },
        Op::Sw => Access::Stores { width: 4 },
        Op::Sd => Access::Stores { width: 8 },
        _ => Access::Untouched,
    }
}
