//! The table of instructions, and its rows by a word and by an operation.
//! RISC-V unprivileged manual, "RV32/64G Instruction Set Listings"

ghost use Rattle.std.specs.Prelude.{◌≡◌};
ghost use Rattle.cell_isa.specs.Table.{operation_of, row_of};

use crate::format::Format;
use crate::insn::Op;
use cell_num::Field;

/// How an operation's words are known.
#[derive(Clone, Copy, Debug, PartialEq, Eq)]
pub enum Row {
    /// The operation has this word alone.
    Word(u32),

    /// The numbers that stand in each of its words; one for which the format has no place is 0.
    Fields {
        format: Format,
        opcode: u32,
        funct3: u32,
        funct7: u32,
    },
}

/// Gives the table to another macro, after what that macro is given.
/// A row has the format, the opcode, and funct3 and funct7 where the format has a place for them. The lowest bit of a
/// shift's funct7 belongs to its number, so both values stand there.
macro_rules! instructions {
    ($then:ident $given:tt) => {
        $then! {
            $given
            Lui(Upper, 0x37),
            Auipc(Upper, 0x17),
            Jal(Jump, 0x6f),
            Jalr(Immediate, 0x67, 0),
            Beq(Branch, 0x63, 0),
            Bne(Branch, 0x63, 1),
            Blt(Branch, 0x63, 4),
            Bge(Branch, 0x63, 5),
            Bltu(Branch, 0x63, 6),
            Bgeu(Branch, 0x63, 7),
            Lb(Immediate, 0x03, 0),
            Lh(Immediate, 0x03, 1),
            Lw(Immediate, 0x03, 2),
            Ld(Immediate, 0x03, 3),
            Lbu(Immediate, 0x03, 4),
            Lhu(Immediate, 0x03, 5),
            Lwu(Immediate, 0x03, 6),
            Sb(Store, 0x23, 0),
            Sh(Store, 0x23, 1),
            Sw(Store, 0x23, 2),
            Sd(Store, 0x23, 3),
            Addi(Immediate, 0x13, 0),
            Slti(Immediate, 0x13, 2),
            Sltiu(Immediate, 0x13, 3),
            Xori(Immediate, 0x13, 4),
            Ori(Immediate, 0x13, 6),
            Andi(Immediate, 0x13, 7),
            Slli(Shift, 0x13, 1, 0x00 | 0x01),
            Srli(Shift, 0x13, 5, 0x00 | 0x01),
            Srai(Shift, 0x13, 5, 0x20 | 0x21),
            Add(Register, 0x33, 0, 0x00),
            Sub(Register, 0x33, 0, 0x20),
            Sll(Register, 0x33, 1, 0x00),
            Slt(Register, 0x33, 2, 0x00),
            Sltu(Register, 0x33, 3, 0x00),
            Xor(Register, 0x33, 4, 0x00),
            Srl(Register, 0x33, 5, 0x00),
            Sra(Register, 0x33, 5, 0x20),
            Or(Register, 0x33, 6, 0x00),
            And(Register, 0x33, 7, 0x00),
            Addiw(Immediate, 0x1b, 0),
            Slliw(ShiftWord, 0x1b, 1, 0x00),
            Srliw(ShiftWord, 0x1b, 5, 0x00),
            Sraiw(ShiftWord, 0x1b, 5, 0x20),
            Addw(Register, 0x3b, 0, 0x00),
            Subw(Register, 0x3b, 0, 0x20),
            Sllw(Register, 0x3b, 1, 0x00),
            Srlw(Register, 0x3b, 5, 0x00),
            Sraw(Register, 0x3b, 5, 0x20),
            Mul(Register, 0x33, 0, 0x01),
            Mulh(Register, 0x33, 1, 0x01),
            Mulhsu(Register, 0x33, 2, 0x01),
            Mulhu(Register, 0x33, 3, 0x01),
            Div(Register, 0x33, 4, 0x01),
            Divu(Register, 0x33, 5, 0x01),
            Rem(Register, 0x33, 6, 0x01),
            Remu(Register, 0x33, 7, 0x01),
            Mulw(Register, 0x3b, 0, 0x01),
            Divw(Register, 0x3b, 4, 0x01),
            Divuw(Register, 0x3b, 5, 0x01),
            Remw(Register, 0x3b, 6, 0x01),
            Remuw(Register, 0x3b, 7, 0x01),
            Fence(Immediate, 0x0f, 0),
            Ecall(Word, 0x0000_0073),
            Ebreak(Word, 0x0010_0073),
        }
    };
}

/// The words of a row, as a pattern of a word, its opcode, its funct3 and its funct7.
macro_rules! words {
    ((Word, $word:literal)) => { ($word, _, _, _) };
    (($format:ident, $opcode:literal)) => { (_, $opcode, _, _) };
    (($format:ident, $opcode:literal, $funct3:literal)) => { (_, $opcode, $funct3, _) };
    (($format:ident, $opcode:literal, $funct3:literal, $funct7:literal)) => {
        (_, $opcode, $funct3, $funct7)
    };
    (($format:ident, $opcode:literal, $funct3:literal, $even:literal | $odd:literal)) => {
        (_, $opcode, $funct3, $even | $odd)
    };
}

/// A row as a value.
macro_rules! row {
    ((Word, $word:literal)) => { Row::Word($word) };
    (($format:ident, $opcode:literal)) => { row!(($format, $opcode, 0, 0)) };
    (($format:ident, $opcode:literal, $funct3:literal)) => {
        row!(($format, $opcode, $funct3, 0))
    };
    (($format:ident, $opcode:literal, $funct3:literal, $funct7:literal $(| $odd:literal)?)) => {
        Row::Fields {
            format: Format::$format,
            opcode: $opcode,
            funct3: $funct3,
            funct7: $funct7,
        }
    };
}

/// The operation of whose words this is one.
pub fn operation(word: u32) -> Option<Op>
    ensures { result ≡ operation_of word }
{
    let opcode = Field::<6, 0>::get(word);
    let funct3 = Field::<14, 12>::get(word);
    let funct7 = Field::<31, 25>::get(word);
    macro_rules! by_words {
        ($numbers:tt $($op:ident $row:tt,)*) => {
            match $numbers {
                $(words!($row) => Some(Op::$op),)*
                _ => None,
            }
        };
    }
    instructions!(by_words(word, opcode, funct3, funct7))
}

/// The row of an operation.
pub fn row_of_op(op: Op) -> Row
    ensures { result ≡ row_of op }
{
    macro_rules! by_operation {
        (($given:ident) $($op:ident $row:tt,)*) => {
            match $given {
                $(Op::$op => row!($row),)*
            }
        };
    }
    instructions!(by_operation(op))
}
