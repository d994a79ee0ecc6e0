//! The table of relocation kinds. RISC-V ELF psABI, "Relocations"

ghost use Rattle.std.specs.Prelude.{◌≡◌};
ghost use Rattle.cell_num.specs.Kinds.{row_of, kind_of as kind_with, width_of, is_immediate as immediate, is_instruction as instruction};

use crate::kinds::RelKind;

/// What an entry stands for. S is the target's address or number, A the addend, P the address of
/// the field, and V the number that the field holds.
#[derive(Clone, Copy, Debug)]
pub enum Sum {
    /// S + A
    Absolute,

    /// S + A - P
    Relative,

    /// V + S + A
    Added,

    /// V - S - A
    Taken,
}

/// Where the sum fits.
#[derive(Clone, Copy, Debug)]
pub enum Range {
    /// Everywhere: it is stored modulo the field's size.
    Any,

    /// From the first number to the second.
    Within(i64, i64),

    /// From the first number to the second, where it is even.
    Even(i64, i64),
}

/// The bits of the field that the sum goes into.
/// RISC-V unprivileged manual, "Immediate Encoding Variants"
#[derive(Clone, Copy, Debug)]
pub enum Part {
    /// All bits.
    Whole,

    /// The low six bits of a byte.
    LowSix,

    /// The U immediate.
    Upper,

    /// The I immediate.
    Low,

    /// The S immediate.
    Store,

    /// The B immediate.
    Branch,

    /// The J immediate.
    Jump,

    /// The U immediate of a word and the I immediate of the next.
    Call,
}

/// A row of the table: what the psABI says of a kind, with the range of values that fit.
#[derive(Clone, Copy, Debug)]
pub struct Row {
    pub number: u32,

    /// How many bytes the field has.
    pub width: u8,
    pub sum: Sum,
    pub range: Range,
    pub part: Part,
}

/// The least number that an upper and a lower part reach together.
const LEAST: i64 = -0x8000_0800;

/// The greatest number that an upper and a lower part reach together.
const MOST: i64 = 0x7fff_f7ff;

/// Gives the table to another macro, after what that macro is given.
/// A row has the number, the width, the sum, the range and the part. An entry of kind PCREL_LO12 takes
/// target, addend and place of the PCREL_HI20 entry at its label. S of a GOT_HI20 entry is the address
/// of the symbol's slot.
macro_rules! kinds {
    ($then:ident $given:tt) => {
        $then! {
            $given
            Abs32(1, 4, Absolute, Within(-0x8000_0000, 0xffff_ffff), Whole),
            Abs64(2, 8, Absolute, Any, Whole),
            Branch(16, 4, Relative, Even(-4096, 4094), Branch),
            Jal(17, 4, Relative, Even(-1_048_576, 1_048_574), Jump),
            Call(18, 8, Relative, Within(LEAST, MOST), Call),
            CallPlt(19, 8, Relative, Within(LEAST, MOST), Call),
            GotHi20(20, 4, Relative, Within(LEAST, MOST), Upper),
            PcrelHi20(23, 4, Relative, Within(LEAST, MOST), Upper),
            PcrelLo12I(24, 4, Relative, Any, Low),
            PcrelLo12S(25, 4, Relative, Any, Store),
            Hi20(26, 4, Absolute, Within(LEAST, MOST), Upper),
            Lo12I(27, 4, Absolute, Any, Low),
            Lo12S(28, 4, Absolute, Any, Store),
            Add8(33, 1, Added, Any, Whole),
            Add16(34, 2, Added, Any, Whole),
            Add32(35, 4, Added, Any, Whole),
            Add64(36, 8, Added, Any, Whole),
            Sub8(37, 1, Taken, Any, Whole),
            Sub16(38, 2, Taken, Any, Whole),
            Sub32(39, 4, Taken, Any, Whole),
            Sub64(40, 8, Taken, Any, Whole),
            Sub6(52, 1, Taken, Any, LowSix),
            Set6(53, 1, Absolute, Any, LowSix),
            Set8(54, 1, Absolute, Any, Whole),
            Set16(55, 2, Absolute, Any, Whole),
            Set32(56, 4, Absolute, Any, Whole),
            Pcrel32(57, 4, Relative, Within(-0x8000_0000, 0x7fff_ffff), Whole),
        }
    };
}

/// The row of a kind.
pub fn kind_row(kind: RelKind) -> Row
    ensures { result ≡ row_of kind }
{
    macro_rules! by_kind {
        (($given:ident) $($kind:ident($number:literal, $width:literal, $sum:ident, $range:ident $(($least:expr, $most:expr))?, $part:ident),)*) => {
            match $given {
                $(RelKind::$kind => Row {
                    number: $number,
                    width: $width,
                    sum: Sum::$sum,
                    range: Range::$range$(($least, $most))?,
                    part: Part::$part,
                },)*
            }
        };
    }
    kinds!(by_kind(kind))
}

/// The kind with a number. R_RISCV_NONE and R_RISCV_RELAX ask for nothing, and have none.
pub fn kind_of(number: u32) -> Option<RelKind>
    ensures { result ≡ kind_with number }
{
    macro_rules! by_number {
        (($given:ident) $($kind:ident($number:literal, $($rest:tt)*),)*) => {
            match $given {
                $($number => RelKind::$kind,)*
                _ => return None,
            }
        };
    }
    let kind = kinds!(by_number(number));
    Some(kind)
}

/// How many bytes the field has.
pub fn width(kind: RelKind) -> u8
    ensures { result ≡ width_of kind }
{
    kind_row(kind).width
}

/// Whether these are bits of an instruction.
fn is_immediate(part: Part) -> bool
    ensures { result ≡ immediate part }
{
    match part {
        Part::Whole | Part::LowSix => false,
        Part::Upper | Part::Low | Part::Store | Part::Branch | Part::Jump | Part::Call => true,
    }
}

/// Whether the field is an instruction.
pub fn is_instruction(kind: RelKind) -> bool
    ensures { result ≡ instruction kind }
{
    is_immediate(kind_row(kind).part)
}
