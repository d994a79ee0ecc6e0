//! The words that a statement begins with.

ghost use Rattle.std.specs.Prelude.{◌≡◌, map, bytes_eq, option_map, find};
ghost use Rattle.cell_asm.specs.Mnemonics.{mnemonic as mnemonic_of, directive as directive_of, row_of, said};

use crate::statement::{Binding, Part};
use Slot::{Memory, Rd, Rs1, Rs2, Value};
use cell_isa::Op;

/// What stands for an immediate: the numbers that fit, and the parts of an address.
#[derive(Clone, Copy, Debug, PartialEq, Eq)]
pub enum Form {
    /// 12 bits, `%lo(E)` or `%pcrel_lo(NAME)`
    Low,
    /// the same in a store
    LowStore,
    /// 20 bits or `%hi(E)`
    Upper,
    /// 20 bits, `%pcrel_hi(E)` or `%got_pcrel_hi(NAME)`
    UpperPcrel,
    /// 0 to 63
    Shift,
    /// 0 to 31
    ShiftWord,
    /// 12 bits
    Small,
    /// `NAME` in a branch
    Branch,
    /// `NAME` in a jump
    Jump,
    /// `NAME`, `NAME+N` or `NAME-N` in `call`
    Call,
    /// the same in `la`
    Address,
}

/// What an operand fills.
#[derive(Clone, Copy, Debug, PartialEq, Eq)]
pub enum Slot {
    Rd,
    Rs1,
    Rs2,
    Value(Form),
    /// `I(rs1)`
    Memory(Form),
}

/// A second instruction, whose rd and rs1 are the first one's rd; and whether it has an entry for a
/// label that is made at the first.
#[derive(Clone, Copy, Debug, PartialEq, Eq)]
pub struct Then {
    pub op: Op,
    pub made: bool,
}

/// What no operand says: the fields that none fills, and what stands behind the instruction.
#[derive(Clone, Copy, Debug, PartialEq, Eq)]
pub struct Fixed {
    pub rd: u8,
    pub rs1: u8,
    pub number: i32,
    pub then: Option<Then>,
}

/// An instruction: its operation, what its operands fill in their order, and what none says.
#[derive(Clone, Copy)]
pub struct Mnemonic(pub Op, pub &'static [Slot], pub Fixed);

/// The widths of data.
#[derive(Clone, Copy, Debug, PartialEq, Eq)]
pub enum Width {
    Byte,
    Half,
    Word,
    Quad,
}

/// What a directive does.
#[derive(Clone, Copy, Debug, PartialEq, Eq)]
pub enum Directive {
    Choose(Part),
    Bind(Binding),
    Numbers(Width),
    Zeros,
    Align,
}

/// The directives.
static DIRECTIVES: [(&[u8], Directive); 12] = [
    (b".text", Directive::Choose(Part::Text)),
    (b".rodata", Directive::Choose(Part::Rodata)),
    (b".data", Directive::Choose(Part::Data)),
    (b".bss", Directive::Choose(Part::Bss)),
    (b".globl", Directive::Bind(Binding::Global)),
    (b".weak", Directive::Bind(Binding::Weak)),
    (b".byte", Directive::Numbers(Width::Byte)),
    (b".half", Directive::Numbers(Width::Half)),
    (b".word", Directive::Numbers(Width::Word)),
    (b".quad", Directive::Numbers(Width::Quad)),
    (b".zero", Directive::Zeros),
    (b".align", Directive::Align),
];

/// ra, the register of return addresses
const RA: u8 = 1;

/// Zeros, and no second instruction.
const FREE: Fixed = Fixed {
    rd: 0,
    rs1: 0,
    number: 0,
    then: None,
};

/// `zero,0(ra)`
const RETURN: Fixed = Fixed { rs1: RA, ..FREE };

/// `iorw,iorw`
const FENCE: Fixed = Fixed {
    number: 0xff,
    ..FREE
};

/// `ra,0`, and `jalr ra,0(ra)` behind it
const CALL: Fixed = Fixed {
    rd: RA,
    then: Some(Then {
        op: Op::Jalr,
        made: false,
    }),
    ..FREE
};

/// `addi rd,rd` under an entry behind it
const LA: Fixed = Fixed {
    then: Some(Then {
        op: Op::Addi,
        made: true,
    }),
    ..FREE
};

/// `rd,rs1,rs2`
const REGISTERS: &[Slot] = &[Rd, Rs1, Rs2];

/// `rd,rs1,I`
const IMMEDIATE: &[Slot] = &[Rd, Rs1, Value(Form::Low)];

/// `rd,rs1,N` with N from 0 to 63
const SHIFT: &[Slot] = &[Rd, Rs1, Value(Form::Shift)];

/// `rd,rs1,N` with N from 0 to 31
const SHIFT_WORD: &[Slot] = &[Rd, Rs1, Value(Form::ShiftWord)];

/// `rd,U`, `rd,%pcrel_hi(E)` or `rd,%got_pcrel_hi(NAME)`
const UPPER_PCREL: &[Slot] = &[Rd, Value(Form::UpperPcrel)];

/// `rd,I(rs1)`
const LOAD: &[Slot] = &[Rd, Memory(Form::Low)];

/// `rs2,I(rs1)`
const STORE: &[Slot] = &[Rs2, Memory(Form::LowStore)];

/// `rs1,rs2,NAME`
const BRANCH: &[Slot] = &[Rs1, Rs2, Value(Form::Branch)];

/// The instructions, and what is short for some. RISC-V unprivileged manual, "RV32/64G Instruction
/// Set Listings"
static MNEMONICS: [(&[u8], Mnemonic); 72] = [
    (b"ret", Mnemonic(Op::Jalr, &[], RETURN)),
    (b"fence", Mnemonic(Op::Fence, &[], FENCE)),
    (b"call", Mnemonic(Op::Auipc, &[Value(Form::Call)], CALL)),
    (b"la", Mnemonic(Op::Auipc, &[Rd, Value(Form::Address)], LA)),
    (b"nop", Mnemonic(Op::Addi, &[], FREE)),
    (b"ecall", Mnemonic(Op::Ecall, &[], FREE)),
    (b"ebreak", Mnemonic(Op::Ebreak, &[], FREE)),
    (b"mv", Mnemonic(Op::Addi, &[Rd, Rs1], FREE)),
    (b"li", Mnemonic(Op::Addi, &[Rd, Value(Form::Small)], FREE)),
    (b"j", Mnemonic(Op::Jal, &[Value(Form::Jump)], FREE)),
    (b"jal", Mnemonic(Op::Jal, &[Rd, Value(Form::Jump)], FREE)),
    (b"lui", Mnemonic(Op::Lui, &[Rd, Value(Form::Upper)], FREE)),
    (b"auipc", Mnemonic(Op::Auipc, UPPER_PCREL, FREE)),
    (b"beq", Mnemonic(Op::Beq, BRANCH, FREE)),
    (b"bne", Mnemonic(Op::Bne, BRANCH, FREE)),
    (b"blt", Mnemonic(Op::Blt, BRANCH, FREE)),
    (b"bge", Mnemonic(Op::Bge, BRANCH, FREE)),
    (b"bltu", Mnemonic(Op::Bltu, BRANCH, FREE)),
    (b"bgeu", Mnemonic(Op::Bgeu, BRANCH, FREE)),
    (b"jalr", Mnemonic(Op::Jalr, LOAD, FREE)),
    (b"lb", Mnemonic(Op::Lb, LOAD, FREE)),
    (b"lh", Mnemonic(Op::Lh, LOAD, FREE)),
    (b"lw", Mnemonic(Op::Lw, LOAD, FREE)),
    (b"ld", Mnemonic(Op::Ld, LOAD, FREE)),
    (b"lbu", Mnemonic(Op::Lbu, LOAD, FREE)),
    (b"lhu", Mnemonic(Op::Lhu, LOAD, FREE)),
    (b"lwu", Mnemonic(Op::Lwu, LOAD, FREE)),
    (b"sb", Mnemonic(Op::Sb, STORE, FREE)),
    (b"sh", Mnemonic(Op::Sh, STORE, FREE)),
    (b"sw", Mnemonic(Op::Sw, STORE, FREE)),
    (b"sd", Mnemonic(Op::Sd, STORE, FREE)),
    (b"addi", Mnemonic(Op::Addi, IMMEDIATE, FREE)),
    (b"slti", Mnemonic(Op::Slti, IMMEDIATE, FREE)),
    (b"sltiu", Mnemonic(Op::Sltiu, IMMEDIATE, FREE)),
    (b"xori", Mnemonic(Op::Xori, IMMEDIATE, FREE)),
    (b"ori", Mnemonic(Op::Ori, IMMEDIATE, FREE)),
    (b"andi", Mnemonic(Op::Andi, IMMEDIATE, FREE)),
    (b"addiw", Mnemonic(Op::Addiw, IMMEDIATE, FREE)),
    (b"slli", Mnemonic(Op::Slli, SHIFT, FREE)),
    (b"srli", Mnemonic(Op::Srli, SHIFT, FREE)),
    (b"srai", Mnemonic(Op::Srai, SHIFT, FREE)),
    (b"slliw", Mnemonic(Op::Slliw, SHIFT_WORD, FREE)),
    (b"srliw", Mnemonic(Op::Srliw, SHIFT_WORD, FREE)),
    (b"sraiw", Mnemonic(Op::Sraiw, SHIFT_WORD, FREE)),
    (b"add", Mnemonic(Op::Add, REGISTERS, FREE)),
    (b"sub", Mnemonic(Op::Sub, REGISTERS, FREE)),
    (b"sll", Mnemonic(Op::Sll, REGISTERS, FREE)),
    (b"slt", Mnemonic(Op::Slt, REGISTERS, FREE)),
    (b"sltu", Mnemonic(Op::Sltu, REGISTERS, FREE)),
    (b"xor", Mnemonic(Op::Xor, REGISTERS, FREE)),
    (b"srl", Mnemonic(Op::Srl, REGISTERS, FREE)),
    (b"sra", Mnemonic(Op::Sra, REGISTERS, FREE)),
    (b"or", Mnemonic(Op::Or, REGISTERS, FREE)),
    (b"and", Mnemonic(Op::And, REGISTERS, FREE)),
    (b"addw", Mnemonic(Op::Addw, REGISTERS, FREE)),
    (b"subw", Mnemonic(Op::Subw, REGISTERS, FREE)),
    (b"sllw", Mnemonic(Op::Sllw, REGISTERS, FREE)),
    (b"srlw", Mnemonic(Op::Srlw, REGISTERS, FREE)),
    (b"sraw", Mnemonic(Op::Sraw, REGISTERS, FREE)),
    (b"mul", Mnemonic(Op::Mul, REGISTERS, FREE)),
    (b"mulh", Mnemonic(Op::Mulh, REGISTERS, FREE)),
    (b"mulhsu", Mnemonic(Op::Mulhsu, REGISTERS, FREE)),
    (b"mulhu", Mnemonic(Op::Mulhu, REGISTERS, FREE)),
    (b"div", Mnemonic(Op::Div, REGISTERS, FREE)),
    (b"divu", Mnemonic(Op::Divu, REGISTERS, FREE)),
    (b"rem", Mnemonic(Op::Rem, REGISTERS, FREE)),
    (b"remu", Mnemonic(Op::Remu, REGISTERS, FREE)),
    (b"mulw", Mnemonic(Op::Mulw, REGISTERS, FREE)),
    (b"divw", Mnemonic(Op::Divw, REGISTERS, FREE)),
    (b"divuw", Mnemonic(Op::Divuw, REGISTERS, FREE)),
    (b"remw", Mnemonic(Op::Remw, REGISTERS, FREE)),
    (b"remuw", Mnemonic(Op::Remuw, REGISTERS, FREE)),
];

/// The directive of that word.
pub fn read_directive(text: &[u8]) -> Option<Directive>
    ensures { result ≡ directive_of text.now }
{
    row_in(&DIRECTIVES, text)
}

/// What stands in the row with that word.
pub fn row_in<T: Copy>(rows: &[(&[u8], T)], text: &[u8]) -> Option<T>
    ensures { result ≡ row_of (map (λ row. (row.0.now, row.1)) rows.now) text.now }
{
    find_row(rows, text)
}

fn find_row<T: Copy>(rows: &[(&[u8], T)], text: &[u8]) -> Option<T>
    ensures { result ≡ option_map (λ row. row.1) (find (λ row. bytes_eq text.now row.0.now) rows.now) }
{
    rows.iter().find(|row| text == row.0).map(|row| row.1)
}

/// The instruction of that word.
pub fn read_mnemonic(text: &[u8]) -> Option<Mnemonic>
    ensures { option_map said result ≡ mnemonic_of text.now }
{
    mnemonic_in(&MNEMONICS, text)
}

fn mnemonic_in(rows: &[(&[u8], Mnemonic)], text: &[u8]) -> Option<Mnemonic>
    ensures { option_map said result ≡ row_of (map (λ row. (row.0.now, said row.1)) rows.now) text.now }
{
    find_row(rows, text)
}
