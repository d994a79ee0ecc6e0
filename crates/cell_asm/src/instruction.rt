//! The words of an instruction from its operands, and the entries for them.

ghost use Rattle.std.specs.Prelude.{◌≡◌};
ghost use Rattle.cell_asm.specs.Faults.{Gives};
ghost use Rattle.cell_asm.specs.Mnemonics.{said};
ghost use Rattle.cell_asm.specs.Instructions.{put as put_of, miscounted as miscounted_of, filled, single as single_of, behind as behind_of, instruction as instruction_of};

use crate::kind::{AsmKind, Stop, both, earlier, or_stop};
use crate::mnemonic::{Mnemonic, Slot};
use crate::operand::Operand;
use crate::statement::{Block, Draft, Field, Fix, Piece, Target};
use crate::wanted::{memory, plain, register, value};
use cell_isa::{Insn, Op, encode};
use cell_num::RelKind;
use std::alloc::Global;

/// The fields of an instruction.
#[derive(Drop)]
pub struct Fields<'a> {
    pub rd: u8,
    pub rs1: u8,
    pub rs2: u8,
    pub field: Field<'a>,
}

/// The fields with what an operand puts in its slot, or the fault that is answered.
fn put<'a>(
    fields: Result<Fields<'a>, AsmKind>,
    slot: Slot,
    operand: &Operand<'a>,
) -> Result<Fields<'a>, AsmKind>
    ensures { result ≡ put_of fields.entry slot operand.now }
{
    match slot {
        Slot::Rd => {
            let (fields, rd) = both(fields, register(operand))?;
            Ok(Fields { rd, ..fields })
        }
        Slot::Rs1 => {
            let (fields, rs1) = both(fields, register(operand))?;
            Ok(Fields { rs1, ..fields })
        }
        Slot::Rs2 => {
            let (fields, rs2) = both(fields, register(operand))?;
            Ok(Fields { rs2, ..fields })
        }
        Slot::Value(form) => {
            let (fields, field) = both(fields, value(form, operand))?;
            Ok(Fields { field, ..fields })
        }
        Slot::Memory(form) => {
            let (fields, (field, rs1)) = both(fields, memory(form, operand))?;
            Ok(Fields {
                rs1,
                field,
                ..fields
            })
        }
    }
}

/// The fault where the operands are too few or too many.
fn miscounted<'a>(fields: Result<Fields<'a>, AsmKind>) -> Result<Fields<'a>, AsmKind>
    ensures { result ≡ miscounted_of fields.entry }
{
    match fields {
        Ok(_) => Err(AsmKind::Operand),
        Err(kind) => Err(earlier(kind, AsmKind::Operand)),
    }
}

/// The fields with what the operands put in their slots. All that have one are read, for the
/// earliest fault.
fn fill<'a>(
    fields: Result<Fields<'a>, AsmKind>,
    slots: &[Slot],
    operands: &[Operand<'a>],
) -> Result<Fields<'a>, AsmKind>
    ensures { result ≡ filled fields.entry slots.now operands.now }
{
    match (slots, operands) {
        ([], []) => fields,
        ([slot, slots @ ..], [operand, operands @ ..]) => {
            fill(put(fields, *slot, operand), slots, operands)
        }
        _ => miscounted(fields),
    }
}

/// One instruction. Each that is asked for has a word.
#[tactic(auto, unfolding(crate::specs::Instructions::word))]
fn single<'a>(op: Op, fields: Fields<'a>) -> Piece<'a>
    ensures { result ≡ single_of op fields.entry }
{
    let insn = Insn {
        op,
        rd: fields.rd,
        rs1: fields.rs1,
        rs2: fields.rs2,
        imm: fields.field.number,
    };
    Piece {
        width: 4,
        value: u64::from(encode(&insn).unwrap_or(0)),
        fix: fields.field.fix,
        second: None,
    }
}

/// The fields of a second instruction, behind one with that rd.
fn behind<'a>(rd: u8, made: bool) -> Fields<'a>
    ensures { result ≡ behind_of rd made }
{
    let fix = made.then_some(Fix {
        kind: RelKind::PcrelLo12I,
        target: Target::Made,
        addend: 0,
    });
    Fields {
        rd,
        rs1: rd,
        rs2: 0,
        field: Field { number: 0, fix },
    }
}

/// The instruction of these operands.
pub fn instruction<'a>(
    alloc: Global,
    mnemonic: Mnemonic,
    operands: &[Operand<'a>],
) -> Result<Block<'a>, Stop>
    ensures { Gives result (instruction_of (said mnemonic) operands.now) }
{
    let Mnemonic(op, slots, fixed) = mnemonic;
    let fields = Fields {
        rd: fixed.rd,
        rs1: fixed.rs1,
        rs2: 0,
        field: plain(fixed.number),
    };
    let fields = or_stop(fill(Ok(fields), slots, operands))?;
    let mut draft = Draft::new(alloc);
    let rd = fields.rd;
    draft.add(single(op, fields))?;
    if let Some(then) = fixed.then {
        draft.add(single(then.op, behind(rd, then.made)))?;
    }
    Ok(draft.finished())
}
