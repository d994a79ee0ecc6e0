//! Words for things of which there are a few kinds.

ghost use Rattle.std.specs.Prelude.{◌≡◌};
ghost use Rattle.cell_print.specs.Words.{cause_word, kind_word, many_word};

use cell_num::{Cause, RelKind};
use cell_world::Many;

/// The trap that ended a task's turns.
pub fn cause_word(cause: Cause) -> &'static [u8]
    ensures { result.now ≡ cause_word cause }
{
    match cause {
        Cause::Fetch => b"fetch",
        Cause::Jump => b"jump",
        Cause::Illegal => b"illegal",
        Cause::Break => b"break",
        Cause::LoadAlign => b"load-align",
        Cause::Load => b"load",
        Cause::StoreAlign => b"store-align",
        Cause::Store => b"store",
        Cause::Call => b"call",
    }
}

/// The name of a kind of relocation, without its first `R_RISCV_`.
pub fn kind_word(kind: RelKind) -> &'static [u8]
    ensures { result.now ≡ kind_word kind }
{
    match kind {
        RelKind::Abs32 => b"32",
        RelKind::Abs64 => b"64",
        RelKind::Branch => b"BRANCH",
        RelKind::Jal => b"JAL",
        RelKind::Call => b"CALL",
        RelKind::CallPlt => b"CALL_PLT",
        RelKind::GotHi20 => b"GOT_HI20",
        RelKind::PcrelHi20 => b"PCREL_HI20",
        RelKind::PcrelLo12I => b"PCREL_LO12_I",
        RelKind::PcrelLo12S => b"PCREL_LO12_S",
        RelKind::Hi20 => b"HI20",
        RelKind::Lo12I => b"LO12_I",
        RelKind::Lo12S => b"LO12_S",
        RelKind::Add8 => b"ADD8",
        RelKind::Add16 => b"ADD16",
        RelKind::Add32 => b"ADD32",
        RelKind::Add64 => b"ADD64",
        RelKind::Sub8 => b"SUB8",
        RelKind::Sub16 => b"SUB16",
        RelKind::Sub32 => b"SUB32",
        RelKind::Sub64 => b"SUB64",
        RelKind::Sub6 => b"SUB6",
        RelKind::Set6 => b"SET6",
        RelKind::Set8 => b"SET8",
        RelKind::Set16 => b"SET16",
        RelKind::Set32 => b"SET32",
        RelKind::Pcrel32 => b"32_PCREL",
    }
}

/// What there may be only so many of.
pub fn many_word(kind: Many) -> &'static [u8]
    ensures { result.now ≡ many_word kind }
{
    match kind {
        Many::Namespaces => b"namespaces",
        Many::Cells => b"cells",
        Many::CellNumbers => b"cell-numbers",
        Many::Tasks => b"tasks",
        Many::TaskNumbers => b"task-numbers",
    }
}
