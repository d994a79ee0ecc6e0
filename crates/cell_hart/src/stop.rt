//! How an instruction ended.

use cell_num::Cause;

/// How an instruction ended: with the next one to come, with a call of the system, or with a trap
/// at the instruction at `pc`.
#[derive(Clone, Copy, Debug, PartialEq, Eq)]
pub enum Stop {
    Next,
    Call,
    Trap { cause: Cause, pc: u64 },
}
