//! Instructions and their words, both ways by one table: RV64I with M; and what each computes, from numbers alone: no
//! registers, no memory.
#![tactic(auto)]

mod agreement;
mod arithmetic;
mod decoding;
mod encoding;
mod format;
mod insn;
mod meaning;
mod memory;
mod table;

pub use agreement::decode_and_encode_agree;
pub use decoding::decode;
pub use encoding::encode;
pub use insn::{Insn, Op};
pub use meaning::{access, address, aim, is_taken, result};
pub use memory::Access;
