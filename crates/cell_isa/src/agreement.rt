//! What `decode` and `encode` are to each other.

ghost use Rattle.std.specs.Prelude.{◌≡◌, Some};
ghost use Rattle.cell_isa.specs.Instruction.{decode, encode};

use crate::insn::Insn;

/// A word is an instruction's exactly where the instruction is the word's.
pub fn decode_and_encode_agree(word: u32, insn: Insn)
    ensures encoded { decode word ≡ Some insn → encode insn ≡ Some word }
    ensures decoded { encode insn ≡ Some word → decode word ≡ Some insn }
{}
