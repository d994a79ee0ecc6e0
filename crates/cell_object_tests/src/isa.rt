//! Words and their instructions.

use cell_isa::*;
use std::test::*;

/// A word, and the fields of its instruction.
struct Case(u32, Op, u8, u8, u8, i32);

/// Words as GNU as 2.40 and LLVM's assembler make them, which agree on each: every mnemonic, and the ends of each
/// immediate's range.
const CASES: [Case; 81] = [
    Case(0x1000_1537, Op::Lui, 10, 0, 0, 65537),
    Case(0xffff_ffb7, Op::Lui, 31, 0, 0, 1048575),
    Case(0x0000_0037, Op::Lui, 0, 0, 0, 0),
    Case(0x8000_0097, Op::Auipc, 1, 0, 0, 524288),
    Case(0xffdf_f06f, Op::Jal, 0, 0, 0, -4),
    Case(0x7fff_f0ef, Op::Jal, 1, 0, 0, 1048574),
    Case(0x8000_0fef, Op::Jal, 31, 0, 0, -1048576),
    Case(0x0010_00ef, Op::Jal, 1, 0, 0, 2048),
    Case(0x0000_10ef, Op::Jal, 1, 0, 0, 4096),
    Case(0x800f_80e7, Op::Jalr, 1, 31, 0, -2048),
    Case(0x81f2_8063, Op::Beq, 0, 5, 31, -4096),
    Case(0x7ff2_9fe3, Op::Bne, 0, 5, 31, 4094),
    Case(0x01f2_c0e3, Op::Blt, 0, 5, 31, 2048),
    Case(0xfff2_dfe3, Op::Bge, 0, 5, 31, -2),
    Case(0x01f2_e863, Op::Bltu, 0, 5, 31, 16),
    Case(0x03f2_f063, Op::Bgeu, 0, 5, 31, 32),
    Case(0x8001_0f83, Op::Lb, 31, 2, 0, -2048),
    Case(0x7ff1_1f83, Op::Lh, 31, 2, 0, 2047),
    Case(0x0001_2f83, Op::Lw, 31, 2, 0, 0),
    Case(0xfff1_3f83, Op::Ld, 31, 2, 0, -1),
    Case(0x0081_4f83, Op::Lbu, 31, 2, 0, 8),
    Case(0x4001_5f83, Op::Lhu, 31, 2, 0, 1024),
    Case(0xff81_6f83, Op::Lwu, 31, 2, 0, -8),
    Case(0x81f1_0023, Op::Sb, 0, 2, 31, -2048),
    Case(0x7ff1_1fa3, Op::Sh, 0, 2, 31, 2047),
    Case(0x01f1_2fa3, Op::Sw, 0, 2, 31, 31),
    Case(0xfff1_3023, Op::Sd, 0, 2, 31, -32),
    Case(0x8005_0513, Op::Addi, 10, 10, 0, -2048),
    Case(0x7ff0_0f93, Op::Addi, 31, 0, 0, 2047),
    Case(0x0000_0013, Op::Addi, 0, 0, 0, 0),
    Case(0xfff3_a313, Op::Slti, 6, 7, 0, -1),
    Case(0x0013_b313, Op::Sltiu, 6, 7, 0, 1),
    Case(0x8003_c313, Op::Xori, 6, 7, 0, -2048),
    Case(0x7ff3_e313, Op::Ori, 6, 7, 0, 2047),
    Case(0x0ff3_f313, Op::Andi, 6, 7, 0, 255),
    Case(0x0200_1013, Op::Slli, 0, 0, 0, 32),
    Case(0x03f4_9413, Op::Slli, 8, 9, 0, 63),
    Case(0x0004_d413, Op::Srli, 8, 9, 0, 0),
    Case(0x03f4_d413, Op::Srli, 8, 9, 0, 63),
    Case(0x4004_d413, Op::Srai, 8, 9, 0, 0),
    Case(0x43f4_d413, Op::Srai, 8, 9, 0, 63),
    Case(0x41f4_d413, Op::Srai, 8, 9, 0, 31),
    Case(0x0100_8fb3, Op::Add, 31, 1, 16, 0),
    Case(0x4100_8fb3, Op::Sub, 31, 1, 16, 0),
    Case(0x0100_9fb3, Op::Sll, 31, 1, 16, 0),
    Case(0x0100_afb3, Op::Slt, 31, 1, 16, 0),
    Case(0x0100_bfb3, Op::Sltu, 31, 1, 16, 0),
    Case(0x0100_cfb3, Op::Xor, 31, 1, 16, 0),
    Case(0x0100_dfb3, Op::Srl, 31, 1, 16, 0),
    Case(0x4100_dfb3, Op::Sra, 31, 1, 16, 0),
    Case(0x0100_efb3, Op::Or, 31, 1, 16, 0),
    Case(0x0100_ffb3, Op::And, 31, 1, 16, 0),
    Case(0x8001_009b, Op::Addiw, 1, 2, 0, -2048),
    Case(0x01f4_941b, Op::Slliw, 8, 9, 0, 31),
    Case(0x0004_d41b, Op::Srliw, 8, 9, 0, 0),
    Case(0x01f4_d41b, Op::Srliw, 8, 9, 0, 31),
    Case(0x4004_d41b, Op::Sraiw, 8, 9, 0, 0),
    Case(0x41f4_d41b, Op::Sraiw, 8, 9, 0, 31),
    Case(0x001f_883b, Op::Addw, 16, 31, 1, 0),
    Case(0x401f_883b, Op::Subw, 16, 31, 1, 0),
    Case(0x001f_983b, Op::Sllw, 16, 31, 1, 0),
    Case(0x001f_d83b, Op::Srlw, 16, 31, 1, 0),
    Case(0x401f_d83b, Op::Sraw, 16, 31, 1, 0),
    Case(0x02c5_8533, Op::Mul, 10, 11, 12, 0),
    Case(0x03f2_11b3, Op::Mulh, 3, 4, 31, 0),
    Case(0x03f2_21b3, Op::Mulhsu, 3, 4, 31, 0),
    Case(0x03f2_31b3, Op::Mulhu, 3, 4, 31, 0),
    Case(0x03f2_41b3, Op::Div, 3, 4, 31, 0),
    Case(0x03f2_51b3, Op::Divu, 3, 4, 31, 0),
    Case(0x03f2_61b3, Op::Rem, 3, 4, 31, 0),
    Case(0x03f2_71b3, Op::Remu, 3, 4, 31, 0),
    Case(0x03f2_01bb, Op::Mulw, 3, 4, 31, 0),
    Case(0x03f2_41bb, Op::Divw, 3, 4, 31, 0),
    Case(0x03f2_51bb, Op::Divuw, 3, 4, 31, 0),
    Case(0x03f2_61bb, Op::Remw, 3, 4, 31, 0),
    Case(0x03f2_71bb, Op::Remuw, 3, 4, 31, 0),
    Case(0x0ff0_000f, Op::Fence, 0, 0, 0, 255),
    Case(0x8330_000f, Op::Fence, 0, 0, 0, -1997),
    Case(0x0051_008f, Op::Fence, 1, 2, 0, 5),
    Case(0x0000_0073, Op::Ecall, 0, 0, 0, 0),
    Case(0x0010_0073, Op::Ebreak, 0, 0, 0, 0),
];

/// Words of other extensions, of no instruction, and of shifts that are too far.
const NO_INSTRUCTION: [u32; 17] = [
    0x0000_0000,
    0xffff_ffff,
    0x0400_1013,
    0x0200_101b,
    0x0400_0033,
    0x0200_203b,
    0x4000_1033,
    0x4000_4033,
    0x4000_1013,
    0x0000_100f,
    0x0000_1067,
    0x0000_2063,
    0x0000_7003,
    0x0000_4023,
    0x0000_1073,
    0x0000_00f3,
    0x1050_0073,
];

/// Fields without room: registers above 31, immediates that are too large or odd, and unused fields that are not 0.
struct NoWord(Op, u8, u8, u8, i32);

const NO_WORD: [NoWord; 28] = [
    NoWord(Op::Addi, 32, 0, 0, 0),
    NoWord(Op::Addi, 0, 32, 0, 0),
    NoWord(Op::Addi, 0, 0, 1, 0),
    NoWord(Op::Add, 0, 0, 32, 0),
    NoWord(Op::Add, 0, 0, 255, 0),
    NoWord(Op::Add, 0, 0, 0, 1),
    NoWord(Op::Addi, 0, 0, 0, 2048),
    NoWord(Op::Addi, 0, 0, 0, -2049),
    NoWord(Op::Sd, 1, 0, 0, 0),
    NoWord(Op::Sd, 0, 0, 0, 2048),
    NoWord(Op::Sd, 0, 0, 0, -2049),
    NoWord(Op::Beq, 1, 0, 0, 0),
    NoWord(Op::Beq, 0, 0, 0, 1),
    NoWord(Op::Beq, 0, 0, 0, 4096),
    NoWord(Op::Beq, 0, 0, 0, -4098),
    NoWord(Op::Jal, 0, 1, 0, 0),
    NoWord(Op::Jal, 0, 0, 0, -1),
    NoWord(Op::Jal, 0, 0, 0, 1_048_576),
    NoWord(Op::Jal, 0, 0, 0, -1_048_578),
    NoWord(Op::Lui, 0, 0, 0, -1),
    NoWord(Op::Lui, 0, 0, 0, 0x10_0000),
    NoWord(Op::Lui, 0, 0, 1, 0),
    NoWord(Op::Slli, 0, 0, 0, 64),
    NoWord(Op::Srai, 0, 0, 0, -1),
    NoWord(Op::Sraiw, 0, 0, 0, 32),
    NoWord(Op::Ecall, 1, 0, 0, 0),
    NoWord(Op::Ebreak, 0, 0, 0, 1),
    NoWord(Op::Lw, 0, 0, 0, -2_147_483_648),
];

fn insn(op: Op, rd: u8, rs1: u8, rs2: u8, imm: i32) -> Insn {
    Insn {
        op,
        rd,
        rs1,
        rs2,
        imm,
    }
}

#[test]
fn words_of_instructions(rt: HostRuntime) {
    for case in &CASES {
        let word = case.0;
        let insn = insn(case.1, case.2, case.3, case.4, case.5);
        assert!(rt; decode(word) == Some(insn), "decode {word}");
        assert!(rt; encode(&insn) == Some(word), "encode {word}");
        decode_and_encode_agree(word, insn);
    }
}

#[test]
fn words_without_a_row(rt: HostRuntime) {
    for word in &NO_INSTRUCTION {
        assert!(rt; decode(*word).is_none(), "{word}");
    }
}

#[test]
fn instructions_without_a_word(rt: HostRuntime) {
    for (number, case) in NO_WORD.iter().enumerate() {
        let insn = insn(case.0, case.1, case.2, case.3, case.4);
        assert!(rt; encode(&insn).is_none(), "case {number}");
    }
}
