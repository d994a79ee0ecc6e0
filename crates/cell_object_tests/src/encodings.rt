//! The words of single instructions, as GNU as 2.40 gives them where a label is the place itself and
//! another name undefined.

use crate::assembly::{first_bytes, object_of};
use cell_object::Object;
use std::alloc::Global;
use std::process::Abort;
use std::test::*;

/// An instruction, and its word.
struct Encoding(&'static [u8], u32);

/// The first four bytes of the first section, the lowest first.
fn first_word(object: &Object) -> u32 {
    match first_bytes(object) {
        [a, b, c, d] => u32::from_le_bytes([*a, *b, *c, *d]),
        _ => 0,
    }
}

/// Assembles each instruction by itself.
fn try_each(rt: &impl Abort, alloc: Global, cases: &[Encoding]) -> Result<(), Fail> {
    for (number, case) in cases.iter().enumerate() {
        let mut source = Vec::from_slice(alloc, b".text\n")?;
        source.extend_from_slice(case.0)?;
        let object = object_of(alloc, &source)?;
        assert_eq!(rt; first_word(&object), case.1, "case {number}");
    }
    Ok(())
}

/// Three registers.
const OF_REGISTERS: [Encoding; 15] = [
    Encoding(b"add ra,sp,gp", 0x0031_00b3),
    Encoding(b"sub tp,t2,a0", 0x40a3_8233),
    Encoding(b"sll t2,a2,a7", 0x0116_13b3),
    Encoding(b"slt a0,a7,s8", 0x0188_a533),
    Encoding(b"sltu a3,s6,t6", 0x01fb_36b3),
    Encoding(b"xor a6,s11,t1", 0x006d_c833),
    Encoding(b"srl s3,zero,a3", 0x00d0_59b3),
    Encoding(b"sra s6,t0,s4", 0x4142_db33),
    Encoding(b"or s9,a0,s11", 0x01b5_6cb3),
    Encoding(b"and t3,a5,sp", 0x0027_fe33),
    Encoding(b"addw t6,s4,s1", 0x009a_0fbb),
    Encoding(b"subw sp,s9,a6", 0x410c_813b),
    Encoding(b"sllw t0,t5,s7", 0x017f_12bb),
    Encoding(b"srlw s0,gp,t5", 0x01e1_d43b),
    Encoding(b"sraw a1,s0,t0", 0x4054_55bb),
];

/// Products and quotients.
const OF_PRODUCTS: [Encoding; 13] = [
    Encoding(b"mul a4,a3,a2", 0x02c6_8733),
    Encoding(b"mulh a7,s2,s3", 0x0339_18b3),
    Encoding(b"mulhsu s4,s7,s10", 0x03ab_aa33),
    Encoding(b"mulhu s7,t3,ra", 0x021e_3bb3),
    Encoding(b"div s10,ra,s0", 0x0280_cd33),
    Encoding(b"divu t4,t1,a5", 0x02f3_5eb3),
    Encoding(b"rem zero,a1,s6", 0x0365_e033),
    Encoding(b"remu gp,a6,t4", 0x03d8_71b3),
    Encoding(b"mulw t1,s5,tp", 0x024a_833b),
    Encoding(b"divw s1,s10,a1", 0x02bd_44bb),
    Encoding(b"divuw a2,t6,s2", 0x032f_d63b),
    Encoding(b"remw a5,tp,s9", 0x0392_67bb),
    Encoding(b"remuw s2,s1,zero", 0x0204_f93b),
];

/// A register, a register and a number.
const OF_NUMBERS: [Encoding; 13] = [
    Encoding(b"addi x31,x1,-2048", 0x8000_8f93),
    Encoding(b"slti x30,x2,2047", 0x7ff1_2f13),
    Encoding(b"sltiu x29,x3,-1", 0xfff1_be93),
    Encoding(b"xori x28,x4,0", 0x0002_4e13),
    Encoding(b"ori x27,x5,1", 0x0012_ed93),
    Encoding(b"andi x26,x6,1365", 0x5553_7d13),
    Encoding(b"addiw x25,x7,-1366", 0xaaa3_8c9b),
    Encoding(b"slli a0,a1,63", 0x03f5_9513),
    Encoding(b"srli a0,a1,32", 0x0205_d513),
    Encoding(b"srai a0,a1,1", 0x4015_d513),
    Encoding(b"slliw a0,a1,31", 0x01f5_951b),
    Encoding(b"srliw a0,a1,0", 0x0005_d51b),
    Encoding(b"sraiw a0,a1,17", 0x4115_d51b),
];

/// A number and a register in brackets.
const OF_MEMORY: [Encoding; 12] = [
    Encoding(b"lb s2,-2048(t0)", 0x8002_8903),
    Encoding(b"lh s3,2047(t1)", 0x7ff3_1983),
    Encoding(b"lw s4,4(t2)", 0x0043_aa03),
    Encoding(b"ld s5,-8(t3)", 0xff8e_3a83),
    Encoding(b"lbu s6,0(t4)", 0x000e_cb03),
    Encoding(b"lhu s7,1(t5)", 0x001f_5b83),
    Encoding(b"lwu s8,12(t6)", 0x00cf_ec03),
    Encoding(b"sb s2,-2048(t0)", 0x8122_8023),
    Encoding(b"sh s3,2047(t1)", 0x7f33_1fa3),
    Encoding(b"sw s4,31(t2)", 0x0143_afa3),
    Encoding(b"sd s5,-32(t3)", 0xff5e_3023),
    Encoding(b"jalr ra,-4(a5)", 0xffc7_80e7),
];

/// Upper parts, no operands, and spellings of other instructions.
const OF_FEW_OPERANDS: [Encoding; 12] = [
    Encoding(b"lui t0,1048575", 0xffff_f2b7),
    Encoding(b"auipc gp,74565", 0x1234_5197),
    Encoding(b"fence", 0x0ff0_000f),
    Encoding(b"ecall", 0x0000_0073),
    Encoding(b"ebreak", 0x0010_0073),
    Encoding(b"nop", 0x0000_0013),
    Encoding(b"mv s3,s4", 0x000a_0993),
    Encoding(b"li t6,-2048", 0x8000_0f93),
    Encoding(b"li a0,2047", 0x7ff0_0513),
    Encoding(b"ret", 0x0000_8067),
    Encoding(b"mul a0,a1,a2", 0x02c5_8533),
    Encoding(b"slli zero,zero,32", 0x0200_1013),
];

/// Branches, jumps and parts of addresses, whose fields hold 0.
const OF_NAMES: [Encoding; 13] = [
    Encoding(b"beq a0,a1,f", 0x00b5_0063),
    Encoding(b"bne a0,a1,f", 0x00b5_1063),
    Encoding(b"blt a0,a1,f", 0x00b5_4063),
    Encoding(b"bge s0,s1,f", 0x0094_5063),
    Encoding(b"bltu x0,x31,f", 0x01f0_6063),
    Encoding(b"bgeu t0,t1,f", 0x0062_f063),
    Encoding(b"jal ra,f", 0x0000_00ef),
    Encoding(b"jal zero,f", 0x0000_006f),
    Encoding(b"j f", 0x0000_006f),
    Encoding(b"lui a0,%hi(f)", 0x0000_0537),
    Encoding(b"addi a0,a0,%lo(f)", 0x0005_0513),
    Encoding(b"ld a0,%lo(f)(a1)", 0x0005_b503),
    Encoding(b"sd a0,%lo(f)(a1)", 0x00a5_b023),
];

#[test]
fn encodings(rt: HostRuntime) -> Result<(), Fail> {
    try_each(&rt, rt.alloc(), &OF_REGISTERS)?;
    try_each(&rt, rt.alloc(), &OF_PRODUCTS)?;
    try_each(&rt, rt.alloc(), &OF_NUMBERS)?;
    try_each(&rt, rt.alloc(), &OF_MEMORY)?;
    try_each(&rt, rt.alloc(), &OF_FEW_OPERANDS)?;
    try_each(&rt, rt.alloc(), &OF_NAMES)?;
    Ok(())
}
