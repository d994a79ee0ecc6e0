//! Sources with a fault.

use crate::assembly::assemble_short;
use cell_asm::{AsmFail, AsmKind};
use std::alloc::Global;
use std::process::Abort;
use std::test::*;

/// A source, and the line of its first fault.
struct Faulty(&'static [u8], u32);

/// The line and the kind of the fault of a source.
fn fault_of(alloc: Global, source: &[u8]) -> Option<(u32, AsmKind)> {
    match assemble_short(alloc, source) {
        Err(AsmFail::Fault { line, kind }) => Some((line, kind)),
        _ => None,
    }
}

/// Assembles each source, whose fault is of that kind.
fn try_each(rt: &impl Abort, alloc: Global, kind: AsmKind, cases: &[Faulty]) {
    for (number, case) in cases.iter().enumerate() {
        let found = fault_of(alloc, case.0);
        assert!(rt; found == Some((case.1, kind)), "{kind:?}, case {number}");
    }
}

/// Labels, statements and lines that are not read, also where there are other faults.
const UNKNOWN: [Faulty; 12] = [
    Faulty(b".text\nfoo: frob 5000", 2),
    Faulty(b".text\nx: nop\nx: frob a0", 3),
    Faulty(b".text\nfrob\nnop a0\nli a0,5000", 2),
    Faulty(b".data\n.byte 256,y z", 2),
    Faulty(b"frob", 1),
    Faulty(b"foo:: nop", 1),
    Faulty(b"1: nop", 1),
    Faulty(b".La1: nop", 1),
    Faulty(b".local x", 1),
    Faulty(b".text\nnop\r", 2),
    Faulty(b".text\nadd 5,foo", 2),
    Faulty(b".text\nlw a0,%pcrel_lo(x)(a0)\nfrob", 3),
];

/// Operands that are not read.
const UNREAD_OPERANDS: [Faulty; 11] = [
    Faulty(b".text\nadd foo,a1,a2", 2),
    Faulty(b".text\nadd a0,foo,a2", 2),
    Faulty(b".text\nadd a0,a1,", 2),
    Faulty(b".text\nlw a0,4 (sp)", 2),
    Faulty(b".text\nli a0,007", 2),
    Faulty(b".text\nli a0,0X1", 2),
    Faulty(b".text\nli a0,-0x1", 2),
    Faulty(b".text\nadd a0,a1,foo", 2),
    Faulty(b".text\nlw a0,%foo(x)(a1)", 2),
    Faulty(b".text\nlw a0,4(foo)", 2),
    Faulty(b".text\nli a0,%lo(.La1)", 2),
];

/// Operands of the wrong number or kind.
const WRONG_OPERANDS: [Faulty; 20] = [
    Faulty(b"nop a0", 1),
    Faulty(b".text\nadd 5,a1,a2", 2),
    Faulty(b".text\nadd a0,5,a2", 2),
    Faulty(b".data\n.byte 256,y", 2),
    Faulty(b".text\nadd a0,a1", 2),
    Faulty(b".text\nadd a0,a1,5", 2),
    Faulty(b".text\nnop a0", 2),
    Faulty(b".text\nli a0,5000,1", 2),
    Faulty(b".text\nj x+4", 2),
    Faulty(b".text\naddi a0,a1,%hi(x)", 2),
    Faulty(b".text\nslli a0,a1,%lo(x)", 2),
    Faulty(b".text\nlw a0,%pcrel_lo(x+4)(a1)", 2),
    Faulty(b".text\nauipc a0,%got_pcrel_hi(x+4)", 2),
    Faulty(b".text\nlui a0,%got_pcrel_hi(x)", 2),
    Faulty(b".data\n.byte x", 2),
    Faulty(b".data\n.word", 2),
    Faulty(b"x: add a0,a1,5", 1),
    Faulty(b".weak", 1),
    Faulty(b".weak x,y", 1),
    Faulty(b".weak 5", 1),
];

/// Numbers that are too far for an instruction.
const FAR_NUMBERS: [Faulty; 11] = [
    Faulty(b"li a0,2048", 1),
    Faulty(b".text\nli a0,-2049", 2),
    Faulty(b".text\nlw a0,2048(sp)", 2),
    Faulty(b".text\nsd a0,-2049(sp)", 2),
    Faulty(b".text\njalr ra,2048(a0)", 2),
    Faulty(b".text\nauipc a0,1048576", 2),
    Faulty(b".text\nlui a0,-1", 2),
    Faulty(b".text\nli a0,2048", 2),
    Faulty(b".text\nslli a0,a0,64", 2),
    Faulty(b".text\nslliw a0,a0,32", 2),
    Faulty(b".text\nlui a0,1048576", 2),
];

/// Numbers that are too far for a directive.
const FAR_DATA: [Faulty; 11] = [
    Faulty(b".text\nx:\n.byte 256", 3),
    Faulty(b".data\nx: .byte -129\nx: nop", 2),
    Faulty(b".data\n.half 65536", 2),
    Faulty(b".data\n.half 1,-32769", 2),
    Faulty(b".data\n.word 4294967296", 2),
    Faulty(b".data\n.byte 256", 2),
    Faulty(b".data\n.quad 18446744073709551616", 2),
    Faulty(b".data\n.quad x-9223372036854775809", 2),
    Faulty(b".data\n.quad x+9223372036854775808", 2),
    Faulty(b".align 13", 1),
    Faulty(b".zero -1", 1),
];

/// Statements in no section or a wrong one.
const MISPLACED: [Faulty; 11] = [
    Faulty(b".text\nx:\nx: .byte 1", 3),
    Faulty(b"nop", 1),
    Faulty(b"x:", 1),
    Faulty(b"x: .text", 1),
    Faulty(b".text\n.zero 3", 2),
    Faulty(b".text\n.align 1", 2),
    Faulty(b".text\n.half 1", 2),
    Faulty(b".data\nnop", 2),
    Faulty(b".bss\n.quad 0", 2),
    Faulty(b".weak x\nx: .globl x", 2),
    Faulty(
        b".text\n.zero 99999999999999999999999999999999999999999998",
        2,
    ),
];

/// Names that are defined twice, or get two bindings.
const REPEATED: [Faulty; 9] = [
    Faulty(b".data\nx:\nx: .zero 1048577", 3),
    Faulty(b".text\nx: nop\nlw a0,%pcrel_lo(x)(a0)\nx: nop", 4),
    Faulty(b".text\nx:\nx: nop", 3),
    Faulty(b".globl x\n.weak x", 2),
    Faulty(b".weak x\n.globl x", 2),
    Faulty(b".weak x\n.weak y\n.weak x\n.globl y\n.globl x", 4),
    Faulty(b".weak x\n.text\nx: ret\n.globl x\nfrob", 4),
    Faulty(b".globl x\n.data\nx: .weak x\nx: .byte 256", 3),
    Faulty(b".weak x\n.bss\nx:\nx: .globl x", 4),
];

/// Sections that grow above their limit.
const TOO_LONG: [Faulty; 3] = [
    Faulty(b".bss\n.zero 16777217", 2),
    Faulty(b".data\n.zero 1048576\n.byte 1", 3),
    Faulty(
        b".text\n.zero 99999999999999999999999999999999999999999996",
        2,
    ),
];

/// References to labels that are none of an upper part.
const NO_UPPER: [Faulty; 3] = [
    Faulty(
        b".text\naddi a0,a1,%pcrel_lo(x)\naddi a0,a1,%pcrel_lo(y)",
        2,
    ),
    Faulty(b".text\nlw a0,%pcrel_lo(x)(a0)\nx: nop", 2),
    Faulty(
        b".data\nx:\n.text\nauipc a0,%pcrel_hi(y)\naddi a0,a0,%pcrel_lo(x)",
        5,
    ),
];

#[test]
fn faults(rt: HostRuntime) {
    try_each(&rt, rt.alloc(), AsmKind::Word, &UNKNOWN);
    try_each(&rt, rt.alloc(), AsmKind::Word, &UNREAD_OPERANDS);
    try_each(&rt, rt.alloc(), AsmKind::Operand, &WRONG_OPERANDS);
    try_each(&rt, rt.alloc(), AsmKind::Range, &FAR_NUMBERS);
    try_each(&rt, rt.alloc(), AsmKind::Range, &FAR_DATA);
    try_each(&rt, rt.alloc(), AsmKind::Section, &MISPLACED);
    try_each(&rt, rt.alloc(), AsmKind::Twice, &REPEATED);
    try_each(&rt, rt.alloc(), AsmKind::Long, &TOO_LONG);
    try_each(&rt, rt.alloc(), AsmKind::Label, &NO_UPPER);
}
