ghost use Rattle.std.specs.Prelude.{◌<◌};

use crate::meanings::{ACCESSES, Computed, Led, RESULTS, TURNS};
use cell_isa::{Op, *};
use std::process::Abort;
use std::test::*;

/// Operations that compute nothing for rd.
const NOTHING: [Op; 20] = [
    Op::Beq,
    Op::Bne,
    Op::Blt,
    Op::Bge,
    Op::Bltu,
    Op::Bgeu,
    Op::Lb,
    Op::Lh,
    Op::Lw,
    Op::Ld,
    Op::Lbu,
    Op::Lhu,
    Op::Lwu,
    Op::Sb,
    Op::Sh,
    Op::Sw,
    Op::Sd,
    Op::Fence,
    Op::Ecall,
    Op::Ebreak,
];

fn computed(case: &Computed) -> i64 {
    let (a, b) = (case.2.cast_unsigned(), case.3.cast_unsigned());
    result(case.0, case.1, a, b, case.4).cast_signed()
}

#[test]
fn results(rt: HostRuntime) {
    for (number, case) in RESULTS.iter().enumerate() {
        assert_eq!(rt; computed(case), case.5, "case {number}");
        assert_eq!(rt; access(case.0), Access::Untouched, "case {number}");
        let is_jump = matches!(case.0, Op::Jal | Op::Jalr);
        assert_eq!(rt; is_taken(case.0, 7, 7), is_jump, "case {number}");
    }
    for op in NOTHING {
        assert_eq!(rt; result(op, 1, 2, 3, 4), 0, "{op:?}");
    }
}

/// Where the next instruction stands, if not behind this one.
fn led(case: &Led) -> Option<u64> {
    let (a, b) = (case.2.cast_unsigned(), case.3.cast_unsigned());
    if is_taken(case.0, a, b) {
        Some(aim(case.0, case.1, a, case.4))
    } else {
        None
    }
}

#[test]
fn turns(rt: HostRuntime) {
    for (number, case) in TURNS.iter().enumerate() {
        assert_eq!(rt; led(case), case.5, "case {number}");
        assert_eq!(rt; access(case.0), Access::Untouched, "case {number}");
    }
}

/// How many bits of a doubleword stand above so many bytes.
fn bits_above(rt: &impl Abort, width: u8) -> u32
    ensures { result < 64 }
{
    assert!(rt; 0 < width && width <= 8);
    64 - 8 * u32::from(width)
}

/// What is loaded of a doubleword, or the doubleword after a number is stored there.
fn touched(rt: &impl Abort, access: Access, held: u64, number: u64) -> u64 {
    match access {
        Access::Untouched => held,
        Access::Loads { width, with_sign } => {
            let above = bits_above(rt, width);
            if with_sign {
                ((held << above).cast_signed() >> above).cast_unsigned()
            } else {
                (held << above) >> above
            }
        }
        Access::Stores { width } => {
            let stored = u64::MAX >> bits_above(rt, width);
            held & !stored | number & stored
        }
    }
}

#[test]
fn accesses(rt: HostRuntime) {
    for (number, case) in ACCESSES.iter().enumerate() {
        let access = access(case.0);
        let (held, value) = (case.1.cast_unsigned(), case.2.cast_unsigned());
        let found = touched(&rt, access, held, value);
        assert_ne!(rt; access, Access::Untouched, "case {number}");
        assert_eq!(rt; found.cast_signed(), case.3, "case {number}");
    }
    for op in [Op::Fence, Op::Ecall, Op::Ebreak] {
        assert_eq!(rt; access(op), Access::Untouched, "{op:?}");
        assert!(rt; !is_taken(op, 7, 7), "{op:?}");
    }
}
