//! How tasks fault: the cause, and the pc.

use crate::cases::{Case, try_all};
use crate::folder::outcome;
use crate::sources::{SourceFile, assembled};
use cell_run::Status;
use std::alloc::{AllocError, Global};
use std::test::Fail;

/// Text, read-only data, and data of which the first eight bytes are a sealed field, at 10000000, 10001000 and
/// 10002000; the stack is at 10003000 to 10007000.
const PLACES: &str = "\n.rodata\n.quad 1\n.data\n.quad f::go\n.zero 24\n";

/// What the task does from `f::go` on, its argument, and how it stands after ten turns.
struct Trap(&'static str, &'static str, &'static str);

static TRAPS: [Trap; 48] = [
    // Not in an executable region: not mapped, data, a stack, and the address 4. The pc is the bad address.
    Trap(
        "jalr zero,0(a0)",
        "0x20000000",
        "turns 2 fault fetch at 20000000",
    ),
    Trap(
        "jalr zero,0(a0)",
        "0x10001000",
        "turns 2 fault fetch at 10001000",
    ),
    Trap(
        "jalr zero,0(a0)",
        "0x10002000",
        "turns 2 fault fetch at 10002000",
    ),
    Trap(
        "jalr zero,0(a0)",
        "0x10003000",
        "turns 2 fault fetch at 10003000",
    ),
    Trap("jalr zero,0(a0)", "4", "turns 2 fault fetch at 4"),
    Trap(
        "jalr zero,0(a0)",
        "0xfffffffffffffffc",
        "turns 2 fault fetch at fffffffffffffffc",
    ),
    Trap(
        "jalr zero,2(a0)",
        "0xffffe",
        "turns 2 fault fetch at 100000",
    ),
    // Bit 0 of a target is cleared, and a target of 0 ends the task.
    Trap(
        "jalr zero,0(a0)",
        "0x20000001",
        "turns 2 fault fetch at 20000000",
    ),
    Trap("jalr zero,0(a0)", "1", "turns 1 done 1"),
    // Into the padding behind the text, which is zeros, and words without a meaning.
    Trap("nop", "0", "turns 2 fault illegal at 10000004"),
    Trap(".word 0xffffffff", "0", "turns 1 fault illegal at 10000000"),
    Trap(".word 0x40001013", "0", "turns 1 fault illegal at 10000000"),
    Trap(".word 0x100f", "0", "turns 1 fault illegal at 10000000"),
    Trap(".word 0xf3", "0", "turns 1 fault illegal at 10000000"),
    Trap(
        "nop\n.word 0x10001",
        "0",
        "turns 2 fault illegal at 10000004",
    ),
    Trap(
        ".word 0x100073\nnop",
        "0",
        "turns 1 fault break at 10000000",
    ),
    Trap("nop\nebreak", "0", "turns 2 fault break at 10000004"),
    // Jumps to half words; a branch that isn't taken traps not.
    Trap(
        "jalr zero,2(a0)",
        "0x10000000",
        "turns 1 fault jump at 10000000",
    ),
    Trap(
        "jalr zero,3(a0)",
        "0x20000000",
        "turns 1 fault jump at 10000000",
    ),
    Trap(
        "jalr zero,0(a0)",
        "0x20000002",
        "turns 1 fault jump at 10000000",
    ),
    Trap("nop\n.word 0x20006f", "0", "turns 2 fault jump at 10000004"),
    Trap(".word 0x163", "0", "turns 1 fault jump at 10000000"),
    Trap(
        ".word 0x1163\nebreak",
        "0",
        "turns 2 fault break at 10000004",
    ),
    // Loads: misaligned before unmapped.
    Trap(
        "lh a1,0(a0)",
        "0x10000001",
        "turns 1 fault load-align at 10000000",
    ),
    Trap(
        "lw a1,0(a0)",
        "0x20000002",
        "turns 1 fault load-align at 10000000",
    ),
    Trap(
        "ld a1,4(a0)",
        "0x10002000",
        "turns 1 fault load-align at 10000000",
    ),
    Trap("lwu a1,-1(a0)", "0", "turns 1 fault load-align at 10000000"),
    Trap(
        "lb a1,0(a0)",
        "0x20000001",
        "turns 1 fault load at 10000000",
    ),
    Trap("lhu a1,0(a0)", "0", "turns 1 fault load at 10000000"),
    Trap(
        "nop\nld a1,-8(a0)",
        "0x10000000",
        "turns 2 fault load at 10000004",
    ),
    Trap("ld a1,-8(a0)", "0", "turns 1 fault load at 10000000"),
    // Text and read-only data can be read, and so can a field.
    Trap(
        "lw a1,0(a0)\nebreak",
        "0x10000000",
        "turns 2 fault break at 10000004",
    ),
    Trap(
        "ld a1,0(a0)\nebreak",
        "0x10001000",
        "turns 2 fault break at 10000004",
    ),
    Trap(
        "ld a1,0(a0)\nebreak",
        "0x10002000",
        "turns 2 fault break at 10000004",
    ),
    // Stores: misaligned before unmapped before denied before sealed.
    Trap(
        "sd a1,0(a0)",
        "0x10002004",
        "turns 1 fault store-align at 10000000",
    ),
    Trap(
        "sh a1,0(a0)",
        "0x10000001",
        "turns 1 fault store-align at 10000000",
    ),
    Trap(
        "sw a1,0(a0)",
        "0x20000001",
        "turns 1 fault store-align at 10000000",
    ),
    Trap(
        "sb a1,0(a0)",
        "0x20000001",
        "turns 1 fault store at 10000000",
    ),
    Trap(
        "sw a1,0(a0)",
        "0x10000000",
        "turns 1 fault store at 10000000",
    ),
    Trap(
        "sb a1,0(a0)",
        "0x10001000",
        "turns 1 fault store at 10000000",
    ),
    Trap(
        "nop\nsb a1,7(a0)",
        "0x10002000",
        "turns 2 fault store at 10000004",
    ),
    Trap(
        "sw a1,4(a0)",
        "0x10002000",
        "turns 1 fault store at 10000000",
    ),
    Trap(
        "sb a1,8(a0)\nebreak",
        "0x10002000",
        "turns 2 fault break at 10000004",
    ),
    // Across the end of a region, and behind it; the last bytes of the stack.
    Trap(
        "sd a1,-4(a0)",
        "0x10003000",
        "turns 1 fault store-align at 10000000",
    ),
    Trap(
        "sd a1,8(sp)\nsd a1,16(sp)",
        "0",
        "turns 2 fault store at 10000004",
    ),
    // Calls that a task hasn't.
    Trap("li a7,4\necall", "0", "turns 2 fault call at 10000004"),
    Trap("li a7,5\necall", "0", "turns 2 fault call at 10000004"),
    Trap("li a7,-1\necall", "0", "turns 2 fault call at 10000004"),
];

fn source(alloc: Global, code: &str) -> Result<String, AllocError> {
    format!(in alloc; ".text\n.globl f::go\nf::go: {code}{PLACES}")
}

/// What the program writes for the turns of such a task.
fn written(alloc: Global, code: &str, argument: &str) -> Result<String, Fail> {
    let source = source(alloc, code)?;
    let file = assembled(alloc, "k#f.o", source.as_str())?;
    let script = format!(in alloc; "load k f\nspawn k f::go {argument}\nstep 1 10\n")?;
    let (_, sink) = outcome(
        alloc,
        &["d", "s"],
        script.as_str(),
        std::slice::from_ref(&file),
    )?;
    let text = std::str::from_utf8(sink.written()).ok().ok_or("UTF-8")?;
    Ok(String::from_str(alloc, text)?)
}

#[test]
fn traps(rt: HostRuntime) -> Result<(), Fail> {
    for trap in &TRAPS {
        let text = written(rt.alloc(), trap.0, trap.1)?;
        let wanted = format!(in rt.alloc(); "3 ok step t1 {}\n", trap.2)?;
        assert!(rt; text.ends_with(wanted.as_str()), "{} gave {text}", trap.0);
    }
    Ok(())
}

/// Jumps to two bytes behind its argument.
static JUMPS: [SourceFile; 1] = [SourceFile {
    name: "k#e.o",
    source: ".text\n.globl e::go\ne::go: jalr zero,2(a0)",
}];

static OF_JUMPS: [Case; 1] = [
    // To a half word, where the jump itself faults, and to where no code is.
    Case {
        script: "load k e\nspawn k e::go 0x10000000\nstep 1 5\nspawn k e::go 0xffffe\nstep 2 5\n",
        status: Status::Done,
        text: "1 ok load #1 patched 0\n2 ok spawn t1 pc 10000000\n\
            3 ok step t1 turns 1 fault jump at 10000000\n4 ok spawn t2 pc 10000000\n\
            5 ok step t2 turns 2 fault fetch at 100000\n",
    },
];

#[test]
fn jumps(rt: HostRuntime) -> Result<(), Fail> {
    try_all(&rt, rt.alloc(), &["d", "s"], &JUMPS, &OF_JUMPS)
}
