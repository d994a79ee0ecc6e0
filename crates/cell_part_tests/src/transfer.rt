//! The routines of a swap, over a memory.

ghost use Rattle.std.specs.Prelude.{◌≡◌, IfOk, is_some, length, true};
ghost use Rattle.cell_mem.specs.State.{HasWrites};

use cell_mem::{Memory, Perm};
use cell_num::{Cause, STACK_SIZE, Why};
use cell_world::{Failure, Record, Routine};
use cell_xfer::*;
use std::alloc::Global;
use std::test::*;

const BASE: u64 = 0x1000_0000;

const STACK: u64 = 0x1000_1000;

// Instructions, encoded by the manual's formats.
const RETURN: u32 = 0x0000_8067; // jalr x0, 0(x1)

const KEEP: u32 = 0x0021_3023; // sd x2, 0(x2)

const STAY: u32 = 0x0000_006f; // jal x0, 0

const CALL: u32 = 0x0000_0073; // ecall

/// So many bytes, which begin with these words.
fn bytes_of(alloc: Global, words: &[u32], size: usize) -> Result<Vec<u8>, Fail>
    ensures { IfOk result (λ bytes. length bytes.items ≡ size) }
{
    let mut bytes = Vec::new(alloc);
    for word in words {
        for byte in word.to_le_bytes() {
            bytes.push(byte)?;
        }
    }
    bytes.resize(size, 0)?;
    Ok(bytes)
}

/// A memory of 16 pages with an undo for so many writes: the first page has the code, the next four
/// are a stack.
fn begun(alloc: Global, code: &[u32], writes: u32) -> Result<Memory, Fail>
    ensures undo { IfOk result (λ m. is_some m.undo ≡ true) }
    ensures writes { IfOk result (λ m. HasWrites m writes) }
{
    let mut memory = Memory::new(alloc, BASE, 16)?;
    memory.reserve(2)?;
    let code = bytes_of(alloc, code, 4096)?;
    let stack = bytes_of(alloc, &[], STACK_SIZE as usize)?;
    memory.map(BASE, Perm::READ | Perm::EXEC, code);
    memory.map(STACK, Perm::READ | Perm::WRITE, stack);
    memory.begin_undo(alloc, writes)?;
    Ok(memory)
}

/// The name `ab`, at two addresses.
fn two_tables(alloc: Global) -> Result<Addresses, Fail> {
    let mut old = Firsts::new(alloc);
    old.add(alloc, b"ab", 0x1111)?;
    old.add(alloc, b"ab", 0x3333)?;
    old.add(alloc, &[0, 0], 0x4444)?;
    let mut new = Firsts::new(alloc);
    new.add(alloc, b"ab", 0x2222)?;
    Ok(Addresses { old, new })
}

/// How the routine ends that begins with the first word.
fn outcome(alloc: Global, code: &[u32], budget: u32) -> Result<Result<(), Failure>, Fail> {
    let mut memory = begun(alloc, code, budget)?;
    let addresses = two_tables(alloc)?;
    let routine = Routine {
        name: 0,
        entry: BASE,
    };
    Ok(transfer(&[routine], budget, STACK, &mut memory, &addresses))
}

fn failure(routine: u32, why: Why) -> Result<(), Failure> {
    Err(Failure { routine, why })
}

/// What was stored stays until it is undone.
#[test]
#[tactic(auto, using(cell_xfer::proofs::Writing::still_begun))]
fn stores_stay(rt: HostRuntime) -> Result<(), Fail> {
    let alloc = rt.alloc();
    let mut memory = begun(alloc, &[KEEP, STAY], 3)?;
    let addresses = two_tables(alloc)?;
    let routine = Routine {
        name: 0,
        entry: BASE,
    };
    let answer = transfer(&[routine], 3, STACK, &mut memory, &addresses);
    assert_eq!(rt; answer, failure(0, Why::Budget));
    let place = STACK + 16368;
    assert_eq!(rt; memory.load(place, 8), Ok(place));
    let displaced = Record {
        addr: place,
        width: 8,
        before: 0,
    };
    assert_eq!(rt; memory.journal(), &[displaced][..]);
    memory.undo();
    assert_eq!(rt; memory.load(place, 8), Ok(0));
    Ok(())
}

/// A routine that makes a call with a name's page, its place in the page and its length, and returns
/// what was answered. At byte 64 it has the name `ab`.
fn asking(number: u32, page: u32, place: u32, len: u32) -> [u32; 17] {
    let mut code = [0; 17];
    code[0] = 0x0000_0537 | page; // lui x10, page
    code[1] = 0x0005_0513 | place << 20; // addi x10, x10, place
    code[2] = 0x0000_0593 | len << 20; // addi x11, x0, len
    code[3] = 0x0000_0893 | number << 20; // addi x17, x0, number
    code[4] = CALL;
    code[5] = RETURN;
    code[16] = 0x6261;
    code
}

/// A call for an address: the page of the name, its place there and its length.
struct Ask {
    number: u32,
    page: u32,
    place: u32,
    len: u32,
    /// What is answered; nothing, if the call is a trap.
    answer: Option<u64>,
}

const PAGE: u32 = 0x1000_0000;

/// By call 4 for the name `ab`, which is known.
const ASK: Ask = Ask {
    number: 4,
    page: PAGE,
    place: 64,
    len: 2,
    answer: Some(0x1111),
};

/// Call 5 from the last byte of the code and the first of the stack.
const ACROSS: Ask = Ask {
    number: 5,
    page: PAGE + 0x1000,
    place: 0xfff,
    len: 2,
    answer: Some(0),
};

const ASKS: [Ask; 8] = [
    ASK,
    Ask {
        number: 5,
        answer: Some(0x2222),
        ..ASK
    },
    Ask {
        number: 4,
        answer: Some(0x4444),
        ..ACROSS
    },
    // Unknown names, of which the longest has 1024 bytes.
    ACROSS,
    Ask {
        number: 5,
        len: 0,
        answer: Some(0),
        ..ASK
    },
    Ask {
        len: 1024,
        answer: Some(0),
        ..ASK
    },
    Ask {
        len: 1025,
        answer: None,
        ..ASK
    },
    // The second byte isn't mapped.
    Ask {
        number: 4,
        page: PAGE + 0x5000,
        answer: None,
        ..ACROSS
    },
];

#[test]
fn names_are_answered(rt: HostRuntime) -> Result<(), Fail> {
    let alloc = rt.alloc();
    for ask in &ASKS {
        let want = match ask.answer {
            Some(0) => Ok(()),
            Some(answer) => failure(0, Why::Returned(answer)),
            None => failure(0, Why::Trap(Cause::Call, BASE + 16)),
        };
        let code = asking(ask.number, ask.page, ask.place, ask.len);
        assert_eq!(rt; outcome(alloc, &code, 6)?, want, "call {}", ask.number);
    }
    Ok(())
}
