//! The hart.

ghost use Rattle.std.specs.Prelude.{◌≡◌, ◌+◌, ◌%◌, ◌<◌, ◌^◌, true, slice_index};
ghost use Rattle.cell_num.specs.Limits.{stack_size};
ghost use Rattle.cell_mem.specs.State.{HasWrites, is_width};
ghost use Rattle.cell_num.specs.Bits.{wrap};
ghost use Rattle.cell_world.specs.Commands.SpawnCommand.{first_registers as registers_of};
ghost use Rattle.cell_world.specs.Running.Execute.{with_register as register_with, extended as extended_of};

use crate::causes::{load_cause, store_cause};
use crate::stop::Stop;
use cell_isa::{Access, Insn, Op, access, address, aim, decode, is_taken, result};
use cell_mem::Memory;
use cell_num::{Cause, STACK_SIZE, sign_extend};

/// The pc, which is the address of the instruction to come, and x0 to x31; x0 is 0.
#[derive(Drop)]
pub struct Hart {
    pub pc: u64,
    pub x: [u64; 32],
    pub ghost zero: { slice_index x 0 ≡ 0 },
}

/// The number of so many bytes on 64 bits: the highest bit repeated, or zeros in its place.
fn extended(with_sign: bool, width: u8, value: u64) -> u64
    requires { is_width width ≡ true }
    ensures { result ≡ extended_of with_sign width value }
{
    if !with_sign {
        return value;
    }
    match width {
        1 => sign_extend::<8>(value),
        2 => sign_extend::<16>(value),
        4 => sign_extend::<32>(value),
        _ => sign_extend::<64>(value),
    }
}

/// All are 0 but x2, 16 bytes below the stack's end, and x10.
fn first_registers(arg: u64, stack: u64) -> [u64; 32]
    requires { stack + stack_size < 2 ^ 64 }
    ensures { result ≡ registers_of arg stack }
{
    let mut x = [0u64; 32];
    x[10] = arg;
    x[2] = stack + (STACK_SIZE - 16);
    x
}

impl Hart {
    ghost use Rattle.cell_hart.specs.Step.{Steps, seen_of, IsAccess};
    ghost use Rattle.cell_world.specs.Running.Execute.{accessed, computed, execute, execute_word, jumped, loaded, performed, stepped, stored};

    /// A hart at its first instruction, with an argument in x10 and a stack, which is named by its
    /// first address.
    pub fn begin(entry: u64, arg: u64, stack: u64) -> Hart
        requires { stack + stack_size < 2 ^ 64 }
        ensures pc { result.pc ≡ entry }
        ensures x { result.x ≡ registers_of arg stack }
    {
        Hart {
            pc: entry,
            x: first_registers(arg, stack),
        }
    }

    /// What stands in a register.
    pub(crate) fn register(&self, n: u8) -> u64
        ensures { result ≡ slice_index self.now.x n }
    {
        let place = usize::from(n);
        if place < self.x.len() {
            self.x[place]
        } else {
            0
        }
    }

    /// Sets a register other than x0.
    fn set_register(&mut self, n: u8, value: u64)
        ensures x { self.new.x ≡ register_with self.old.x n value }
        ensures pc { self.new.pc ≡ self.old.pc }
    {
        let place = usize::from(n);
        if place != 0 && place < self.x.len() {
            self.x[place] = value;
        }
    }

    /// A trap at this instruction.
    pub(crate) fn trap(&self, cause: Cause) -> Stop
        ensures { result ≡ Stop.Trap cause self.now.pc }
    {
        Stop::Trap { cause, pc: self.pc }
    }

    /// On to the next instruction.
    fn advance(&mut self) -> Stop
        ensures stop { result ≡ Stop.Next }
        ensures x { self.new.x ≡ self.old.x }
        ensures pc { self.new.pc ≡ wrap (self.old.pc + 4) }
    {
        self.pc = self.pc.wrapping_add(4);
        Stop::Next
    }

    /// On to the next instruction, with a number in rd.
    pub(crate) fn compute(&mut self, memory: &Memory, rd: u8, value: u64) -> Stop
        ensures { Steps result (computed (seen_of memory.now) self.old.x self.old.pc rd value) self.old self.new memory.now memory.now }
    {
        self.set_register(rd, value);
        self.advance()
    }

    /// A jump, or a branch that is taken.
    pub(crate) fn jump(&mut self, memory: &Memory, aim: u64, rd: u8, value: u64) -> Stop
        ensures { Steps result (jumped (seen_of memory.now) self.old.x aim rd value) self.old self.new memory.now memory.now }
    {
        if aim % 4 != 0 {
            return self.trap(Cause::Jump);
        }
        self.set_register(rd, value);
        self.pc = aim;
        Stop::Next
    }

    /// So many bytes from the address on go into rd.
    pub(crate) fn load(
        &mut self,
        memory: &Memory,
        rd: u8,
        addr: u64,
        width: u8,
        with_sign: bool,
    ) -> Stop
        requires { is_width width ≡ true }
        ensures { Steps result (loaded (seen_of memory.now) self.old.x self.old.pc rd addr width with_sign) self.old self.new memory.now memory.now }
    {
        match memory.load(addr, width) {
            Ok(value) => self.compute(memory, rd, extended(with_sign, width, value)),
            Err(fault) => self.trap(load_cause(fault)),
        }
    }

    /// The low bytes of a number, so many, go to the address.
    #[inline(always)]
    pub(crate) fn store(&mut self, memory: &mut Memory, addr: u64, width: u8, value: u64) -> Stop
        requires width { is_width width ≡ true }
        requires undo { HasWrites memory.old 1 }
        ensures { Steps result (stored (seen_of memory.old) self.old.x self.old.pc addr width value) self.old self.new memory.old memory.new }
    {
        match memory.store(addr, width, value) {
            Ok(()) => self.advance(),
            Err(fault) => self.trap(store_cause(fault)),
        }
    }

    /// A load, a store, or neither.
    fn access(&mut self, memory: &mut Memory, insn: Insn, a: u64, b: u64, access: Access) -> Stop
        requires width { IsAccess access }
        requires undo { HasWrites memory.old 1 }
        ensures { Steps result (accessed (seen_of memory.old) self.old.x self.old.pc insn a b access) self.old self.new memory.old memory.new }
    {
        match access {
            Access::Untouched => {
                let value = result(insn.op, self.pc, a, b, insn.imm);
                self.compute(memory, insn.rd, value)
            }
            Access::Loads { width, with_sign } => {
                self.load(memory, insn.rd, address(a, insn.imm), width, with_sign)
            }
            Access::Stores { width } => self.store(memory, address(a, insn.imm), width, b),
        }
    }

    /// Any instruction but a fence, a call and a break.
    fn perform_step(&mut self, memory: &mut Memory, insn: Insn, a: u64, b: u64) -> Stop
        requires { HasWrites memory.old 1 }
        ensures { Steps result (stepped (seen_of memory.old) self.old.x self.old.pc insn a b) self.old self.new memory.old memory.new }
    {
        if is_taken(insn.op, a, b) {
            let aim = aim(insn.op, self.pc, a, insn.imm);
            let value = result(insn.op, self.pc, a, b, insn.imm);
            return self.jump(memory, aim, insn.rd, value);
        }
        self.access(memory, insn, a, b, access(insn.op))
    }

    /// Any instruction.
    fn perform(&mut self, memory: &mut Memory, insn: Insn) -> Stop
        requires { HasWrites memory.old 1 }
        ensures { Steps result (performed (seen_of memory.old) self.old.x self.old.pc insn insn.op) self.old self.new memory.old memory.new }
    {
        match insn.op {
            Op::Ecall => Stop::Call,
            Op::Ebreak => self.trap(Cause::Break),
            Op::Fence => self.advance(),
            _ => {
                let a = self.register(insn.rs1);
                let b = self.register(insn.rs2);
                self.perform_step(memory, insn, a, b)
            }
        }
    }

    /// The instruction that a word is, decoded whole.
    pub(crate) fn perform_word(&mut self, memory: &mut Memory, word: u32) -> Stop
        requires { HasWrites memory.old 1 }
        ensures { Steps result (execute_word (seen_of memory.old) self.old.x self.old.pc word) self.old self.new memory.old memory.new }
    {
        match decode(word) {
            Some(insn) => self.perform(memory, insn),
            None => self.trap(Cause::Illegal),
        }
    }

    /// The instruction at the pc.
    #[inline(always)]
    pub fn step(&mut self, memory: &mut Memory) -> Stop
        requires { HasWrites memory.old 1 }
        ensures { Steps result (execute (seen_of memory.old) self.old.x self.old.pc) self.old self.new memory.old memory.new }
    {
        match memory.fetch_next(self.pc) {
            Ok(word) => self.perform_opcode(memory, word),
            Err(_) => self.trap(Cause::Fetch),
        }
    }
}
