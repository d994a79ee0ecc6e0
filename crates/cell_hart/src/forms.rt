//! An instruction of a known operation, which takes no more of its word than it needs.

ghost use Rattle.std.specs.Prelude.{◌≡◌, true, if◌then◌else◌};
ghost use Rattle.cell_isa.specs.Meaning.{access_of};
ghost use Rattle.cell_isa.specs.Table.{is_of_row, row_of};
ghost use Rattle.cell_isa.specs.declared.memory.Access.TheVariants.{Loads, Stores};
ghost use Rattle.cell_isa.specs.declared.insn.Op.TheVariants.{Jal, Jalr};
ghost use Rattle.cell_mem.specs.State.{HasWrites, is_width};
ghost use Rattle.cell_hart.specs.Forms.{is_branch, is_immediate, is_register, is_shift, is_shift_word, is_upper};
ghost use Rattle.cell_hart.specs.Step.{Steps, seen_of};
ghost use Rattle.cell_world.specs.Running.Execute.{computed, execute_word, jumped};

use crate::hart::Hart;
use crate::stop::Stop;
use cell_fields::{
    immediate_b, immediate_i, immediate_j, immediate_s, immediate_u, rd, rs1, rs2, shift,
    shift_word,
};
use cell_isa::{Op, address, aim, is_taken, result};
use cell_mem::Memory;

impl Hart {
    /// What an operation makes of rs1 and an immediate goes into rd.
    #[inline(always)]
    pub(crate) fn by_immediate(&mut self, memory: &Memory, op: Op, word: u32) -> Stop
        requires form { is_immediate op ≡ true }
        requires row { is_of_row word (row_of op) ≡ true }
        ensures { Steps result (execute_word (seen_of memory.now) self.old.x self.old.pc word) self.old self.new memory.now memory.now }
    {
        let a = self.register(rs1(word));
        let b = self.register(0);
        let value = result(op, self.pc, a, b, immediate_i(word));
        self.compute(memory, rd(word), value)
    }

    /// What an operation makes of rs1 and rs2 goes into rd.
    #[inline(always)]
    pub(crate) fn by_registers(&mut self, memory: &Memory, op: Op, word: u32) -> Stop
        requires form { is_register op ≡ true }
        requires row { is_of_row word (row_of op) ≡ true }
        ensures { Steps result (execute_word (seen_of memory.now) self.old.x self.old.pc word) self.old self.new memory.now memory.now }
    {
        let a = self.register(rs1(word));
        let b = self.register(rs2(word));
        let value = result(op, self.pc, a, b, 0);
        self.compute(memory, rd(word), value)
    }

    /// What a shift by a number makes of rs1 goes into rd.
    #[inline(always)]
    pub(crate) fn by_shift(&mut self, memory: &Memory, op: Op, word: u32) -> Stop
        requires form { is_shift op ≡ true }
        requires row { is_of_row word (row_of op) ≡ true }
        ensures { Steps result (execute_word (seen_of memory.now) self.old.x self.old.pc word) self.old self.new memory.now memory.now }
    {
        let a = self.register(rs1(word));
        let b = self.register(0);
        let value = result(op, self.pc, a, b, shift(word));
        self.compute(memory, rd(word), value)
    }

    /// The same of a shift of the low 32 bits.
    #[inline(always)]
    pub(crate) fn by_shift_word(&mut self, memory: &Memory, op: Op, word: u32) -> Stop
        requires form { is_shift_word op ≡ true }
        requires row { is_of_row word (row_of op) ≡ true }
        ensures { Steps result (execute_word (seen_of memory.now) self.old.x self.old.pc word) self.old self.new memory.now memory.now }
    {
        let a = self.register(rs1(word));
        let b = self.register(0);
        let value = result(op, self.pc, a, b, shift_word(word));
        self.compute(memory, rd(word), value)
    }

    /// What an operation makes of upper bits goes into rd.
    #[inline(always)]
    pub(crate) fn by_upper(&mut self, memory: &Memory, op: Op, word: u32) -> Stop
        requires form { is_upper op ≡ true }
        requires row { is_of_row word (row_of op) ≡ true }
        ensures { Steps result (execute_word (seen_of memory.now) self.old.x self.old.pc word) self.old self.new memory.now memory.now }
    {
        let a = self.register(0);
        let b = self.register(0);
        let value = result(op, self.pc, a, b, immediate_u(word));
        self.compute(memory, rd(word), value)
    }

    /// A load.
    #[inline(always)]
    pub(crate) fn by_load(
        &mut self,
        memory: &Memory,
        op: Op,
        word: u32,
        width: u8,
        with_sign: bool,
    ) -> Stop
        requires form { access_of op ≡ Loads width with_sign }
        requires width { is_width width ≡ true }
        requires row { is_of_row word (row_of op) ≡ true }
        ensures { Steps result (execute_word (seen_of memory.now) self.old.x self.old.pc word) self.old self.new memory.now memory.now }
    {
        let a = self.register(rs1(word));
        let addr = address(a, immediate_i(word));
        self.load(memory, rd(word), addr, width, with_sign)
    }

    /// A store.
    #[inline(always)]
    pub(crate) fn by_store(&mut self, memory: &mut Memory, op: Op, word: u32, width: u8) -> Stop
        requires form { access_of op ≡ Stores width }
        requires width { is_width width ≡ true }
        requires row { is_of_row word (row_of op) ≡ true }
        requires undo { HasWrites memory.old 1 }
        ensures { Steps result (execute_word (seen_of memory.old) self.old.x self.old.pc word) self.old self.new memory.old memory.new }
    {
        let a = self.register(rs1(word));
        let b = self.register(rs2(word));
        let addr = address(a, immediate_s(word));
        self.store(memory, addr, width, b)
    }

    /// To another place, or on to the next instruction.
    #[inline(always)]
    fn lead(&mut self, memory: &Memory, taken: bool, aim: u64) -> Stop
        ensures { Steps result (if taken then jumped (seen_of memory.now) self.old.x aim 0 0 else computed (seen_of memory.now) self.old.x self.old.pc 0 0) self.old self.new memory.now memory.now }
    {
        if taken {
            self.jump(memory, aim, 0, 0)
        } else {
            self.compute(memory, 0, 0)
        }
    }

    /// A branch.
    #[inline(always)]
    pub(crate) fn by_branch(&mut self, memory: &Memory, op: Op, word: u32) -> Stop
        requires form { is_branch op ≡ true }
        requires row { is_of_row word (row_of op) ≡ true }
        ensures { Steps result (execute_word (seen_of memory.now) self.old.x self.old.pc word) self.old self.new memory.now memory.now }
    {
        let a = self.register(rs1(word));
        let b = self.register(rs2(word));
        let taken = is_taken(op, a, b);
        let there = aim(op, self.pc, a, immediate_b(word));
        self.lead(memory, taken, there)
    }

    /// A jump by a distance.
    #[inline(always)]
    pub(crate) fn jump_near(&mut self, memory: &Memory, word: u32) -> Stop
        requires { is_of_row word (row_of Jal) ≡ true }
        ensures { Steps result (execute_word (seen_of memory.now) self.old.x self.old.pc word) self.old self.new memory.now memory.now }
    {
        let imm = immediate_j(word);
        let there = aim(Op::Jal, self.pc, 0, imm);
        let back = result(Op::Jal, self.pc, 0, 0, imm);
        self.jump(memory, there, rd(word), back)
    }

    /// A jump by a register.
    #[inline(always)]
    pub(crate) fn jump_far(&mut self, memory: &Memory, word: u32) -> Stop
        requires { is_of_row word (row_of Jalr) ≡ true }
        ensures { Steps result (execute_word (seen_of memory.now) self.old.x self.old.pc word) self.old self.new memory.now memory.now }
    {
        let a = self.register(rs1(word));
        let imm = immediate_i(word);
        let there = aim(Op::Jalr, self.pc, a, imm);
        let back = result(Op::Jalr, self.pc, a, 0, imm);
        self.jump(memory, there, rd(word), back)
    }
}
