//! The instruction of a word: by its opcode, then by funct3 and funct7. What is left, as calls and words that are no
//! instruction's, is decoded whole.
//! RISC-V unprivileged manual, "RV32/64G Instruction Set Listings"

ghost use Rattle.std.specs.Prelude.{◌≡◌};
ghost use Rattle.cell_num.specs.Bits.{bits_at};
ghost use Rattle.cell_mem.specs.State.{HasWrites};
ghost use Rattle.cell_hart.specs.Step.{Steps, seen_of};
ghost use Rattle.cell_world.specs.Running.Execute.{execute_word};

use crate::hart::Hart;
use crate::stop::Stop;
use cell_isa::Op;
use cell_mem::Memory;
use cell_num::Field;

impl Hart {
    /// What computes with an immediate.
    #[inline(always)]
    fn immediates(&mut self, memory: &mut Memory, word: u32) -> Stop
        requires opcode { bits_at 6 0 word ≡ 0x13 }
        requires undo { HasWrites memory.old 1 }
        ensures { Steps result (execute_word (seen_of memory.old) self.old.x self.old.pc word) self.old self.new memory.old memory.new }
    {
        match Field::<14, 12>::get(word) {
            0 => self.by_immediate(memory, Op::Addi, word),
            2 => self.by_immediate(memory, Op::Slti, word),
            3 => self.by_immediate(memory, Op::Sltiu, word),
            4 => self.by_immediate(memory, Op::Xori, word),
            6 => self.by_immediate(memory, Op::Ori, word),
            7 => self.by_immediate(memory, Op::Andi, word),
            _ => self.shifts(memory, word),
        }
    }

    /// Shifts by a number, whose lowest bit of funct7 belongs to the number.
    #[inline(always)]
    fn shifts(&mut self, memory: &mut Memory, word: u32) -> Stop
        requires opcode { bits_at 6 0 word ≡ 0x13 }
        requires undo { HasWrites memory.old 1 }
        ensures { Steps result (execute_word (seen_of memory.old) self.old.x self.old.pc word) self.old self.new memory.old memory.new }
    {
        match (Field::<14, 12>::get(word), Field::<31, 25>::get(word) / 2) {
            (1, 0) => self.by_shift(memory, Op::Slli, word),
            (5, 0) => self.by_shift(memory, Op::Srli, word),
            (5, 16) => self.by_shift(memory, Op::Srai, word),
            _ => self.perform_word(memory, word),
        }
    }

    /// What computes with an immediate on the low 32 bits.
    #[inline(always)]
    fn word_immediates(&mut self, memory: &mut Memory, word: u32) -> Stop
        requires opcode { bits_at 6 0 word ≡ 0x1b }
        requires undo { HasWrites memory.old 1 }
        ensures { Steps result (execute_word (seen_of memory.old) self.old.x self.old.pc word) self.old self.new memory.old memory.new }
    {
        match (Field::<14, 12>::get(word), Field::<31, 25>::get(word)) {
            (0, _) => self.by_immediate(memory, Op::Addiw, word),
            (1, 0x00) => self.by_shift_word(memory, Op::Slliw, word),
            (5, 0x00) => self.by_shift_word(memory, Op::Srliw, word),
            (5, 0x20) => self.by_shift_word(memory, Op::Sraiw, word),
            _ => self.perform_word(memory, word),
        }
    }

    /// What computes with two registers.
    #[inline(always)]
    fn registers(&mut self, memory: &mut Memory, word: u32) -> Stop
        requires opcode { bits_at 6 0 word ≡ 0x33 }
        requires undo { HasWrites memory.old 1 }
        ensures { Steps result (execute_word (seen_of memory.old) self.old.x self.old.pc word) self.old self.new memory.old memory.new }
    {
        match Field::<31, 25>::get(word) {
            0x00 => self.sums(memory, word),
            0x01 => self.products(memory, word),
            0x20 => self.differences(memory, word),
            _ => self.perform_word(memory, word),
        }
    }

    /// Sums, shifts, comparisons and bits.
    #[inline(always)]
    fn sums(&mut self, memory: &mut Memory, word: u32) -> Stop
        requires opcode { bits_at 6 0 word ≡ 0x33 }
        requires funct7 { bits_at 31 25 word ≡ 0x00 }
        requires undo { HasWrites memory.old 1 }
        ensures { Steps result (execute_word (seen_of memory.old) self.old.x self.old.pc word) self.old self.new memory.old memory.new }
    {
        match Field::<14, 12>::get(word) {
            0 => self.by_registers(memory, Op::Add, word),
            1 => self.by_registers(memory, Op::Sll, word),
            2 => self.by_registers(memory, Op::Slt, word),
            3 => self.by_registers(memory, Op::Sltu, word),
            4 => self.by_registers(memory, Op::Xor, word),
            5 => self.by_registers(memory, Op::Srl, word),
            6 => self.by_registers(memory, Op::Or, word),
            7 => self.by_registers(memory, Op::And, word),
            _ => self.perform_word(memory, word),
        }
    }

    /// Products and quotients.
    #[inline(always)]
    fn products(&mut self, memory: &mut Memory, word: u32) -> Stop
        requires opcode { bits_at 6 0 word ≡ 0x33 }
        requires funct7 { bits_at 31 25 word ≡ 0x01 }
        requires undo { HasWrites memory.old 1 }
        ensures { Steps result (execute_word (seen_of memory.old) self.old.x self.old.pc word) self.old self.new memory.old memory.new }
    {
        match Field::<14, 12>::get(word) {
            0 => self.by_registers(memory, Op::Mul, word),
            1 => self.by_registers(memory, Op::Mulh, word),
            2 => self.by_registers(memory, Op::Mulhsu, word),
            3 => self.by_registers(memory, Op::Mulhu, word),
            4 => self.by_registers(memory, Op::Div, word),
            5 => self.by_registers(memory, Op::Divu, word),
            6 => self.by_registers(memory, Op::Rem, word),
            7 => self.by_registers(memory, Op::Remu, word),
            _ => self.perform_word(memory, word),
        }
    }

    /// A difference, and a shift that repeats the sign.
    #[inline(always)]
    fn differences(&mut self, memory: &mut Memory, word: u32) -> Stop
        requires opcode { bits_at 6 0 word ≡ 0x33 }
        requires funct7 { bits_at 31 25 word ≡ 0x20 }
        requires undo { HasWrites memory.old 1 }
        ensures { Steps result (execute_word (seen_of memory.old) self.old.x self.old.pc word) self.old self.new memory.old memory.new }
    {
        match Field::<14, 12>::get(word) {
            0 => self.by_registers(memory, Op::Sub, word),
            5 => self.by_registers(memory, Op::Sra, word),
            _ => self.perform_word(memory, word),
        }
    }

    /// What computes with the low 32 bits of two registers.
    #[inline(always)]
    fn word_registers(&mut self, memory: &mut Memory, word: u32) -> Stop
        requires opcode { bits_at 6 0 word ≡ 0x3b }
        requires undo { HasWrites memory.old 1 }
        ensures { Steps result (execute_word (seen_of memory.old) self.old.x self.old.pc word) self.old self.new memory.old memory.new }
    {
        match Field::<31, 25>::get(word) {
            0x00 => self.word_sums(memory, word),
            0x01 => self.word_products(memory, word),
            0x20 => self.word_differences(memory, word),
            _ => self.perform_word(memory, word),
        }
    }

    /// Sums and shifts of the low 32 bits.
    #[inline(always)]
    fn word_sums(&mut self, memory: &mut Memory, word: u32) -> Stop
        requires opcode { bits_at 6 0 word ≡ 0x3b }
        requires funct7 { bits_at 31 25 word ≡ 0x00 }
        requires undo { HasWrites memory.old 1 }
        ensures { Steps result (execute_word (seen_of memory.old) self.old.x self.old.pc word) self.old self.new memory.old memory.new }
    {
        match Field::<14, 12>::get(word) {
            0 => self.by_registers(memory, Op::Addw, word),
            1 => self.by_registers(memory, Op::Sllw, word),
            5 => self.by_registers(memory, Op::Srlw, word),
            _ => self.perform_word(memory, word),
        }
    }

    /// Products and quotients of the low 32 bits.
    #[inline(always)]
    fn word_products(&mut self, memory: &mut Memory, word: u32) -> Stop
        requires opcode { bits_at 6 0 word ≡ 0x3b }
        requires funct7 { bits_at 31 25 word ≡ 0x01 }
        requires undo { HasWrites memory.old 1 }
        ensures { Steps result (execute_word (seen_of memory.old) self.old.x self.old.pc word) self.old self.new memory.old memory.new }
    {
        match Field::<14, 12>::get(word) {
            0 => self.by_registers(memory, Op::Mulw, word),
            4 => self.by_registers(memory, Op::Divw, word),
            5 => self.by_registers(memory, Op::Divuw, word),
            6 => self.by_registers(memory, Op::Remw, word),
            7 => self.by_registers(memory, Op::Remuw, word),
            _ => self.perform_word(memory, word),
        }
    }

    /// A difference of the low 32 bits, and a shift of them that repeats the sign.
    #[inline(always)]
    fn word_differences(&mut self, memory: &mut Memory, word: u32) -> Stop
        requires opcode { bits_at 6 0 word ≡ 0x3b }
        requires funct7 { bits_at 31 25 word ≡ 0x20 }
        requires undo { HasWrites memory.old 1 }
        ensures { Steps result (execute_word (seen_of memory.old) self.old.x self.old.pc word) self.old self.new memory.old memory.new }
    {
        match Field::<14, 12>::get(word) {
            0 => self.by_registers(memory, Op::Subw, word),
            5 => self.by_registers(memory, Op::Sraw, word),
            _ => self.perform_word(memory, word),
        }
    }

    /// Loads.
    #[inline(always)]
    fn loads(&mut self, memory: &mut Memory, word: u32) -> Stop
        requires opcode { bits_at 6 0 word ≡ 0x03 }
        requires undo { HasWrites memory.old 1 }
        ensures { Steps result (execute_word (seen_of memory.old) self.old.x self.old.pc word) self.old self.new memory.old memory.new }
    {
        match Field::<14, 12>::get(word) {
            0 => self.by_load(memory, Op::Lb, word, 1, true),
            1 => self.by_load(memory, Op::Lh, word, 2, true),
            2 => self.by_load(memory, Op::Lw, word, 4, true),
            3 => self.by_load(memory, Op::Ld, word, 8, true),
            4 => self.by_load(memory, Op::Lbu, word, 1, false),
            5 => self.by_load(memory, Op::Lhu, word, 2, false),
            6 => self.by_load(memory, Op::Lwu, word, 4, false),
            _ => self.perform_word(memory, word),
        }
    }

    /// Stores.
    #[inline(always)]
    fn stores(&mut self, memory: &mut Memory, word: u32) -> Stop
        requires opcode { bits_at 6 0 word ≡ 0x23 }
        requires undo { HasWrites memory.old 1 }
        ensures { Steps result (execute_word (seen_of memory.old) self.old.x self.old.pc word) self.old self.new memory.old memory.new }
    {
        match Field::<14, 12>::get(word) {
            0 => self.by_store(memory, Op::Sb, word, 1),
            1 => self.by_store(memory, Op::Sh, word, 2),
            2 => self.by_store(memory, Op::Sw, word, 4),
            3 => self.by_store(memory, Op::Sd, word, 8),
            _ => self.perform_word(memory, word),
        }
    }

    /// Branches.
    #[inline(always)]
    fn branches(&mut self, memory: &mut Memory, word: u32) -> Stop
        requires opcode { bits_at 6 0 word ≡ 0x63 }
        requires undo { HasWrites memory.old 1 }
        ensures { Steps result (execute_word (seen_of memory.old) self.old.x self.old.pc word) self.old self.new memory.old memory.new }
    {
        match Field::<14, 12>::get(word) {
            0 => self.by_branch(memory, Op::Beq, word),
            1 => self.by_branch(memory, Op::Bne, word),
            4 => self.by_branch(memory, Op::Blt, word),
            5 => self.by_branch(memory, Op::Bge, word),
            6 => self.by_branch(memory, Op::Bltu, word),
            7 => self.by_branch(memory, Op::Bgeu, word),
            _ => self.perform_word(memory, word),
        }
    }

    /// A jump by a register.
    #[inline(always)]
    fn far_jumps(&mut self, memory: &mut Memory, word: u32) -> Stop
        requires opcode { bits_at 6 0 word ≡ 0x67 }
        requires undo { HasWrites memory.old 1 }
        ensures { Steps result (execute_word (seen_of memory.old) self.old.x self.old.pc word) self.old self.new memory.old memory.new }
    {
        match Field::<14, 12>::get(word) {
            0 => self.jump_far(memory, word),
            _ => self.perform_word(memory, word),
        }
    }

    /// The instruction that a word is.
    #[inline(always)]
    pub(crate) fn perform_opcode(&mut self, memory: &mut Memory, word: u32) -> Stop
        requires { HasWrites memory.old 1 }
        ensures { Steps result (execute_word (seen_of memory.old) self.old.x self.old.pc word) self.old self.new memory.old memory.new }
    {
        match Field::<6, 0>::get(word) {
            0x03 => self.loads(memory, word),
            0x13 => self.immediates(memory, word),
            0x17 => self.by_upper(memory, Op::Auipc, word),
            0x1b => self.word_immediates(memory, word),
            0x23 => self.stores(memory, word),
            0x33 => self.registers(memory, word),
            0x37 => self.by_upper(memory, Op::Lui, word),
            0x3b => self.word_registers(memory, word),
            0x63 => self.branches(memory, word),
            0x67 => self.far_jumps(memory, word),
            0x6f => self.jump_near(memory, word),
            _ => self.perform_word(memory, word),
        }
    }
}
