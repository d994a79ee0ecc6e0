//! A hart: what one instruction does to registers, pc and memory.
//! RISC-V unprivileged manual, "RV32I Base Integer Instruction Set", "RV64I" and "M Extension"
#![tactic(auto)]

mod causes;
mod forms;
mod hart;
mod opcodes;
mod stop;

pub use hart::Hart;
pub use stop::Stop;
