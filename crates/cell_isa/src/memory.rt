//! How an instruction touches memory.
//! RISC-V unprivileged manual, "Load and Store Instructions"

/// What an instruction does to memory, at the address that is the sum of rs1 and the immediate.
#[derive(Clone, Copy, Debug, PartialEq, Eq)]
pub enum Access {
    Untouched,

    /// So many bytes go into rd, the highest bit repeated up to 64 bits, or zeros in its place.
    Loads { width: u8, with_sign: bool },

    /// The low bytes of rs2, so many, go into memory.
    Stores { width: u8 },
}
