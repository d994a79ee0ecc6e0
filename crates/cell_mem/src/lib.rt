//! The modelled memory: regions with permissions, seals, and the calls that read and write them.
//! Their memory is taken by `new`, and that of an undo's records by `begin_undo`.
#![tactic(auto)]

mod fault;
mod fill;
mod memory;
mod number;
mod perm;
mod region;
mod undo;

pub use fault::MemFault;
pub use memory::Memory;
pub use number::write_number;
pub use perm::Perm;
