//! The page table: which pages of the memory are free. Where a cell's sections go is `cell_layout`, and
//! what stands in the pages `cell_mem`. The table is made at once, so taking and giving back take no
//! memory, and freed pages join by being free.
#![tactic(auto)]

mod search;
mod space;

pub use search::{NoRun, Run};
pub use space::Space;
