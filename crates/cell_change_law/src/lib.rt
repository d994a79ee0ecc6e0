//! What holds of every change of cells, and that loads and swaps are such changes. Each law is the contract of a public
//! function with an empty body.
//!
//! - `askings`: a load and a swap are changes that they ask for
//! - `changes`: a change keeps the machine coherent, writes what is new and what changes, and settles every target
//! - `adding`: where no cell is replaced, nobody loses a need, and nothing changes that is firm
//! - `finding`: how the fields that change are found: by cells that entries lead into, and by WEAK symbols
#![tactic(auto)]

pub mod adding;
pub mod askings;
pub mod changes;
pub mod finding;
