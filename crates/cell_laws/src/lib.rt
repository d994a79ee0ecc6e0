//! The laws over the definitions that the contracts of all other crates cite, in one place. Each is the contract of a
//! public function with an empty body. Their lemmas are in the crates below, and of code only
//! `cell_run` stands on this crate. The laws of changes of cells are in `cell_change_law`.
//!
//! - `files`: what files are read as is sound; so what other laws ask of the sources of new cells holds of files
//! - `coherence`: the machine begins coherent, and each command and each turn of a task keeps it so
//! - `presence`: what entries and links of a machine name, and where its cells lie
//! - `contents`: what the sections of a machine hold: their fresh bytes, and in each field its value
//! - `room`: which pages are free, and where a new cell comes to stand
//! - `relinking`: what linking writes after new cells have come and others have changed
//! - `targets`: which targets each command may change
//! - `turns`: what a turn of a task, and each command on tasks, may touch
//! - `transfer`: what the routines of a swap may touch
//! - `undo`: what going back by the records of all writes gives back
//! - `removal`: which cells are kept, who holds them, which are left, and that nothing leads into one that went
//! - `recovery`: an accepted recovery is the swap of its cells and a restart of the task
//! - `counting`: how many cells there are, by what replies say of them
#![tactic(auto)]

pub mod coherence;
pub mod contents;
pub mod counting;
pub mod files;
pub mod presence;
pub mod recovery;
pub mod relinking;
pub mod removal;
pub mod room;
pub mod targets;
pub mod transfer;
pub mod turns;
pub mod undo;
