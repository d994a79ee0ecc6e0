//! Tests of parts of the machine, where no script shows what they do: fields and links, names, what tasks and routines do in a
//! memory, where routines begin, and tasks that stand inside what a swap changes.
#![tactic(auto)]

#[cfg(test)]
mod cell;
#[cfg(test)]
mod graph;
#[cfg(test)]
mod link;
#[cfg(test)]
mod names;
#[cfg(test)]
mod routines;
#[cfg(test)]
mod task;
#[cfg(test)]
mod torn;
#[cfg(test)]
mod transfer;
