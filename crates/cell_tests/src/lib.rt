//! Tests of the whole program, over files and streams in memory, machines of given answers, and of what the generator makes.
#![tactic(auto)]

#[cfg(test)]
mod audited;
#[cfg(test)]
mod broken;
#[cfg(test)]
mod cases;
#[cfg(test)]
mod clone_limits;
#[cfg(test)]
mod clones;
#[cfg(test)]
mod command_line;
#[cfg(test)]
mod crowded;
#[cfg(test)]
mod damaged;
#[cfg(test)]
mod faults;
#[cfg(test)]
mod folder;
#[cfg(test)]
mod gathering;
#[cfg(test)]
mod generated;
#[cfg(test)]
mod given;
#[cfg(test)]
mod gnu;
#[cfg(test)]
mod holding;
#[cfg(test)]
mod in_memory;
#[cfg(test)]
mod layouts;
#[cfg(test)]
mod limits;
#[cfg(test)]
mod namespaces;
#[cfg(test)]
mod numbers;
#[cfg(test)]
mod objects;
#[cfg(test)]
mod places;
#[cfg(test)]
mod recovery;
#[cfg(test)]
mod recovery_faults;
#[cfg(test)]
mod recovery_limits;
#[cfg(test)]
mod recovery_refusals;
#[cfg(test)]
mod repeated;
#[cfg(test)]
mod samples;
#[cfg(test)]
mod slots;
#[cfg(test)]
mod sources;
#[cfg(test)]
mod spaces;
#[cfg(test)]
mod swap_keeping;
#[cfg(test)]
mod swap_names;
#[cfg(test)]
mod swap_refusals;
#[cfg(test)]
mod swap_transfer;
#[cfg(test)]
mod swaps;
#[cfg(test)]
mod tasks;
#[cfg(test)]
mod too_many_cells;
#[cfg(test)]
mod torn;
#[cfg(test)]
mod transcripts;
#[cfg(test)]
mod traps;
#[cfg(test)]
mod weak_dumps;
#[cfg(test)]
mod weak_loads;
#[cfg(test)]
mod weak_names;
#[cfg(test)]
mod weak_swaps;
