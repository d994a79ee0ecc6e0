//! Tests of the cells that a dump describes, and of whole audits, over files that are assembled.
#![tactic(auto)]

#[cfg(test)]
mod audits;
#[cfg(test)]
mod cells;
#[cfg(test)]
mod files;
