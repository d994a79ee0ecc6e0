//! Tests of the audit of a dump.
#![tactic(auto)]

#[cfg(test)]
mod dumps;
