//! What a cloned namespace is, and what commands in one namespace leave of the others and of their tasks, over the definitions
//! alone. Each law is the contract of a public function with an empty body.
//!
//! - `cloning`: what an accepted `clone` comes to
//! - `isolation`: the footprint of a namespace, which changes elsewhere leave, and what a task does that keeps to it
#![tactic(auto)]

pub mod cloning;
pub mod isolation;
