//! What passes between the layers while the routines of a swap run.

use cell_num::{Name, Why};

/// What a write displaced: the number that so many bytes from the address on held before.
#[derive(Clone, Copy, Debug, PartialEq, Eq)]
pub struct Record {
    pub addr: u64,
    /// 1, 2, 4 or 8.
    pub width: u8,
    pub before: u64,
}

/// A transfer routine: its place among the words of its swap, and where it begins.
#[derive(Clone, Copy, Debug, PartialEq, Eq)]
pub struct Routine {
    pub name: u32,
    pub entry: u64,
}

/// A name and its address.
#[derive(Drop)]
pub struct NameAddr {
    pub name: Name,
    pub addr: u64,
}

/// A routine that didn't end with 0, by its place among the words.
#[derive(Clone, Copy, Debug, PartialEq, Eq)]
pub struct Failure {
    pub routine: u32,
    pub why: Why,
}
