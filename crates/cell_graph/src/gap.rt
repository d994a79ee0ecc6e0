//! A gap in the list of the links.

/// Where the gap begins, and where the links behind it do. What the list has in between says nothing.
#[derive(Clone, Copy, Debug, PartialEq, Eq)]
pub struct Gap {
    pub front: usize,
    pub back: usize,
}
