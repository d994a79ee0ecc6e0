//! Why memory isn't accessed.

/// The faults in the order in which they are tried.
#[derive(Clone, Copy, Debug, PartialEq, Eq)]
pub enum MemFault {
    /// The address isn't a multiple of the width.
    Misaligned,
    /// The bytes aren't all in one region.
    Unmapped,
    /// The region's permission doesn't allow it.
    Denied,
    /// One of the bytes of a store is sealed.
    Sealed,
}
