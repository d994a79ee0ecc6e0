//! Who is asked for a name.

/// Whoever provides the name, or strong holders of it alone.
#[derive(Clone, Copy, Debug, PartialEq, Eq)]
pub enum Asked {
    Anyone,
    Strong,
}
