//! What a field holds.

/// The address of a field, its width in bytes, and the number that it holds.
#[derive(Clone, Copy, Debug, PartialEq, Eq)]
pub struct FieldValue {
    pub addr: u64,
    pub width: u8,
    pub value: u64,
}
