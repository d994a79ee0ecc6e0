//! Whether two parts of objects are the same.

ghost use Rattle.std.specs.Prelude.{◌≡◌, ◌↔◌, IsTrue};

use crate::{Entry, Section, Symbol};

/// Parts that are compared whole.
pub trait Same {
    fn is_same(&self, other: &Self) -> bool
        ensures { IsTrue result ↔ (self.now ≡ other.now) };
}

impl Same for Section {
    fn is_same(&self, other: &Section) -> bool {
        self.number == other.number
            && self.name.as_slice() == other.name.as_slice()
            && self.write == other.write
            && self.exec == other.exec
            && self.fill == other.fill
            && self.align == other.align
            && self.size == other.size
            && self.bytes.as_slice() == other.bytes.as_slice()
    }
}

impl Same for Symbol {
    fn is_same(&self, other: &Symbol) -> bool {
        self.name.as_slice() == other.name.as_slice()
            && self.bind == other.bind
            && self.sort == other.sort
            && self.home == other.home
            && self.value == other.value
            && self.size == other.size
    }
}

impl Same for Entry {
    fn is_same(&self, other: &Entry) -> bool {
        self == other
    }
}
