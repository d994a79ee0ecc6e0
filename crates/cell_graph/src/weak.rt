//! References that hold nothing.

ghost use Rattle.std.specs.Prelude.{◌≡◌};
ghost use Rattle.cell_graph.specs.Weaks.{made_for, place_of};

use cell_num::SecKey;

/// A reference to a section that doesn't keep it: its place, and the section that stood there. It has
/// nothing to do with WEAK symbols.
#[derive(Clone, Copy, Debug)]
pub struct Weak {
    key: SecKey,
    place: usize,
}

impl Weak {
    pub(crate) fn of(key: SecKey, place: usize) -> Weak
        ensures key { made_for result ≡ key }
        ensures place { place_of result ≡ place }
    {
        Weak { key, place }
    }

    pub(crate) fn key(self) -> SecKey
        ensures { result ≡ made_for self }
    {
        self.key
    }

    pub(crate) fn place(self) -> usize
        ensures { result ≡ place_of self }
    {
        self.place
    }
}
