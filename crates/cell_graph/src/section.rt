//! A section that is present.

ghost use Rattle.std.specs.Prelude.{◌≡◌, ◌+◌, ◌<◌, ◌^◌, None, Some, is_none, if◌then◌else◌};

use cell_num::SecKey;

/// A section by its key, the first link to it, and how many there are.
#[derive(Clone, Copy, Debug, PartialEq, Eq)]
pub struct Section {
    pub key: SecKey,
    pub first: Option<usize>,
    pub users: usize,
}

impl Section {
    /// A new link is the first.
    pub fn gain(&mut self, place: usize)
        requires { self.old.users + 1 < 2 ^ 64 }
        ensures key { self.new.key ≡ self.old.key }
        ensures first { self.new.first ≡ Some place }
        ensures users { self.new.users ≡ self.old.users + 1 }
    {
        self.first = Some(place);
        self.users += 1;
    }

    /// A link with these neighbours is gone.
    pub fn lose(&mut self, before: Option<usize>, after: Option<usize>)
        requires { 0 < self.old.users }
        ensures key { self.new.key ≡ self.old.key }
        ensures first { self.new.first ≡ (if is_none before then after else self.old.first) }
        ensures users { self.new.users + 1 ≡ self.old.users }
    {
        if before.is_none() {
            self.first = after;
        }
        self.users -= 1;
    }
}
