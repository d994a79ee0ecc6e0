//! A piece of the source.

ghost use Rattle.std.specs.Prelude.{◌≡◌};

use std::marker::Model;

/// A piece of the source, which contracts see as the list of its bytes.
#[derive(Drop)]
pub struct Text<'a> {
    bytes: &'a [u8],
}

impl<'a> Model for Text<'a> {
    ghost use Rattle.std.specs.Prelude.{List, ℕ};

    ghost Value = { List ℕ };

    ghost view = { λ t. t.bytes.now };
}

impl<'a> Text<'a> {
    pub fn of(bytes: &'a [u8]) -> Text<'a>
        ensures { result ≡ bytes.now }
    {
        Text { bytes }
    }

    pub fn bytes(&self) -> &'a [u8]
        ensures { result.now ≡ self.now }
    {
        self.bytes
    }

    /// The same piece again.
    pub fn again(&self) -> Text<'a>
        ensures { result ≡ self.now }
    {
        Text { bytes: self.bytes }
    }
}
