//! A number of 64 bits in two halves.

ghost use Rattle.std.specs.Prelude.{◌≡◌};

use std::marker::Model;

const HALF: u64 = 1 << 32;

/// A number of 64 bits, which contracts see as the number. It has an alignment of four bytes, so a list of records with one
/// has no room between them.
#[derive(Drop)]
pub struct Wide {
    high: u32,
    low: u32,
}

impl Model for Wide {
    ghost use Rattle.std.specs.Prelude.{◌+◌, ◌*◌, ◌^◌, ℕ};

    ghost Value = { ℕ };

    ghost view = { λ n. n.high * 2 ^ 32 + n.low };
}

impl Wide {
    pub fn of(number: u64) -> Wide
        ensures { result ≡ number }
    {
        Wide {
            high: (number / HALF) as u32,
            low: (number % HALF) as u32,
        }
    }

    pub fn get(&self) -> u64
        ensures { result ≡ self.now }
    {
        u64::from(self.high) * HALF + u64::from(self.low)
    }
}
