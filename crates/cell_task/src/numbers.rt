//! The numbers of the live tasks.

ghost use Rattle.std.specs.Prelude.{◌≡◌};
ghost use Rattle.std.specs.Iterator.{YieldsFirst, item_count};

use std::marker::Model;

/// The numbers of the live tasks, ascending. Contracts see those that are still to come.
#[derive(Drop)]
pub struct Numbers<'a> {
    numbers: &'a [u32],
}

impl<'a> Model for Numbers<'a> {
    ghost use Rattle.std.specs.Prelude.{ℕ, List};

    ghost Value = { List ℕ };

    ghost view = { λ n. n.numbers.now };
}

impl<'a> Numbers<'a> {
    pub(crate) fn of(numbers: &'a [u32]) -> Numbers<'a>
        ensures { result ≡ numbers.now }
    {
        Numbers { numbers }
    }
}

impl<'a> Iterator for Numbers<'a> {
    type Item = u32;

    ghost next_gives = { YieldsFirst (λ s. s) };

    ghost remaining = { item_count (λ s. s) };

    fn next(&mut self) -> Option<u32> {
        let [number, rest @ ..] = self.numbers else {
            return None;
        };
        self.numbers = rest;
        Some(*number)
    }
}
