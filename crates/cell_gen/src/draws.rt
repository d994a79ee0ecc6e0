//! Crates that are drawn.

ghost use Rattle.std.specs.Prelude.{◌≡◌, ◌≤◌};
ghost use Rattle.cell_gen.specs.Generated.{crate_drawn, next_state};

const MULTIPLIER: u64 = 6364136223846793005;

const INCREMENT: u64 = 1442695040888963407;

/// A linear congruential generator, and how many crates it draws from.
#[derive(Drop)]
pub struct Draws {
    pub state: u64,
    pub crates: u32,
    ghost some: { 1 ≤ crates },
}

/// Three crates in the order in which they are drawn.
#[derive(Clone, Copy)]
pub struct Three {
    pub first: u32,
    pub second: u32,
    pub third: u32,
}

impl Draws {
    /// The state goes one step, and then its high bits tell a crate.
    fn draw(&mut self) -> u32
        ensures state { self.new.state ≡ next_state self.old.state }
        ensures crates { self.new.crates ≡ self.old.crates }
        ensures drawn { result ≡ crate_drawn self.old.crates (next_state self.old.state) }
    {
        self.state = self.state.wrapping_mul(MULTIPLIER).wrapping_add(INCREMENT);
        1 + ((self.state >> 33) % u64::from(self.crates)) as u32
    }

    pub fn draw_three(&mut self) -> Three
        ensures state { self.new.state ≡ next_state (next_state (next_state self.old.state)) }
        ensures crates { self.new.crates ≡ self.old.crates }
        ensures first { result.first ≡ crate_drawn self.old.crates (next_state self.old.state) }
        ensures second { result.second ≡ crate_drawn self.old.crates (next_state (next_state self.old.state)) }
        ensures third { result.third ≡ crate_drawn self.old.crates (next_state (next_state (next_state self.old.state))) }
    {
        let first = self.draw();
        let second = self.draw();
        let third = self.draw();
        Three {
            first,
            second,
            third,
        }
    }
}
