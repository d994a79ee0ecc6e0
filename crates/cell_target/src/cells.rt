//! The cells of a scene by their numbers.

ghost use Rattle.std.specs.Prelude.{◌≡◌, ◌++◌, option_map};
ghost use Rattle.cell_world.specs.World.{cell_of};
ghost use Rattle.cell_space.specs.Joined.{placed_of};
ghost use Rattle.cell_target.specs.Scene.{seen};

use crate::scene::Scene;
use cell_placed::cell_among;
use cell_world::NewCell;

impl<'a> Scene<'a> {
    /// The present or new cell of that number.
    pub fn cell(&self, number: u32) -> Option<&'a NewCell>
        ensures { option_map (λ c. c.now) result ≡ option_map placed_of (cell_of (seen self.now.ahead.now.namespaces (self.now.present.now ++ self.now.fresh.now) self.now.ahead.now.cells) number) }
    {
        cell_among(self.present, self.fresh, number)
    }
}
