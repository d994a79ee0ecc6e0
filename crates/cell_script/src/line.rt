//! Lines with commands.

use cell_num::Listed;
use cell_world::Command;

/// A command with the number of its line, from 1.
#[derive(Drop)]
pub struct Line {
    pub number: u32,
    pub command: Command,
}

/// The commands of a script, in order.
pub type Script = Listed<Line>;
