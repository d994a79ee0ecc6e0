//! The cells that names are looked up in.

ghost use Rattle.std.specs.Prelude.{◌++◌};
ghost use Rattle.cell_target.specs.Scene.{AreCells};

use cell_space::Ahead;
use cell_world::NewCell;

/// The present cells and new ones in their places, and the spaces that names are looked up in.
#[derive(Drop)]
pub struct Scene<'a> {
    pub ahead: &'a Ahead<'a>,
    pub present: &'a [NewCell],
    pub fresh: &'a [NewCell],
    ghost cells: { AreCells ahead.now.cells (present.now ++ fresh.now) },
}
