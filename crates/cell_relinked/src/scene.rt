//! The cells of a machine that a dump describes.

ghost use Rattle.std.specs.Prelude.{◌≡◌, ◌<◌, All, IsTrue, length, nat_lt};
ghost use Rattle.std.proofs.Props.{props};
ghost use Rattle.cell_num.specs.Lists.{each_pair};
ghost use Rattle.cell_bearers.specs.Index.{IsIndex};
ghost use Rattle.cell_described.specs.Faults.{object_at};
ghost use Rattle.cell_relinked.specs.Fit.{IsFit};

use cell_bearers::Index;
use cell_described::DescribedCell;
use cell_object::Object;
use cell_world::Namespace;

/// The machine, the file of its dump, in which the names of aliases stand, and the index of its names.
#[derive(Clone, Copy)]
pub struct Scene<'a> {
    pub file: &'a [u8],
    pub base: u64,
    pub pages: u64,
    pub namespaces: &'a [Namespace],
    pub cells: &'a [DescribedCell],
    pub objects: &'a [Object],
    pub index: &'a Index,
    pub ghost fit: { All (IsFit objects.now) cells.now },
    pub ghost rising: { IsTrue (each_pair (λ a b. nat_lt a.id.0 b.id.0) cells.now) },
    pub ghost indexed: { IsIndex file.now objects.now cells.now index.now } by { Prim.hlevel props },
}

impl<'a> Scene<'a> {
    /// The object of the cell.
    pub fn object(&self, cell: &DescribedCell) -> &'a Object
        requires { cell.now.object < length self.now.objects.now }
        ensures { result.now ≡ object_at self.now.objects.now cell.now.object }
    {
        &self.objects[cell.object]
    }
}
