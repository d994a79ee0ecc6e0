//! What a described machine has beside the objects of its cells.

ghost use Rattle.std.specs.Prelude.{◌≡◌, All};
ghost use Rattle.cell_relinked.specs.Fit.{IsFit};
ghost use Rattle.cell_relinked.specs.Indexed.{IsIndexed};

use crate::scene::Scene;
use cell_audit::Told;
use cell_bearers::Index;
use cell_described::DescribedCell;
use cell_object::Object;
use cell_world::Namespace;

/// The file of the dump, the space, the namespaces, the cells and the bytes that it tells, and the index of names.
#[derive(Clone, Copy)]
pub struct Ground<'a> {
    pub file: &'a [u8],
    pub base: u64,
    pub pages: u64,
    pub namespaces: &'a [Namespace],
    pub cells: &'a [DescribedCell],
    pub told: &'a Told,
    pub index: &'a Index,
}

/// The machine with these objects.
pub fn scene_of<'s>(ground: &Ground<'s>, objects: &'s [Object]) -> Scene<'s>
    requires whole { All (IsFit objects.now) ground.now.cells.now }
    requires indexed { IsIndexed ground.now objects.now }
    ensures file { result.file.now ≡ ground.now.file.now }
    ensures base { result.base ≡ ground.now.base }
    ensures pages { result.pages ≡ ground.now.pages }
    ensures namespaces { result.namespaces.now ≡ ground.now.namespaces.now }
    ensures cells { result.cells.now ≡ ground.now.cells.now }
    ensures objects { result.objects.now ≡ objects.now }
{
    Scene {
        file: ground.file,
        base: ground.base,
        pages: ground.pages,
        namespaces: ground.namespaces,
        cells: ground.cells,
        objects,
        index: ground.index,
    }
}
