//! The objects that cells have.

ghost use Rattle.std.specs.Prelude.{◌≤◌, All, length, map};
ghost use Rattle.cell_world.specs.Gather.{source_of};
ghost use Rattle.cell_num.specs.Limits.{max_file_bytes};
ghost use Rattle.cell_described.specs.Objects.{AreKept};
ghost use Rattle.cell_described.specs.Finding.{Finds, FindsOne};

use crate::fail::DescribeFail;
use crate::objects::Objects;
use cell_audit::WrittenCell;
use cell_depot::Depot;
use cell_object::Object;
use std::alloc::Global;

/// A cell as it was written, and the place of its object among all.
#[derive(Drop)]
pub struct FoundCell {
    pub cell: WrittenCell,
    pub object: usize,
}

/// Cells, and the objects that they have.
#[derive(Drop)]
pub struct Found {
    pub cells: Vec<FoundCell>,
    pub objects: Vec<Object>,
}

/// The cell with its object.
fn find_object<'a>(
    alloc: Global,
    depot: &'a Depot,
    objects: &mut Objects<'a>,
    cell: WrittenCell,
) -> Result<FoundCell, DescribeFail>
    requires kept { AreKept (map source_of depot.now) objects.old }
    requires small { All (λ f. length f.bytes ≤ max_file_bytes) depot.now }
    ensures { FindsOne (map source_of depot.now) cell objects.old objects.new result }
{
    match objects.find(alloc, depot, cell.file.bytes())? {
        Some(object) => Ok(FoundCell { cell, object }),
        None => Err(DescribeFail::NoObject { line: cell.line }),
    }
}

/// The cells with their objects, or the first cell that has none.
pub fn find_objects(
    alloc: Global,
    cells: Vec<WrittenCell>,
    depot: &Depot,
) -> Result<Found, DescribeFail>
    requires { All (λ f. length f.bytes ≤ max_file_bytes) depot.now }
    ensures { Finds (map source_of depot.now) cells.items result }
{
    let mut objects = Objects::new(alloc);
    let mut found = Vec::with_capacity(alloc, cells.len())?;
    for cell in cells {
        let one = find_object(alloc, depot, &mut objects, cell)?;
        found.push(one)?;
    }
    let Objects { items, places: _ } = objects;
    Ok(Found {
        cells: found,
        objects: items,
    })
}
