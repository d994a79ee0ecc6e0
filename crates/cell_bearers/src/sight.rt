//! What a cell sees that asks for names.

ghost use Rattle.std.specs.Prelude.{◌≡◌, ◌<◌, All, IfOk, false, slice_get, unwrap_or};
ghost use Rattle.cell_bearers.specs.Seeing.{first_at, seen_at};
ghost use Rattle.cell_bearers.specs.Sight.{IsSight, sees_by};

use crate::firsts::{first_cells, seen_cells, soonest_cells};
use cell_described::DescribedCell;
use std::alloc::{AllocError, Global};

/// The cells that are seen: those that stand in the namespaces and were put aside by the swap that is asked for, or else are
/// attached. For each cell whether it is seen, for each object the place of the first of its cells that is, and the soonest of
/// those of it and of the objects behind it.
#[derive(Drop)]
pub struct Sight<'s> {
    pub asked: Option<u64>,
    pub spaces: &'s [u16],
    pub cells: &'s [DescribedCell],
    pub seen: Vec<bool>,
    pub firsts: Vec<Option<usize>>,
    pub soonest: Vec<Option<usize>>,
}

/// What is seen of the cells, which have so many objects.
pub fn sight_of<'s>(
    alloc: Global,
    objects: usize,
    cells: &'s [DescribedCell],
    asked: Option<u64>,
    spaces: &'s [u16],
) -> Result<Sight<'s>, AllocError>
    requires { All (λ c. c.object < objects) cells.now }
    ensures asked { IfOk result (λ sight. sight.asked ≡ asked) }
    ensures spaces { IfOk result (λ sight. sight.spaces.now ≡ spaces.now) }
    ensures cells { IfOk result (λ sight. sight.cells.now ≡ cells.now) }
    ensures tables { IfOk result IsSight }
{
    let seen = seen_cells(alloc, cells, asked, spaces)?;
    let firsts = first_cells(alloc, objects, cells, &seen)?;
    let soonest = soonest_cells(alloc, &firsts)?;
    Ok(Sight {
        asked,
        spaces,
        cells,
        seen,
        firsts,
        soonest,
    })
}

/// Whether the place has a mark.
fn is_marked(marks: &[bool], place: usize) -> bool
    ensures { result ≡ unwrap_or (slice_get marks.now place) false }
{
    marks.get(place).copied().unwrap_or(false)
}

impl<'s> Sight<'s> {
    /// Whether the cell at that place is seen.
    pub fn sees_at(&self, place: usize) -> bool
        requires { IsSight self.now }
        ensures { result ≡ seen_at (sees_by self.now) self.now.cells.now place }
    {
        is_marked(&self.seen, place)
    }

    /// The first cell of the object that is seen.
    pub fn first_of(&self, object: usize) -> Option<usize>
        ensures { result ≡ first_at self.now.firsts.items object }
    {
        match self.firsts.get(object) {
            Some(first) => *first,
            None => None,
        }
    }

    /// The soonest of the first cells of the object and of those behind it.
    pub fn soonest_from(&self, object: usize) -> Option<usize>
        ensures { result ≡ first_at self.now.soonest.items object }
    {
        match self.soonest.get(object) {
            Some(soonest) => *soonest,
            None => None,
        }
    }
}
