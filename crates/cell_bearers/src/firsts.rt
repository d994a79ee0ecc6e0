//! Which cells are seen, and the first cell of each object that is.

ghost use Rattle.std.specs.Prelude.{◌≡◌, ◌<◌, ◌≤◌, ◌&&◌, ◌==◌, ℕ, Bool, All, IfOk, Some, None, length, map, replicate, if◌then◌else◌};
ghost use Rattle.cell_described.specs.declared.cell.DescribedCell.{DescribedCell as SomeCell};
ghost use Rattle.cell_bearers.specs.Seeing.{AreSoonest, IsUpTo, first_at, first_from, sees};

use crate::seeing::sees;
use cell_described::DescribedCell;
use std::alloc::{AllocError, Global};

/// For each cell whether it is seen.
pub fn seen_cells(
    alloc: Global,
    cells: &[DescribedCell],
    asked: Option<u64>,
    spaces: &[u16],
) -> Result<Vec<bool>, AllocError>
    ensures { IfOk result (λ seen. seen.items ≡ map (sees asked spaces.now) cells.now) }
{
    let mut seen = Vec::with_capacity(alloc, cells.len())?;
    for place in 0..cells.len() {
        seen.push(sees(asked, spaces, &cells[place]))?;
    }
    Ok(seen)
}

fn no_firsts(alloc: Global, objects: usize) -> Result<Vec<Option<usize>>, AllocError>
    ensures { IfOk result (λ firsts. firsts.items ≡ replicate objects None) }
{
    let mut firsts = Vec::with_capacity(alloc, objects)?;
    for _ in 0..objects {
        firsts.push(None)?;
    }
    Ok(firsts)
}

/// A cell of the object that stands before those so far is the first, if it is seen.
fn put_first(firsts: &mut Vec<Option<usize>>, is_seen: bool, object: usize, place: usize)
    requires { object < length firsts.old.items }
    ensures len { length firsts.new.items ≡ length firsts.old.items }
    ensures first { (o : ℕ) → first_at firsts.new.items o ≡ (if is_seen && object == o then Some place else first_at firsts.old.items o) }
{
    if is_seen {
        firsts[object] = Some(place);
    }
}

/// For each object the place of the first of its cells that is seen.
pub fn first_cells(
    alloc: Global,
    objects: usize,
    cells: &[DescribedCell],
    seen: &[bool],
) -> Result<Vec<Option<usize>>, AllocError>
    requires objects { All (λ c. c.object < objects) cells.now }
    requires each { length seen.now ≡ length cells.now }
    ensures { IfOk result (λ firsts. (test : SomeCell → Bool) → seen.now ≡ map test cells.now → (o : ℕ) → first_at firsts.items o ≡ first_from test o 0 cells.now) }
{
    let mut firsts = no_firsts(alloc, objects)?;
    for place in (0..cells.len()).rev() {
        put_first(&mut firsts, seen[place], cells[place].object, place);
    }
    Ok(firsts)
}

/// The lower of two places, where there are such.
fn lower(a: Option<usize>, b: Option<usize>) -> Option<usize>
    ensures left { (c : ℕ) → IsUpTo a c → IsUpTo result c }
    ensures right { (c : ℕ) → IsUpTo b c → IsUpTo result c }
{
    match (a, b) {
        (Some(a), Some(b)) => Some(a.min(b)),
        (Some(a), None) => Some(a),
        (None, b) => b,
    }
}

/// For each object the soonest of the first cells of it and of the objects behind it.
pub fn soonest_cells(
    alloc: Global,
    firsts: &[Option<usize>],
) -> Result<Vec<Option<usize>>, AllocError>
    ensures { IfOk result (λ soonest. AreSoonest firsts.now soonest.items) }
{
    let mut soonest = no_firsts(alloc, firsts.len())?;
    let mut so_far = None;
    for object in (0..firsts.len()).rev() {
        so_far = lower(so_far, firsts[object]);
        soonest[object] = so_far;
    }
    Ok(soonest)
}
