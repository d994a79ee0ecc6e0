//! Marks of cells, by their numbers.

ghost use Rattle.std.specs.Prelude.{◌≡◌, ◌==◌, ◌||◌, ◌<◌, ◌^◌, ℕ, OnOk, length};
ghost use Rattle.cell_graph.specs.Users.{is_marked};

use cell_num::CellId;
use std::alloc::AllocError;

/// Makes the list one that has a mark for the number.
fn reach(marks: &mut Vec<bool>, place: usize) -> Result<(), AllocError>
    requires { place < 2 ^ 32 }
    ensures same { OnOk result ((n : ℕ) → is_marked marks.new.items n ≡ is_marked marks.old.items n) }
    ensures inside { OnOk result (place < length marks.new.items) }
{
    if place >= marks.len() {
        marks.resize(place + 1, false)?;
    }
    Ok(())
}

fn set(marks: &mut [bool], place: usize)
    requires { place < length marks.old }
    ensures { (n : ℕ) → is_marked marks.new n ≡ (is_marked marks.old n || place == n) }
{
    marks[place] = true;
}

/// Marks a cell in a list that grows as far as it must.
pub fn mark(marks: &mut Vec<bool>, cell: CellId) -> Result<(), AllocError>
    ensures { OnOk result ((n : ℕ) → is_marked marks.new.items n ≡ (is_marked marks.old.items n || cell.0 == n)) }
{
    let place = cell.0 as usize;
    reach(marks, place)?;
    set(marks, place);
    Ok(())
}
