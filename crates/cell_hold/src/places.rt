//! The sections that holding looks at.

ghost use Rattle.std.specs.Prelude.{◌≡◌, ◌≤◌, ◌<◌, All, IfOk, vec_len};

use crate::others::Others;
use crate::sections::Sections;
use cell_world::Placed;
use std::alloc::{AllocError, Global};
use std::marker::Model;

/// The highest number of a cell that gets a mark; so wide are the numbers of the machine.
const HIGHEST: u32 = 65_535;

/// Sections, to be found by their cells, with room for marks of their cells and for those to be found by
/// addresses. Contracts see the sections as they were given.
#[derive(Drop)]
pub struct Places {
    pub(crate) sections: Sections,
    pub(crate) marks: Vec<bool>,
    pub(crate) others: Others,
}

impl Model for Places {
    ghost use Rattle.std.specs.Prelude.{List};
    ghost use Rattle.cell_world.specs.declared.state.Placed.{Placed as PlacedAt};
    ghost use Rattle.std.specs.Prelude.{◌≤◌, length};

    ghost Value = { List PlacedAt };

    ghost view = { λ p. p.sections };

    ghost invariant = { λ p. length p.sections ≤ p.others.room };
}

/// Marks for all cells of these sections whose numbers aren't above the highest.
fn marks_for(alloc: Global, sections: &Sections) -> Result<Vec<bool>, AllocError>
    ensures { IfOk result (λ marks. All (λ s. s.key.cell.0 ≤ 65535 → s.key.cell.0 < vec_len marks) sections.now) }
{
    let highest = sections.highest().min(HIGHEST);
    let mut marks = Vec::new(alloc);
    marks.resize(highest as usize + 1, false)?;
    Ok(marks)
}

impl Places {
    /// Takes the sections in any order. They may overlap.
    pub fn of(alloc: Global, list: Vec<Placed>) -> Result<Places, AllocError>
        ensures { IfOk result (λ places. places ≡ list.items) }
    {
        let others = Others::with_room(alloc, list.len())?;
        let sections = Sections::of(alloc, list)?;
        let marks = marks_for(alloc, &sections)?;
        Ok(Places {
            sections,
            marks,
            others,
        })
    }
}
