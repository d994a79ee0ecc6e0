//! Copies of present cells, behind the new ones. No file is read for them and no name looked up: a copy is what
//! its original is, and goes by the same names.

ghost use Rattle.std.specs.Prelude.{◌≡◌, ◌<◌, ◌+◌, ◌++◌, ◌∷◌, [], All, IfOk, OnOk, length, take};
ghost use Rattle.cell_num.specs.Limits.{max_cells};
ghost use Rattle.cell_world.specs.Coherent.{IsLoadable};
ghost use Rattle.cell_world.specs.Gather.{grown};
ghost use Rattle.cell_world.specs.Names.{definitions_of};
ghost use Rattle.cell_world.specs.Outcome.{each};
ghost use Rattle.cell_gather.specs.Copying.{IsKnown, append_original, as_copy, cell_as};
ghost use Rattle.cell_gather.specs.Growing.{Ends, IsGrowing, new_of};

use crate::Gathered;
use crate::definitions::weak_definitions;
use crate::equal::equal_object;
use crate::room::Room;
use cell_num::{CellId, Listed};
use cell_space::NameRows;
use cell_world::{Fail, NewCell};
use std::alloc::{AllocError, Global};

/// A present cell that a new one is to be a copy of, with its names, and the number of the namespace of the copy.
#[derive(Clone, Copy)]
pub struct Original<'a> {
    pub cell: &'a NewCell,
    pub names: &'a NameRows,
    pub ns: u16,
}

/// The copy, which has no places yet.
fn copy_of(alloc: Global, original: &Original, number: u32) -> Result<NewCell, AllocError>
    ensures { IfOk result (λ cell. cell ≡ cell_as number original.now) }
{
    let cell = original.cell;
    Ok(NewCell {
        id: CellId(number),
        ns: original.ns,
        stem: cell.stem.copy(alloc)?,
        file: cell.file.copy(alloc)?,
        object: equal_object(alloc, &cell.object)?,
        places: Listed::from_vec(Vec::new(alloc)),
    })
}

impl<'a> Room<'a> {
    /// Lists a copy, and attaches it ahead under these names.
    fn add_copy(
        &self,
        alloc: Global,
        gathered: &mut Gathered,
        cell: NewCell,
        names: &NameRows,
    ) -> Result<(), AllocError>
        requires growing { IsGrowing self.now.spaces.now self.now.next gathered.old }
        requires loadable { IsLoadable cell.object }
        requires named { take (length (definitions_of cell.object)) names.now ≡ definitions_of cell.object }
        requires there { cell.ns < length self.now.spaces.now.namespaces }
        requires number { cell.id.0 ≡ self.now.next + length (new_of gathered.old) }
        requires room { length self.now.spaces.now.cells + length (new_of gathered.old) < max_cells }
        ensures growing { OnOk result (IsGrowing self.now.spaces.now self.now.next gathered.new) }
        ensures added { OnOk result (new_of gathered.new ≡ new_of gathered.old ++ as_copy cell names.now ∷ []) }
    {
        let weak = weak_definitions(alloc, &cell.object)?;
        let stem = cell.stem.copy(alloc)?;
        let (id, ns) = (cell.id, cell.ns);
        let names = names.copy(alloc)?;
        gathered.ahead.append(id, ns, stem, names, weak)?;
        gathered.cells.push(cell)?;
        Ok(())
    }

    /// Appends a copy.
    fn append_copy(
        &self,
        alloc: Global,
        gathered: &mut Gathered,
        original: &Original,
    ) -> Result<(), Fail>
        requires growing { IsGrowing self.now.spaces.now self.now.next gathered.old }
        requires known { IsKnown self.now.spaces.now original.now }
        ensures growing { OnOk result (IsGrowing self.now.spaces.now self.now.next gathered.new) }
        ensures ends { Ends self.now.spaces.now self.now.next (λ w. append_original (grown w (new_of gathered.old)) original.now) result (new_of gathered.new) }
    {
        let count = gathered.cells.len();
        self.check(count)?;
        let cell = copy_of(alloc, original, self.next + count as u32)?;
        self.add_copy(alloc, gathered, cell, original.names)?;
        Ok(())
    }
}

/// Appends copies of present cells, in order, behind the new cells that are gathered.
///
/// Refusals: too many cells or cell numbers.
pub fn append_copies(
    alloc: Global,
    room: &Room,
    gathered: &mut Gathered,
    originals: &[Original],
) -> Result<(), Fail>
    requires growing { IsGrowing room.now.spaces.now room.now.next gathered.old }
    requires known { All (IsKnown room.now.spaces.now) originals.now }
    ensures growing { OnOk result (IsGrowing room.now.spaces.now room.now.next gathered.new) }
    ensures ends { Ends room.now.spaces.now room.now.next (λ w. each append_original (grown w (new_of gathered.old)) originals.now) result (new_of gathered.new) }
{
    for original in originals {
        room.append_copy(alloc, gathered, original)?;
    }
    Ok(())
}
