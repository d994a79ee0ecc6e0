//! Adding a new cell.

ghost use Rattle.std.specs.Prelude.{◌≡◌, ◌<◌, ◌≤◌, ◌+◌, ◌++◌, ◌∷◌, [], OnOk, All, length, map};
ghost use Rattle.cell_world.specs.Gather.{source_of, append_cell, grown};
ghost use Rattle.cell_num.specs.Limits.{max_cells, max_file_bytes};
ghost use Rattle.cell_world.specs.Outcome.{each};
ghost use Rattle.cell_world.specs.World.{attached};
ghost use Rattle.cell_gather.specs.Gathering.{append_wanted};
ghost use Rattle.cell_gather.specs.Growing.{new_of, Ends, HavePlain, IsGrowing, IsOneMore};

use crate::definitions::weak_definitions;
use crate::fresh::Fresh;
use crate::load::Load;
use crate::{Gathered, Want};
use cell_num::Name;
use cell_world::{Fail, File, Refusal};
use std::alloc::{AllocError, Global};

impl<'a> Load<'a> {
    /// Lists a cell, and attaches it ahead.
    fn add(&self, alloc: Global, gathered: &mut Gathered, fresh: Fresh) -> Result<(), AllocError>
        requires growing { IsGrowing self.now.spaces.now self.now.next gathered.old }
        requires there { fresh.cell.ns < length self.now.spaces.now.namespaces }
        requires number { fresh.cell.id.0 ≡ self.now.next + length (new_of gathered.old) }
        requires room { length self.now.spaces.now.cells + length (new_of gathered.old) < max_cells }
        ensures growing { OnOk result (IsGrowing self.now.spaces.now self.now.next gathered.new) }
        ensures added { OnOk result (new_of gathered.new ≡ new_of gathered.old ++ attached fresh.cell ∷ []) }
    {
        let weak = weak_definitions(alloc, &fresh.cell.object)?;
        let stem = fresh.cell.stem.copy(alloc)?;
        let (id, ns) = (fresh.cell.id, fresh.cell.ns);
        gathered.ahead.append(id, ns, stem, fresh.names, weak)?;
        gathered.cells.push(fresh.cell)?;
        Ok(())
    }

    /// Appends the cell of a file.
    pub fn append(
        &self,
        alloc: Global,
        gathered: &mut Gathered,
        file: &File,
        ns: u16,
    ) -> Result<(), Fail>
        requires growing { IsGrowing self.now.spaces.now self.now.next gathered.old }
        requires small { length file.now.bytes ≤ max_file_bytes }
        requires there { ns < length self.now.spaces.now.namespaces }
        ensures growing { OnOk result (IsGrowing self.now.spaces.now self.now.next gathered.new) }
        ensures one { OnOk result (IsOneMore (new_of gathered.old) (new_of gathered.new)) }
        ensures ends { Ends self.now.spaces.now self.now.next (λ w. append_cell (grown w (new_of gathered.old)) (source_of file.now) ns) result (new_of gathered.new) }
    {
        let fresh = self.fresh(alloc, gathered, file, ns)?;
        self.add(alloc, gathered, fresh)?;
        Ok(())
    }

    /// Appends the cell of a wanted file.
    fn append_wanted(&self, alloc: Global, gathered: &mut Gathered, want: &Want) -> Result<(), Fail>
        requires growing { IsGrowing self.now.spaces.now self.now.next gathered.old }
        requires there { want.now.ns < length self.now.spaces.now.namespaces }
        ensures growing { OnOk result (IsGrowing self.now.spaces.now self.now.next gathered.new) }
        ensures many { OnOk result (length (new_of gathered.new) ≡ length (new_of gathered.old) + 1) }
        ensures plain { OnOk result (HavePlain (new_of gathered.old) → HavePlain (new_of gathered.new)) }
        ensures ends { Ends self.now.spaces.now self.now.next (λ w. append_wanted (map source_of self.now.depot.now) (grown w (new_of gathered.old)) want.now) result (new_of gathered.new) }
    {
        match self.depot.named(want.file.bytes()) {
            Some(file) => self.append(alloc, gathered, file, want.ns),
            None => {
                // E1
                let word = want.file.copy(alloc)?;
                Err(Fail::Refused(Refusal::Unknown { word }))
            }
        }
    }

    /// Appends the cells of the wanted files, in order.
    pub fn append_all(
        &self,
        alloc: Global,
        gathered: &mut Gathered,
        wants: &[Want],
    ) -> Result<(), Fail>
        requires growing { IsGrowing self.now.spaces.now self.now.next gathered.old }
        requires there { All (λ want. want.ns < length self.now.spaces.now.namespaces) wants.now }
        ensures growing { OnOk result (IsGrowing self.now.spaces.now self.now.next gathered.new) }
        ensures many { OnOk result (length (new_of gathered.new) ≡ length (new_of gathered.old) + length wants.now) }
        ensures plain { OnOk result (HavePlain (new_of gathered.old) → HavePlain (new_of gathered.new)) }
        ensures ends { Ends self.now.spaces.now self.now.next (λ w. each (append_wanted (map source_of self.now.depot.now)) (grown w (new_of gathered.old)) wants.now) result (new_of gathered.new) }
    {
        for want in wants {
            self.append_wanted(alloc, gathered, want)?;
        }
        Ok(())
    }
}
