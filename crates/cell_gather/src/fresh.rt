//! A new cell of a file.

ghost use Rattle.std.specs.Prelude.{◌≡◌, ◌<◌, ◌≤◌, ◌+◌, IfOk, length};
ghost use Rattle.cell_num.specs.Limits.{max_file_bytes};
ghost use Rattle.cell_world.specs.Coherent.{IsLoadable};
ghost use Rattle.cell_world.specs.Names.{definitions_of};
ghost use Rattle.cell_gather.specs.Appending.{append_now, cell_from};
ghost use Rattle.cell_world.specs.Following.{Follows};
ghost use Rattle.cell_gather.specs.Growing.{new_of, IsGrowing, with_new};

use crate::Gathered;
use crate::clashes::check_names;
use crate::definitions::definitions;
use crate::load::Load;
use crate::read::read;
use cell_depot::stem_of;
use cell_num::{CellId, Listed, Name};
use cell_object::Object;
use cell_space::NameRows;
use cell_world::{Fail, File, NewCell};
use std::alloc::{AllocError, Global};

/// A new cell, and what it defines.
#[derive(Drop)]
pub struct Fresh {
    pub cell: NewCell,
    pub names: NameRows,
    ghost named: { names ≡ definitions_of cell.object },
    ghost loadable: { IsLoadable cell.object },
}

fn new_cell(
    alloc: Global,
    number: u32,
    ns: u16,
    file: &File,
    object: Object,
) -> Result<NewCell, AllocError>
    ensures { IfOk result (λ cell. cell ≡ cell_from number ns file.now object) }
{
    Ok(NewCell {
        id: CellId(number),
        ns,
        stem: Name::of(alloc, stem_of(file.name.bytes()))?,
        file: file.name.copy(alloc)?,
        object,
        places: Listed::from_vec(Vec::new(alloc)),
    })
}

impl<'a> Load<'a> {
    /// The cell of a file, which takes no name that is there.
    pub fn fresh(
        &self,
        alloc: Global,
        gathered: &Gathered,
        file: &File,
        ns: u16,
    ) -> Result<Fresh, Fail>
        requires growing { IsGrowing self.now.spaces.now self.now.next gathered.now }
        requires small { length file.now.bytes ≤ max_file_bytes }
        requires there { ns < length self.now.spaces.now.namespaces }
        ensures { Follows (λ fresh. fresh.cell) result (append_now (with_new self.now.spaces.now (new_of gathered.now)) (length self.now.spaces.now.cells + length (new_of gathered.now)) (self.now.next + length (new_of gathered.now)) file.now ns) }
    {
        let count = gathered.cells.len();
        self.check_room(count)?;
        let object = read(alloc, file)?;
        let names = definitions(alloc, &object)?;
        let path = gathered.ahead.path(alloc, ns)?;
        let stem = stem_of(file.name.bytes());
        check_names(alloc, &gathered.ahead, &path, stem, &names)?;
        let cell = new_cell(alloc, self.next + count as u32, ns, file, object)?;
        Ok(Fresh { cell, names })
    }
}
