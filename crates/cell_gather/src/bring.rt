//! Bringing the cell of a name.

ghost use Rattle.std.specs.Prelude.{◌≡◌, ◌<◌, ◌+◌, OnOk, length, map};
ghost use Rattle.cell_world.specs.Gather.{source_of, bring_one, grown};
ghost use Rattle.cell_world.specs.World.{Cell as SomeCell};
ghost use Rattle.cell_gather.specs.Growing.{new_of, Ends, IsGrowing, IsOneMore};

use crate::Gathered;
use crate::load::Load;
use cell_num::CellId;
use cell_world::Fail;
use std::alloc::Global;

impl<'a> Load<'a> {
    /// Appends the cell that is to have a name, which a new cell in the namespace lacks.
    pub fn bring_one(
        &self,
        alloc: Global,
        gathered: &mut Gathered,
        ns: u16,
        needed_by: CellId,
        name: &[u8],
    ) -> Result<(), Fail>
        requires growing { IsGrowing self.now.spaces.now self.now.next gathered.old }
        requires there { ns < length self.now.spaces.now.namespaces }
        ensures growing { OnOk result (IsGrowing self.now.spaces.now self.now.next gathered.new) }
        ensures one { OnOk result (IsOneMore (new_of gathered.old) (new_of gathered.new)) }
        ensures ends { (c : SomeCell) → c.ns ≡ ns → c.id ≡ needed_by → Ends self.now.spaces.now self.now.next (λ w. bring_one (map source_of self.now.depot.now) (grown w (new_of gathered.old)) (record { cell = c; name = name.now })) result (new_of gathered.new) }
    {
        let near = self.choose(alloc, gathered, ns, needed_by, name)?;
        self.append(alloc, gathered, near.file, near.ns)
    }
}
