//! Bringing what new cells need.

ghost use Rattle.std.specs.Prelude.{◌≡◌, ◌<◌, ◌+◌, ◌++◌, OnOk, is_some, length, map};
ghost use Rattle.cell_world.specs.Gather.{source_of, bring, grown};
ghost use Rattle.cell_world.specs.Names.{chain};
ghost use Rattle.cell_space.specs.Named.{provider_for};
ghost use Rattle.cell_world.specs.declared.state.Standing.TheVariants.{Attached};
ghost use Rattle.cell_space.specs.Machine.{called};
ghost use Rattle.cell_gather.specs.Growing.{new_of, HavePlain, AreSupplied, Ends, IsGrowing, IsNext, IsProvided, IsTurnOf, Leads};

use crate::Gathered;
use crate::load::Load;
use crate::used::needs;
use cell_num::{CellId, Name};
use cell_world::Fail;
use std::alloc::Global;

impl<'a> Load<'a> {
    /// Whether an attached or a new cell in the namespace's chain has the name.
    fn is_provided(&self, gathered: &Gathered, ns: u16, name: &[u8]) -> bool
        requires growing { IsGrowing self.now.spaces.now self.now.next gathered.now }
        requires there { ns < length self.now.spaces.now.namespaces }
        ensures { result ≡ is_some (provider_for (chain self.now.spaces.now.namespaces ns) Attached name.now (self.now.spaces.now.cells ++ map called (new_of gathered.now))) }
    {
        gathered.ahead.provider(ns, name).is_some()
    }

    /// Brings what a new cell needs under a name, where nothing before that is lacking. Where the file
    /// of the name's crate lacks the name, the second turn refuses.
    fn supply(
        &self,
        alloc: Global,
        gathered: &mut Gathered,
        place: usize,
        ns: u16,
        needed_by: CellId,
        name: &[u8],
    ) -> Result<(), Fail>
        requires growing { IsGrowing self.now.spaces.now self.now.next gathered.old }
        requires there { ns < length self.now.spaces.now.namespaces }
        requires next { IsNext self.now.spaces.now (new_of gathered.old) place ns needed_by name.now }
        ensures growing { OnOk result (IsGrowing self.now.spaces.now self.now.next gathered.new) }
        ensures leads { Leads self.now.depot.now self.now.spaces.now self.now.next (new_of gathered.old) result (new_of gathered.new) }
        ensures provided { OnOk result (IsProvided self.now.spaces.now (new_of gathered.new) ns name.now) }
    {
        while !self.is_provided(gathered, ns, name) {
            self.bring_one(alloc, gathered, ns, needed_by, name)?;
        }
        Ok(())
    }

    /// Brings what a new cell needs, need by need, where no cell before it lacks anything.
    fn supply_needs(
        &self,
        alloc: Global,
        gathered: &mut Gathered,
        place: usize,
        ns: u16,
        needed_by: CellId,
        needs: &[Name],
    ) -> Result<(), Fail>
        requires growing { IsGrowing self.now.spaces.now self.now.next gathered.old }
        requires there { ns < length self.now.spaces.now.namespaces }
        requires turn { IsTurnOf self.now.spaces.now (new_of gathered.old) place ns needed_by needs.now }
        ensures growing { OnOk result (IsGrowing self.now.spaces.now self.now.next gathered.new) }
        ensures leads { Leads self.now.depot.now self.now.spaces.now self.now.next (new_of gathered.old) result (new_of gathered.new) }
        ensures supplied { OnOk result (AreSupplied self.now.spaces.now (new_of gathered.new) (place + 1)) }
    {
        for need in needs {
            self.supply(alloc, gathered, place, ns, needed_by, need.bytes())?;
        }
        Ok(())
    }

    /// Brings what the new cell at a place needs, where no cell before it lacks anything.
    fn supply_cell(&self, alloc: Global, gathered: &mut Gathered, place: usize) -> Result<(), Fail>
        requires growing { IsGrowing self.now.spaces.now self.now.next gathered.old }
        requires there { place < length (new_of gathered.old) }
        requires supplied { AreSupplied self.now.spaces.now (new_of gathered.old) place }
        ensures growing { OnOk result (IsGrowing self.now.spaces.now self.now.next gathered.new) }
        ensures leads { Leads self.now.depot.now self.now.spaces.now self.now.next (new_of gathered.old) result (new_of gathered.new) }
        ensures supplied { OnOk result (AreSupplied self.now.spaces.now (new_of gathered.new) (place + 1)) }
    {
        let cell = &gathered.cells[place];
        let (ns, id) = (cell.ns, cell.id);
        let needs = needs(alloc, &cell.object)?;
        self.supply_needs(alloc, gathered, place, ns, id, &needs)
    }

    /// Brings what the new cells need, and what those need that are brought.
    pub fn bring(&self, alloc: Global, gathered: &mut Gathered) -> Result<(), Fail>
        requires { IsGrowing self.now.spaces.now self.now.next gathered.old }
        ensures growing { OnOk result (IsGrowing self.now.spaces.now self.now.next gathered.new) }
        ensures plain { OnOk result (HavePlain (new_of gathered.old) → HavePlain (new_of gathered.new)) }
        ensures ends { Ends self.now.spaces.now self.now.next (λ w. bring (map source_of self.now.depot.now) self.now.next (grown w (new_of gathered.old))) result (new_of gathered.new) }
    {
        let mut place = 0;
        while place < gathered.cells.len() {
            self.supply_cell(alloc, gathered, place)?;
            place += 1;
        }
        Ok(())
    }
}
