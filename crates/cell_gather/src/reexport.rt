//! Names of replaced cells for the new ones in their place.

ghost use Rattle.std.specs.Prelude.{◌≡◌, ◌<◌, ◌≤◌, ◌+◌, All, OnOk, Some, false, length};
ghost use Rattle.std.specs.Option.{ForSome};
ghost use Rattle.cell_world.specs.Names.{definitions_of, weak_definitions_of};
ghost use Rattle.cell_world.specs.World.{World, Cell as SomeCell};
ghost use Rattle.cell_space.specs.Path.{IsPath};
ghost use Rattle.cell_space.specs.Spaces.{HasCell};
ghost use Rattle.cell_world.specs.Gather.{grown};
ghost use Rattle.cell_gather.specs.Gathering.{IsOf, renamed};
ghost use Rattle.cell_gather.specs.Growing.{IsGrowing, new_of};
ghost use Rattle.cell_gather.specs.Renaming.{AreHeirs, IsNew, hand_on_now, heir_now, heir_there, renamed_now, take_all_now, take_now};

use crate::heirs::{Heirs, Heritage};
use crate::load::Load;
use crate::{Gathered, Want};
use cell_num::CellId;
use cell_space::{NameRows, Path};
use std::alloc::{AllocError, Global};

impl<'a> Load<'a> {
    /// The symbol that a new cell on the path has for an old name, where nobody there has the name.
    fn heir_there(
        &self,
        gathered: &Gathered,
        path: &Path,
        heirs: &Heirs,
        name: &[u8],
    ) -> Option<u32>
        requires growing { IsGrowing self.now.spaces.now self.now.next gathered.now }
        requires path { IsPath self.now.spaces.now.namespaces path.now }
        ensures { (c : SomeCell) → c.ns ≡ path.now.ns → AreHeirs (definitions_of c.object) heirs.now → result ≡ heir_there self.now.spaces.now (new_of gathered.now) c name.now }
    {
        match gathered.ahead.clash_name(path, name) {
            Some(_) => None,
            None => heirs.heir(name),
        }
    }

    /// The same, where the new cell doesn't hold the name weakly itself.
    fn heir(
        &self,
        gathered: &Gathered,
        path: &Path,
        heritage: &Heritage,
        name: &[u8],
    ) -> Option<u32>
        requires growing { IsGrowing self.now.spaces.now self.now.next gathered.now }
        requires path { IsPath self.now.spaces.now.namespaces path.now }
        ensures { (c : SomeCell) → c.ns ≡ path.now.ns → AreHeirs (definitions_of c.object) heritage.now.heirs → heritage.now.weak ≡ weak_definitions_of c.object → result ≡ heir_now self.now.spaces.now (new_of gathered.now) c name.now }
    {
        if heritage.weak.symbol_of(name).is_some() {
            return None;
        }
        self.heir_there(gathered, path, &heritage.heirs, name)
    }

    /// Gives the new cell of a number an old name, where it has an heir for it.
    fn give(
        &self,
        alloc: Global,
        gathered: &mut Gathered,
        path: &Path,
        cell: CellId,
        heritage: &Heritage,
        name: &[u8],
    ) -> Result<(), AllocError>
        requires growing { IsGrowing self.now.spaces.now self.now.next gathered.old }
        requires path { IsPath self.now.spaces.now.namespaces path.now }
        requires new { IsNew (new_of gathered.old) cell.0 path.now.ns heritage.now }
        ensures growing { OnOk result (IsGrowing self.now.spaces.now self.now.next gathered.new) }
        ensures new { OnOk result (IsNew (new_of gathered.new) cell.0 path.now.ns heritage.now) }
        ensures named { OnOk result (new_of gathered.new ≡ take_now self.now.spaces.now cell.0 (new_of gathered.old) name.now) }
    {
        match self.heir(gathered, path, heritage, name) {
            Some(symbol) => gathered.ahead.add_name(alloc, cell, name, symbol),
            None => Ok(()),
        }
    }

    /// Gives the new cell of a number the old names for which it has heirs.
    fn give_all(
        &self,
        alloc: Global,
        gathered: &mut Gathered,
        path: &Path,
        cell: CellId,
        heritage: &Heritage,
        names: &NameRows,
    ) -> Result<(), AllocError>
        requires growing { IsGrowing self.now.spaces.now self.now.next gathered.old }
        requires path { IsPath self.now.spaces.now.namespaces path.now }
        requires new { IsNew (new_of gathered.old) cell.0 path.now.ns heritage.now }
        ensures growing { OnOk result (IsGrowing self.now.spaces.now self.now.next gathered.new) }
        ensures named { OnOk result (new_of gathered.new ≡ take_all_now self.now.spaces.now cell.0 (new_of gathered.old) names.now) }
    {
        for place in 0..names.len() {
            let (name, _) = names.at(place);
            self.give(alloc, gathered, path, cell, heritage, name)?;
        }
        Ok(())
    }

    /// Gives the new cell of a want, which stands at a place, the names of the cell that it replaces.
    fn hand_on(
        &self,
        alloc: Global,
        gathered: &mut Gathered,
        place: usize,
        want: &Want,
    ) -> Result<(), AllocError>
        requires growing { IsGrowing self.now.spaces.now self.now.next gathered.old }
        requires place { place < length (new_of gathered.old) }
        requires old { ForSome want.now.replaces (λ id. HasCell self.now.spaces.now id.0) }
        ensures growing { OnOk result (IsGrowing self.now.spaces.now self.now.next gathered.new) }
        ensures many { OnOk result (length (new_of gathered.new) ≡ length (new_of gathered.old)) }
        ensures named { OnOk result (new_of gathered.new ≡ hand_on_now self.now.spaces.now (self.now.next + place) (new_of gathered.old) want.now) }
    {
        let Some(old) = want.replaces else {
            return Ok(());
        };
        let cell = &gathered.cells[place];
        let (id, ns) = (cell.id, cell.ns);
        let heritage = Heritage::of(alloc, &cell.object)?;
        let path = gathered.ahead.path(alloc, ns)?;
        self.give_all(
            alloc,
            gathered,
            &path,
            id,
            &heritage,
            self.spaces.names(old),
        )
    }

    /// Gives the new cells of the wants the names of the cells that they replace, one after the other.
    fn reexport(
        &self,
        alloc: Global,
        gathered: &mut Gathered,
        wants: &[Want],
    ) -> Result<(), AllocError>
        requires growing { IsGrowing self.now.spaces.now self.now.next gathered.old }
        requires appended { length wants.now ≤ length (new_of gathered.old) }
        requires old { All (λ want. ForSome want.replaces (λ id. HasCell self.now.spaces.now id.0)) wants.now }
        ensures growing { OnOk result (IsGrowing self.now.spaces.now self.now.next gathered.new) }
        ensures named { OnOk result (new_of gathered.new ≡ renamed_now self.now.spaces.now self.now.next (new_of gathered.old) wants.now) }
    {
        for (place, want) in wants.iter().enumerate() {
            self.hand_on(alloc, gathered, place, want)?;
        }
        Ok(())
    }

    /// Gives the new cells the names of the cells that they replace, where that is asked for.
    pub fn rename(
        &self,
        alloc: Global,
        gathered: &mut Gathered,
        wants: &[Want],
        reexport: bool,
    ) -> Result<(), AllocError>
        requires growing { IsGrowing self.now.spaces.now self.now.next gathered.old }
        requires appended { length wants.now ≤ length (new_of gathered.old) }
        requires old { All (λ want. ForSome want.replaces (λ id. HasCell self.now.spaces.now id.0)) wants.now }
        ensures growing { OnOk result (IsGrowing self.now.spaces.now self.now.next gathered.new) }
        ensures named { OnOk result ((w : World) → IsOf self.now.spaces.now self.now.next w → renamed w wants.now reexport (grown w (new_of gathered.old)) ≡ grown w (new_of gathered.new)) }
        ensures plain { OnOk result (reexport ≡ false → new_of gathered.new ≡ new_of gathered.old) }
    {
        if reexport {
            self.reexport(alloc, gathered, wants)?;
        }
        Ok(())
    }
}
