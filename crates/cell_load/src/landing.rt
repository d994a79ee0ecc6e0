//! Placing and linking new cells, before anything is changed.

ghost use Rattle.std.specs.Prelude.{◌≡◌, ◌++◌, All, IfOk};
ghost use Rattle.cell_target.specs.Scene.{AreCells, seen};
ghost use Rattle.cell_load.specs.Linking.{CanLink, LinksAll};
ghost use Rattle.cell_load.specs.Stages.{CanStage, Lands, Names};

use crate::link::{Linked, link_new};
use crate::placing::place;
use cell_gather::Gathered;
use cell_link::FieldValue;
use cell_machine::{Machine, Staged};
use cell_place::Space;
use cell_space::{Ahead, into_names};
use cell_target::Scene;
use cell_world::{Fail, LinkRow, NewCell, Region};
use std::alloc::{AllocError, Global};

/// New cells in their places with what linking gives them, and the spaces as they would be with them.
#[derive(Drop)]
pub struct Landed<'a> {
    pub ahead: Ahead<'a>,
    pub cells: Vec<NewCell>,
    /// The space with their runs.
    pub space: Space,
    /// Their regions with their own bytes.
    pub regions: Vec<Region>,
    /// Where the extra run starts behind theirs, if there is one. It is free.
    pub extra: Option<u64>,
    pub fields: Vec<FieldValue>,
    pub rows: Vec<LinkRow>,
}

impl<'a> Landed<'a> {
    /// All that is to be added, once names needn't be looked up any more.
    pub fn into_staged(self, alloc: Global) -> Result<Staged, AllocError>
        ensures { IfOk result (Names self.entry) }
    {
        let names = into_names(alloc, self.ahead.into_fresh())?;
        Ok(Staged {
            cells: self.cells,
            names,
            space: self.space,
            regions: self.regions,
            fields: self.fields,
            rows: self.rows,
        })
    }
}

/// Links new cells in their places, which are called so ahead of the present ones, among these.
fn link_among(
    alloc: Global,
    machine: &Machine,
    ahead: &Ahead,
    cells: &[NewCell],
) -> Result<Linked, Fail>
    requires same { ahead.now.namespaces ≡ machine.now.spaces.namespaces }
    requires cells { AreCells ahead.now.cells (machine.now.cells.items ++ cells.now) }
    requires can { All (CanLink machine.now.spaces.namespaces) cells.now }
    ensures { LinksAll (seen machine.now.spaces.namespaces (machine.now.cells.items ++ cells.now) ahead.now.cells) cells.now result }
{
    let scene = Scene {
        ahead,
        present: &machine.cells,
        fresh: cells,
    };
    link_new(alloc, &scene)
}

/// Places the gathered cells, finds an extra run of so many pages behind them, unless these are none,
/// and links the cells. The machine stays as it is.
///
/// Refusals, of which the first that holds is answered: too few free pages in a row, and an entry
/// whose number is outside its kind's range.
pub fn land<'a>(
    alloc: Global,
    machine: &Machine,
    gathered: Gathered<'a>,
    extra: u32,
) -> Result<Landed<'a>, Fail>
    requires { CanStage machine.now gathered }
    ensures { Lands machine.now gathered.entry extra result }
{
    let Gathered { mut cells, ahead } = gathered;
    let (space, taken) = place(alloc, &machine.space, &mut cells, extra)?;
    let linked = link_among(alloc, machine, &ahead, &cells)?;
    Ok(Landed {
        ahead,
        cells,
        space,
        regions: taken.regions,
        extra: taken.extra,
        fields: linked.fields,
        rows: linked.rows,
    })
}
