//! What the entries of a cell name.

ghost use Rattle.std.specs.Prelude.{◌≡◌, ◌<◌, ◌++◌, [], IfOk, OnOk, length};
ghost use Rattle.cell_world.specs.Linked.Target.{targets_of};
ghost use Rattle.cell_num.specs.Lists.{In};
ghost use Rattle.cell_target.specs.Named.{IsNamed, world_of};
ghost use Rattle.cell_target.specs.Scene.{in_state, seen};

use crate::entries::find_entries;
use crate::highs::Highs;
use crate::named::Named;
use crate::scene::Scene;
use cell_world::{NewCell, Standing, Target};
use std::alloc::{AllocError, Global};

/// What a cell's entries name, in room that serves for one cell after another.
#[derive(Drop)]
pub struct Targets {
    /// In table order.
    pub entries: Vec<Target>,
    symbols: Vec<Option<Target>>,
}

impl Targets {
    /// Of no cell yet.
    pub fn none(alloc: Global) -> Targets
        ensures { result.entries.items ≡ [] }
    {
        Targets {
            entries: Vec::new(alloc),
            symbols: Vec::new(alloc),
        }
    }
}

impl<'a> Scene<'a> {
    /// Finds what each entry of the cell names in that state, in table order, in place of what was found
    /// before. A name that nobody provides is the number 0. The last name that was looked up is at hand
    /// for the next cell.
    #[tactic(auto, using(crate::proofs::Tabled::targets_tabled))]
    pub fn find_targets<'n>(
        &self,
        alloc: Global,
        targets: &mut Targets,
        named: &mut Option<Named<'n>>,
        cell: &'n NewCell,
        state: Standing,
    ) -> Result<(), AllocError>
        requires named { IsNamed (world_of self.now) named.old }
        requires there { In cell.now (self.now.present.now ++ self.now.fresh.now) }
        requires ns { cell.now.ns < length self.now.ahead.now.namespaces }
        ensures named { IsNamed (world_of self.now) named.new }
        ensures targets { OnOk result (targets.new.entries.items ≡ targets_of (world_of self.now) (in_state cell.now state)) }
    {
        self.find_symbols(&mut targets.symbols, named, cell, state)?;
        let highs = Highs::of(alloc, &cell.object)?;
        find_entries(&mut targets.entries, &targets.symbols, &highs)
    }

    /// What each entry of the cell names in that state, in table order. A name that nobody provides is the
    /// number 0. The last name that was looked up is at hand for the next cell.
    pub fn targets_after<'n>(
        &self,
        alloc: Global,
        named: &mut Option<Named<'n>>,
        cell: &'n NewCell,
        state: Standing,
    ) -> Result<Vec<Target>, AllocError>
        requires named { IsNamed (world_of self.now) named.old }
        requires there { In cell.now (self.now.present.now ++ self.now.fresh.now) }
        requires ns { cell.now.ns < length self.now.ahead.now.namespaces }
        ensures named { IsNamed (world_of self.now) named.new }
        ensures targets { IfOk result (λ targets. targets.items ≡ targets_of (world_of self.now) (in_state cell.now state)) }
    {
        let mut targets = Targets::none(alloc);
        self.find_targets(alloc, &mut targets, named, cell, state)?;
        Ok(targets.entries)
    }

    /// What each entry of the cell names in that state, in table order. A name that nobody provides is the number 0.
    pub fn targets(
        &self,
        alloc: Global,
        cell: &NewCell,
        state: Standing,
    ) -> Result<Vec<Target>, AllocError>
        requires there { In cell.now (self.now.present.now ++ self.now.fresh.now) }
        requires ns { cell.now.ns < length self.now.ahead.now.namespaces }
        ensures { IfOk result (λ targets. targets.items ≡ targets_of (seen self.now.ahead.now.namespaces (self.now.present.now ++ self.now.fresh.now) self.now.ahead.now.cells) (in_state cell.now state)) }
    {
        let mut named = None;
        self.targets_after(alloc, &mut named, cell, state)
    }
}
