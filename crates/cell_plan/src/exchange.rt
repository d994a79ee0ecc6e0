//! An exchange of cells, before anything is changed.

ghost use Rattle.std.specs.Prelude.{◌≡◌, ◌++◌, ◌∷◌, [], All, OnErr, OnOk, map};
ghost use Rattle.cell_num.specs.Lists.{In};
ghost use Rattle.cell_plan.specs.Exchanged.{Change, MayChange, links_before};
ghost use Rattle.cell_target.specs.Named.{IsNamed, world_of};
ghost use Rattle.cell_plan.specs.Viewed.{Adds, view_of};

use crate::changed::{Changed, FieldRoom};
use cell_graph::Graph;
use cell_space::Spaces;
use cell_target::{Named, Scene, Targets};
use cell_world::{Fail, LinkRow, NewCell};
use std::alloc::{AllocError, Global};

/// The spaces, in which the old cells are put aside, the links as they are still, and the scene in which
/// new cells are among those that names are looked up in.
#[derive(Drop)]
pub struct Exchange<'a> {
    pub spaces: &'a Spaces,
    pub graph: &'a Graph,
    pub scene: &'a Scene<'a>,
}

/// Room for what is looked up of one user after the other.
#[derive(Drop)]
struct Room {
    links: Vec<LinkRow>,
    /// Where the links of the next user are looked for first.
    near: usize,
    targets: Targets,
    fields: FieldRoom,
}

impl Room {
    fn new(alloc: Global) -> Room {
        Room {
            links: Vec::new(alloc),
            near: 0,
            targets: Targets::none(alloc),
            fields: FieldRoom::new(alloc),
        }
    }
}

impl<'a> Exchange<'a> {
    /// Lists the links of the cell as they are.
    fn list_links(&self, room: &mut Room, cell: &NewCell) -> Result<(), AllocError>
        ensures { OnOk result (room.new.links.items ≡ links_before (view_of self.now) cell.now) }
    {
        let (links, next) = self.graph.deps_of_cell_near(cell.id, room.near);
        room.near = next;
        room.links.clear();
        for link in links {
            room.links.push(link)?;
        }
        Ok(())
    }

    /// Adds what changes in one cell.
    fn add<'n>(
        &self,
        alloc: Global,
        room: &mut Room,
        named: &mut Option<Named<'n>>,
        changed: &mut Changed,
        cell: &'n NewCell,
    ) -> Result<(), Fail>
        requires named { IsNamed (world_of self.now.scene.now) named.old }
        requires there { In cell.now (self.now.scene.now.present.now ++ self.now.scene.now.fresh.now) }
        requires may { MayChange (view_of self.now) cell.now }
        ensures named { IsNamed (world_of self.now.scene.now) named.new }
        ensures adds { Adds (view_of self.now) cell.now changed.old result changed.new }
    {
        let state = self.spaces.state(cell.id);
        self.list_links(room, cell)?;
        self.scene
            .find_targets(alloc, &mut room.targets, named, cell, state)?;
        changed.take_in(
            alloc,
            &mut room.fields,
            cell,
            &room.targets.entries,
            &room.links,
        )?;
        Ok(())
    }

    /// What changes in some cells. The first entry that doesn't fit is refused.
    pub fn changed<'n>(&self, alloc: Global, users: &[&'n NewCell]) -> Result<Changed, Fail>
        requires there { All (λ c. In c.now (self.now.scene.now.present.now ++ self.now.scene.now.fresh.now)) users.now }
        requires may { All (λ c. MayChange (view_of self.now) c.now) users.now }
        ensures { Change (view_of self.now) (map (λ c. c.now) users.now) result }
    {
        // Most users have one field or two that change.
        let mut changed = Changed::with_room(alloc, users.len() * 2)?;
        let mut room = Room::new(alloc);
        let mut named = None;
        for place in 0..users.len() {
            self.add(alloc, &mut room, &mut named, &mut changed, users[place])?;
        }
        Ok(changed)
    }
}
