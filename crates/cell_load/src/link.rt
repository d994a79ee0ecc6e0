//! The fields and the links of new cells.

ghost use Rattle.std.specs.Prelude.{◌≡◌, ◌++◌, All, OnOk};
ghost use Rattle.cell_num.specs.Lists.{In};
ghost use Rattle.cell_target.specs.Scene.{seen};
ghost use Rattle.cell_load.specs.Linking.{CanLink, Links, LinksAll};

use crate::rows::rows;
use cell_link::{FieldValue, link_fields};
use cell_target::Scene;
use cell_world::{Fail, LinkRow, NewCell, Standing};
use std::alloc::{AllocError, Global};

/// What fields hold, and links.
#[derive(Drop)]
pub struct Linked {
    pub fields: Vec<FieldValue>,
    pub rows: Vec<LinkRow>,
}

impl Linked {
    /// Adds the fields and the links of one more cell.
    fn add(&mut self, more: Linked) -> Result<(), AllocError>
        ensures fields { OnOk result (self.new.fields.items ≡ self.old.fields.items ++ more.fields.items) }
        ensures rows { OnOk result (self.new.rows.items ≡ self.old.rows.items ++ more.rows.items) }
    {
        self.fields.extend_from_slice(&more.fields)?;
        self.rows.extend_from_slice(&more.rows)?;
        Ok(())
    }
}

/// Links a cell.
fn link_one(alloc: Global, scene: &Scene, cell: &NewCell) -> Result<Linked, Fail>
    requires there { In cell.now (scene.now.present.now ++ scene.now.fresh.now) }
    requires can { CanLink scene.now.ahead.now.namespaces cell.now }
    ensures { Links (seen scene.now.ahead.now.namespaces (scene.now.present.now ++ scene.now.fresh.now) scene.now.ahead.now.cells) cell.now result }
{
    let targets = scene.targets(alloc, cell, Standing::Attached)?;
    let fields = link_fields(alloc, cell, &targets)?;
    let rows = rows(alloc, cell, &targets)?;
    Ok(Linked {
        fields: fields.into_vec(),
        rows,
    })
}

/// Links the new cells of the scene, one after another. The first entry that doesn't fit is refused.
pub fn link_new(alloc: Global, scene: &Scene) -> Result<Linked, Fail>
    requires { All (CanLink scene.now.ahead.now.namespaces) scene.now.fresh.now }
    ensures { LinksAll (seen scene.now.ahead.now.namespaces (scene.now.present.now ++ scene.now.fresh.now) scene.now.ahead.now.cells) scene.now.fresh.now result }
{
    let mut linked = Linked {
        fields: Vec::new(alloc),
        rows: Vec::new(alloc),
    };
    let cells = scene.fresh;
    for place in 0..cells.len() {
        let one = link_one(alloc, scene, &cells[place])?;
        linked.add(one)?;
    }
    Ok(linked)
}
