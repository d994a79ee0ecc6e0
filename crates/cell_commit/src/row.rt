//! The link of an entry.

ghost use Rattle.std.specs.Prelude.{◌≡◌, ◌<◌, ◌^◌};
ghost use Rattle.cell_world.specs.Linked.Relink.{link_to};
ghost use Rattle.cell_world.specs.World.{attached};

use cell_num::SecKey;
use cell_object::Entry;
use cell_world::{LinkRow, NewCell, Target};

/// The link of the entry at that place of the cell's table, where its target is a section.
pub fn link_row(cell: &NewCell, index: usize, entry: &Entry, target: &Target) -> Option<LinkRow>
    requires { index < 2 ^ 32 }
    ensures { result ≡ link_to (attached cell.now) index entry.now target.now }
{
    match target {
        Target::Section { key, .. } => Some(LinkRow {
            user: SecKey {
                cell: cell.id,
                section: entry.section,
            },
            entry: index as u32,
            target: *key,
        }),
        Target::Number { .. } => None,
    }
}
