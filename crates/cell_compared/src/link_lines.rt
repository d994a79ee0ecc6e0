//! The lines of links.

ghost use Rattle.std.specs.Prelude.{◌≡◌, [], flat_map, map};
ghost use Rattle.std.specs.List.{cons_option};
ghost use Rattle.cell_world.specs.DumpLines.{link_line as line_of, part_of as part_in};
ghost use Rattle.cell_object.specs.declared.object.Entry.{Entry as SomeEntry};
ghost use Rattle.cell_world.specs.Linked.Relink.{link_to};
ghost use Rattle.cell_world.specs.Linked.Target.{targets_of};
ghost use Rattle.cell_world.specs.World.{Cell, key_of};
ghost use Rattle.cell_relinked.specs.Fit.{IsFit};
ghost use Rattle.cell_relinked.specs.Scene.{seen_in, world_of};
ghost use Rattle.cell_compared.specs.Left.{left};
ghost use Rattle.cell_compared.specs.Shown.{links_shown};
ghost use Rattle.cell_compared.specs.Walk.{Walks};

use crate::cursor::Cursor;
use cell_audit::AuditFail;
use cell_described::DescribedCell;
use cell_num::SecKey;
use cell_relinked::Scene;
use cell_world::{DumpLine, Part, Target};
use std::alloc::Global;

/// The section as lines have it.
pub fn part_of(key: SecKey) -> Part
    ensures { result ≡ part_in key }
{
    Part {
        cell: u64::from(key.cell.0),
        section: u64::from(key.section),
    }
}

/// Compares the line of an entry's link, where its target is in a section.
fn expect_link(
    alloc: Global,
    cursor: &mut Cursor,
    user: SecKey,
    entry: u64,
    target: Target,
) -> Result<(), AuditFail>
    ensures { (c : Cell) (e : SomeEntry) → user ≡ key_of c.id.0 e.section → Walks (left cursor.old) (map line_of (cons_option (link_to c entry e target) [])) (left cursor.new) result }
{
    match target {
        Target::Number { .. } => Ok(()),
        Target::Section { key, .. } => {
            let line = DumpLine::Link {
                user: part_of(user),
                entry,
                target: part_of(key),
            };
            cursor.expect(alloc, &line)
        }
    }
}

/// Compares the lines of the links of a cell, whose entries have these targets.
fn compare_links_of(
    alloc: Global,
    cursor: &mut Cursor,
    scene: &Scene,
    cell: &DescribedCell,
    targets: &[Target],
) -> Result<(), AuditFail>
    requires fit { IsFit scene.now.objects.now cell.now }
    requires targets { targets.now ≡ targets_of (world_of scene.now) (seen_in scene.now cell.now) }
    ensures { Walks (left cursor.old) (links_shown (world_of scene.now) (seen_in scene.now cell.now)) (left cursor.new) result }
{
    let entries = scene.object(cell).entries.as_slice();
    for index in 0..entries.len() {
        let user = SecKey {
            cell: cell.id,
            section: entries[index].section,
        };
        expect_link(alloc, cursor, user, index as u64, targets[index])?;
    }
    Ok(())
}

fn compare_links_in(
    alloc: Global,
    cursor: &mut Cursor,
    scene: &Scene,
    cell: &DescribedCell,
) -> Result<(), AuditFail>
    requires { IsFit scene.now.objects.now cell.now }
    ensures { Walks (left cursor.old) (links_shown (world_of scene.now) (seen_in scene.now cell.now)) (left cursor.new) result }
{
    let entries = scene.entries(alloc, cell)?;
    compare_links_of(alloc, cursor, scene, cell, &entries.targets)
}

/// Compares the lines of all links.
pub fn compare_links(alloc: Global, cursor: &mut Cursor, scene: &Scene) -> Result<(), AuditFail>
    ensures { Walks (left cursor.old) (flat_map (links_shown (world_of scene.now)) (world_of scene.now).cells) (left cursor.new) result }
{
    let cells = scene.cells;
    for index in 0..cells.len() {
        compare_links_in(alloc, cursor, scene, &cells[index])?;
    }
    Ok(())
}
