//! A dump against what linking anew shows.

ghost use Rattle.std.specs.Prelude.{◌≡◌, ◌∷◌, ◌++◌, [], All, None};
ghost use Rattle.cell_num.specs.Lists.{In};
ghost use Rattle.cell_audit.specs.Linking.{unlinked_in};
ghost use Rattle.cell_described.specs.declared.cell.DescribedCell.{DescribedCell as SomeCell};
ghost use Rattle.cell_world.specs.declared.line.DumpLine.TheVariants.{End};
ghost use Rattle.cell_relinked.specs.Fit.{IsFit};
ghost use Rattle.cell_relinked.specs.Indexed.{IsIndexed};
ghost use Rattle.cell_relinked.specs.Linking.{seen_by, world_in};
ghost use Rattle.cell_relinked.specs.Scene.{world_of};
ghost use Rattle.cell_compared.specs.Left.{left};
ghost use Rattle.cell_compared.specs.Shown.{lines_shown, linked_shown, relinked_in};
ghost use Rattle.cell_compared.specs.Walk.{Walks};

use crate::cell_lines::compare_cells;
use crate::content_lines::compare_contents;
use crate::cursor::Cursor;
use crate::link_lines::compare_links;
use crate::name_lines::compare_names;
use crate::space_lines::compare_spaces;
use cell_audit::AuditFail;
use cell_object::Object;
use cell_relinked::{Ground, Scene, scene_of};
use cell_world::DumpLine;
use std::alloc::Global;

/// Compares the lines of cells, links and names.
fn compare_linked(
    alloc: Global,
    cursor: &mut Cursor,
    ground: &Ground,
    objects: &[Object],
) -> Result<(), AuditFail>
    requires whole { All (IsFit objects.now) ground.now.cells.now }
    requires indexed { IsIndexed ground.now objects.now }
    ensures { Walks (left cursor.old) (linked_shown (world_in ground.now objects.now)) (left cursor.new) result }
{
    compare_scene(alloc, cursor, &scene_of(ground, objects))
}

fn compare_scene(alloc: Global, cursor: &mut Cursor, scene: &Scene) -> Result<(), AuditFail>
    ensures { Walks (left cursor.old) (linked_shown (world_of scene.now)) (left cursor.new) result }
{
    compare_cells(alloc, cursor, scene)?;
    compare_links(alloc, cursor, scene)?;
    compare_names(alloc, cursor, scene)
}

/// Compares all lines but the last.
fn compare_before_end(
    alloc: Global,
    cursor: &mut Cursor,
    ground: &Ground,
    objects: &mut Vec<Object>,
) -> Result<(), AuditFail>
    requires whole { All (IsFit objects.old.items) ground.now.cells.now }
    requires indexed { IsIndexed ground.now objects.old.items }
    requires linked { (c : SomeCell) → In c ground.now.cells.now → unlinked_in (world_in ground.now objects.old.items) (seen_by ground.now objects.old.items c) ≡ None }
    ensures { Walks (left cursor.old) (lines_shown (relinked_in ground.now objects.old.items) (world_in ground.now objects.old.items)) (left cursor.new) result }
{
    compare_spaces(alloc, cursor, ground.base, ground.pages, ground.namespaces)?;
    compare_linked(alloc, cursor, ground, objects)?;
    compare_contents(alloc, cursor, ground, objects)
}

/// Compares all lines.
pub fn compare(
    alloc: Global,
    cursor: &mut Cursor,
    ground: &Ground,
    objects: &mut Vec<Object>,
) -> Result<(), AuditFail>
    requires whole { All (IsFit objects.old.items) ground.now.cells.now }
    requires indexed { IsIndexed ground.now objects.old.items }
    requires linked { (c : SomeCell) → In c ground.now.cells.now → unlinked_in (world_in ground.now objects.old.items) (seen_by ground.now objects.old.items c) ≡ None }
    ensures { Walks (left cursor.old) (lines_shown (relinked_in ground.now objects.old.items) (world_in ground.now objects.old.items) ++ End ∷ []) (left cursor.new) result }
{
    compare_before_end(alloc, cursor, ground, objects)?;
    cursor.expect(alloc, &DumpLine::End)
}
