//! Whether a described machine can be linked anew.

ghost use Rattle.std.specs.Prelude.{◌≡◌, ◌<◌, ◌^◌, All, IfErr, IfOk, IfSome, Ok, OnOk, map};
ghost use Rattle.cell_audit.specs.Linking.{unlinked_in};
ghost use Rattle.cell_audit.specs.Outcome.{FailsBy};
ghost use Rattle.cell_relinked.specs.Entries.{AreEntries};
ghost use Rattle.cell_relinked.specs.Fit.{IsFit};
ghost use Rattle.cell_relinked.specs.Indexed.{IsIndexed};
ghost use Rattle.cell_relinked.specs.Linking.{earlier, lined, seen_by, unlinked, world_in};

use crate::entries::Entries;
use crate::ground::{Ground, scene_of};
use crate::link::link_described;
use cell_audit::AuditFail;
use cell_described::DescribedCell;
use cell_link::LinkFail;
use cell_object::Object;
use std::alloc::{AllocError, Global};

/// The lower of two places.
fn earlier(lacking: Option<usize>, unfit: Option<u32>) -> Option<u32>
    requires { IfSome lacking (λ place. place < 2 ^ 32) }
    ensures { result ≡ earlier lacking unfit }
{
    match (lacking, unfit) {
        (Some(lacking), Some(unfit)) => Some((lacking as u32).min(unfit)),
        (Some(lacking), None) => Some(lacking as u32),
        (None, unfit) => unfit,
    }
}

/// What the entries of the cell name.
pub fn find_entries(
    alloc: Global,
    ground: &Ground,
    objects: &[Object],
    cell: &DescribedCell,
) -> Result<Entries, AllocError>
    requires whole { All (IsFit objects.now) ground.now.cells.now }
    requires indexed { IsIndexed ground.now objects.now }
    requires fit { IsFit objects.now cell.now }
    ensures { IfOk result (AreEntries (world_in ground.now objects.now) (seen_by ground.now objects.now cell.now)) }
{
    scene_of(ground, objects).entries(alloc, cell)
}

/// The place of the first entry of the cell that lacks a provider or doesn't fit.
fn unlinked_in(
    alloc: Global,
    ground: &Ground,
    objects: &mut Vec<Object>,
    cell: &DescribedCell,
) -> Result<Option<u32>, AllocError>
    requires whole { All (IsFit objects.old.items) ground.now.cells.now }
    requires indexed { IsIndexed ground.now objects.old.items }
    requires fit { IsFit objects.old.items cell.now }
    ensures same { objects.new.items ≡ objects.old.items }
    ensures place { IfOk result (λ place. place ≡ unlinked_in (world_in ground.now objects.old.items) (seen_by ground.now objects.old.items cell.now)) }
{
    let entries = find_entries(alloc, ground, objects, cell)?;
    match link_described(alloc, objects, cell, &entries.targets) {
        Ok(_) => Ok(earlier(entries.lacking, None)),
        Err(LinkFail::Overflow { entry }) => Ok(earlier(entries.lacking, Some(entry))),
        Err(LinkFail::OutOfMemory) => Err(AllocError),
    }
}

/// Whether each entry has what it names, and fits; or the first that doesn't.
pub fn check_linked(
    alloc: Global,
    ground: &Ground,
    objects: &mut Vec<Object>,
) -> Result<(), AuditFail>
    requires whole { All (IsFit objects.old.items) ground.now.cells.now }
    requires indexed { IsIndexed ground.now objects.old.items }
    ensures same { objects.new.items ≡ objects.old.items }
    ensures linked { OnOk result (unlinked (world_in ground.now objects.old.items) (map (lined ground.now objects.old.items) ground.now.cells.now) ≡ Ok tt) }
    ensures fault { IfErr result (λ fault. FailsBy fault (unlinked (world_in ground.now objects.old.items) (map (lined ground.now objects.old.items) ground.now.cells.now))) }
{
    for index in 0..ground.cells.len() {
        let cell = &ground.cells[index];
        if let Some(entry) = unlinked_in(alloc, ground, objects, cell)? {
            let line = cell.line;
            return Err(AuditFail::Unlinked { line, entry });
        }
    }
    Ok(())
}
