//! The audit of a dump.

ghost use Rattle.std.specs.Prelude.{◌≡◌, ◌≤◌, ◌<◌, ◌^◌, All, length, map};
ghost use Rattle.cell_audit.specs.Audits.{audit_of};
ghost use Rattle.cell_audit.specs.Outcome.{Agrees};
ghost use Rattle.cell_audit.specs.Within.{AreWithin, texts_of};
ghost use Rattle.cell_num.specs.Limits.{max_file_bytes};
ghost use Rattle.cell_relinked.specs.Fit.{IsFit};
ghost use Rattle.cell_relinked.specs.Indexed.{IsIndexed};
ghost use Rattle.cell_world.specs.Gather.{source_of};
ghost use Rattle.cell_compared.specs.Said.{said_of};

use crate::compare::compare;
use crate::cursor::Cursor;
use cell_audit::{AuditFail, Lines, Told, WrittenDump, read_dump};
use cell_bearers::{Index, index_of};
use cell_depot::Depot;
use cell_described::{Bounds, Described, DescribedCell, describe};
use cell_object::Object;
use cell_relinked::{Ground, check_linked};
use cell_world::Namespace;
use std::alloc::Global;

/// Whether the machine can be linked anew, and these lines of its file are the dump of it then.
fn audit_described(
    alloc: Global,
    ground: &Ground,
    objects: &mut Vec<Object>,
    lines: Lines,
) -> Result<(), AuditFail>
    requires whole { All (IsFit objects.old.items) ground.now.cells.now }
    requires indexed { IsIndexed ground.now objects.old.items }
    requires within { AreWithin ground.now.file.now lines }
    requires small { length ground.now.file.now < 2 ^ 32 }
    ensures { Agrees (said_of ground.now objects.old.items (texts_of ground.now.file.now lines)) result }
{
    check_linked(alloc, ground, objects)?;
    let mut cursor = Cursor::new(alloc, ground.file, lines);
    compare(alloc, &mut cursor, ground, objects)?;
    cursor.finish(alloc)
}

/// Cells, and the index of names.
#[derive(Clone, Copy)]
struct Indexed<'a> {
    cells: &'a [DescribedCell],
    index: &'a Index,
}

fn ground_of<'a>(
    file: &'a [u8],
    bounds: Bounds,
    namespaces: &'a [Namespace],
    told: &'a Told,
    indexed: Indexed<'a>,
) -> Ground<'a>
    ensures file { result.file.now ≡ file.now }
    ensures base { result.base ≡ bounds.base }
    ensures pages { result.pages ≡ bounds.pages }
    ensures namespaces { result.namespaces.now ≡ namespaces.now }
    ensures cells { result.cells.now ≡ indexed.entry.cells.now }
    ensures told { result.told.now ≡ told.now }
    ensures index { result.index.now ≡ indexed.entry.index.now }
{
    let Bounds { base, pages } = bounds;
    let Indexed { cells, index } = indexed;
    Ground {
        file,
        base,
        pages,
        namespaces,
        cells,
        told,
        index,
    }
}

/// Whether the first dump of a file shows what linking anew makes of the machine that it describes; or the first fault. First
/// come lines that can't be read, then cells without an object, then what stands where it can't, then what can't be linked,
/// and then lines that differ. The files are as `Depot::of_files` asks.
pub fn audit(alloc: Global, dump: &[u8], depot: &Depot) -> Result<(), AuditFail>
    requires short { length dump.now < 2 ^ 32 }
    requires small { All (λ f. length f.bytes ≤ max_file_bytes) depot.now }
    ensures { Agrees (audit_of dump.now (map source_of depot.now)) result }
{
    let written = read_dump(alloc, dump)?;
    let WrittenDump {
        base,
        pages,
        namespaces,
        cells,
        told,
        lines,
    } = written;
    let bounds = Bounds { base, pages };
    let described = describe(alloc, bounds, cells, depot)?;
    let Described { cells, mut objects } = described;
    let index = index_of(alloc, dump, &objects, &cells)?;
    let ground = ground_of(
        dump,
        bounds,
        &namespaces,
        &told,
        Indexed {
            cells: &cells,
            index: &index,
        },
    );
    audit_described(alloc, &ground, &mut objects, lines)
}
