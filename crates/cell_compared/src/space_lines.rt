//! The lines of the space and the namespaces.

ghost use Rattle.std.specs.Prelude.{◌≡◌, ◌∷◌, [], IfOk, map};
ghost use Rattle.cell_num.specs.Lists.{numbered};
ghost use Rattle.cell_world.specs.declared.line.DumpLine.TheVariants.{Space, Ns};
ghost use Rattle.cell_world.specs.DumpLines.{ns_line as line_of};
ghost use Rattle.cell_compared.specs.Left.{left};
ghost use Rattle.cell_compared.specs.Walk.{Walks};

use crate::cursor::Cursor;
use cell_audit::AuditFail;
use cell_world::{DumpLine, Namespace};
use std::alloc::{AllocError, Global};

fn parent_of(space: &Namespace) -> Option<u64>
    ensures { result ≡ space.now.parent }
{
    match space.parent {
        Some(parent) => Some(u64::from(parent)),
        None => None,
    }
}

fn ns_line(alloc: Global, number: u64, space: &Namespace) -> Result<DumpLine, AllocError>
    ensures { IfOk result (λ line. line ≡ Ns number space.now.name space.now.parent) }
{
    Ok(DumpLine::Ns {
        number,
        name: space.name.copy(alloc)?,
        parent: parent_of(space),
    })
}

fn expect_namespace(
    alloc: Global,
    cursor: &mut Cursor,
    number: u64,
    space: &Namespace,
) -> Result<(), AuditFail>
    ensures { Walks (left cursor.old) (line_of (number, space.now) ∷ []) (left cursor.new) result }
{
    let line = ns_line(alloc, number, space)?;
    cursor.expect(alloc, &line)
}

fn compare_namespaces(
    alloc: Global,
    cursor: &mut Cursor,
    spaces: &[Namespace],
) -> Result<(), AuditFail>
    ensures { Walks (left cursor.old) (map line_of (numbered spaces.now)) (left cursor.new) result }
{
    for number in 0..spaces.len() {
        expect_namespace(alloc, cursor, number as u64, &spaces[number])?;
    }
    Ok(())
}

/// Compares the lines of the space and of the namespaces.
pub fn compare_spaces(
    alloc: Global,
    cursor: &mut Cursor,
    base: u64,
    pages: u64,
    spaces: &[Namespace],
) -> Result<(), AuditFail>
    ensures { Walks (left cursor.old) (Space base pages ∷ map line_of (numbered spaces.now)) (left cursor.new) result }
{
    cursor.expect(alloc, &DumpLine::Space { base, pages })?;
    compare_namespaces(alloc, cursor, spaces)
}
