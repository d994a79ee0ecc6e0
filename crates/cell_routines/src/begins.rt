//! Where the routines of a swap begin, by their names.

ghost use Rattle.std.specs.Prelude.{◌≡◌, ◌<◌, ◌^◌, ◌++◌, ◌∷◌, [], All, IfOk, OnOk, map};
ghost use Rattle.cell_world.specs.declared.refusal.Refusal.TheVariants.{NoEntry as NoSuchEntry};
ghost use Rattle.cell_world.specs.Coherent.{IsLoadable};
ghost use Rattle.cell_world.specs.Following.{Follows};
ghost use Rattle.cell_world.specs.Outcome.{found};
ghost use Rattle.cell_world.specs.Commands.SwapTransfer.{begins_of as begins_said};
ghost use Rattle.cell_world.specs.World.{attached};
ghost use Rattle.cell_routines.specs.Begins.{begin_as, begin_named, begins_by as begins_named, with_begin};

use crate::definitions::{Definitions, definitions_in};
use crate::entries::Begin;
use cell_num::Name;
use cell_world::{Fail, NewCell, Refusal};
use std::alloc::{AllocError, Global};

/// E10: no routine can begin where the name is, or nobody has it.
fn no_entry(alloc: Global, word: &Name) -> Result<Refusal, AllocError>
    ensures { IfOk result (λ refusal. refusal ≡ NoSuchEntry word.now) }
{
    Ok(Refusal::NoEntry {
        name: word.copy(alloc)?,
    })
}

/// Where the routine of a name begins.
fn begin_of(alloc: Global, table: &Definitions, word: &Name) -> Result<Begin, Fail>
    ensures { Follows begin_as result (found (begin_named table.now word.now) (NoSuchEntry word.now)) }
{
    match table.get(word.bytes()) {
        Some(Some(begin)) => Ok(begin),
        _ => Err(Fail::Refused(no_entry(alloc, word)?)),
    }
}

/// Puts a place behind the others.
fn append(begins: &mut Vec<Begin>, begin: Begin) -> Result<(), AllocError>
    ensures { OnOk result (begins.new.items ≡ begins.old.items ++ begin ∷ []) }
{
    begins.push(begin)?;
    Ok(())
}

/// Puts the place where the routine of a name begins behind the others.
fn add_begin(
    alloc: Global,
    begins: &mut Vec<Begin>,
    table: &Definitions,
    word: &Name,
) -> Result<(), Fail>
    ensures { Follows (λ _. map begin_as begins.new.items) result (with_begin table.now (map begin_as begins.old.items) word.now) }
{
    let begin = begin_of(alloc, table, word)?;
    append(begins, begin)?;
    Ok(())
}

/// Where the routines of these names begin, by a table.
fn begins_by(alloc: Global, table: &Definitions, words: &[Name]) -> Result<Vec<Begin>, Fail>
    ensures { Follows (λ begins. map begin_as begins.items) result (begins_named table.now words.now) }
{
    let mut begins = Vec::new(alloc);
    for word in words {
        add_begin(alloc, &mut begins, table, word)?;
    }
    Ok(begins)
}

/// Where the routines of these names begin. A routine is the GLOBAL of the first of the cells that defines it; an alias
/// isn't looked at, and where that definition is no entry, no later cell helps. The cells need no places yet.
pub fn begins_of(alloc: Global, cells: &[NewCell], words: &[Name]) -> Result<Vec<Begin>, Fail>
    requires { All (λ c. IsLoadable c.object) cells.now }
    ensures begins { Follows (λ begins. map begin_as begins.items) result (begins_said (map attached cells.now) words.now) }
    ensures low { IfOk result (λ begins. All (λ b. b.offset < 2 ^ 32) begins.items) }
{
    let table = definitions_in(alloc, cells)?;
    begins_by(alloc, &table, words)
}
