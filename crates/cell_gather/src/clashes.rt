//! Stems and names that are taken.

ghost use Rattle.std.specs.Prelude.{option_map};
ghost use Rattle.cell_world.specs.Gather.{duplicate};
ghost use Rattle.cell_world.specs.Outcome.{refused_by};
ghost use Rattle.cell_space.specs.Named.{number_as};
ghost use Rattle.cell_space.specs.Path.{IsPath};
ghost use Rattle.cell_gather.specs.Appending.{clash_among_now, stem_free, names_free};
ghost use Rattle.cell_world.specs.Following.{Follows};

use cell_num::{CellId, Name};
use cell_space::{Ahead, NameRows, Path};
use cell_world::{Fail, Refusal};
use std::alloc::Global;

/// Refuses a name that a cell has: E8.
fn refuse_taken(alloc: Global, name: &[u8], holder: Option<CellId>) -> Result<(), Fail>
    ensures { Follows (λ _. tt) result (refused_by (option_map (duplicate name.now) (option_map number_as holder))) }
{
    match holder {
        Some(holder) => {
            let name = Name::of(alloc, name)?;
            Err(Fail::Refused(Refusal::Duplicate { name, holder }))
        }
        None => Ok(()),
    }
}

fn check_stem(alloc: Global, ahead: &Ahead, path: &Path, stem: &[u8]) -> Result<(), Fail>
    requires { IsPath ahead.now.namespaces path.now }
    ensures { Follows (λ _. tt) result (stem_free ahead.now.spaces path.now.ns stem.now) }
{
    refuse_taken(alloc, stem, ahead.clash_stem(path, stem))
}

fn check_definitions(
    alloc: Global,
    ahead: &Ahead,
    path: &Path,
    names: &NameRows,
) -> Result<(), Fail>
    requires { IsPath ahead.now.namespaces path.now }
    ensures { Follows (λ _. tt) result (refused_by (clash_among_now ahead.now.spaces path.now.ns names.now)) }
{
    for place in 0..names.len() {
        let (name, _) = names.at(place);
        refuse_taken(alloc, name, ahead.clash_name(path, name))?;
    }
    Ok(())
}

/// Sees that no attached cell on the path has the stem, or one of the names.
pub fn check_names(
    alloc: Global,
    ahead: &Ahead,
    path: &Path,
    stem: &[u8],
    names: &NameRows,
) -> Result<(), Fail>
    requires { IsPath ahead.now.namespaces path.now }
    ensures { Follows (λ _. tt) result (names_free ahead.now.spaces path.now.ns stem.now names.now) }
{
    check_stem(alloc, ahead, path, stem)?;
    check_definitions(alloc, ahead, path, names)
}
