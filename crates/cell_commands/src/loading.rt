//! `load`

ghost use Rattle.std.specs.Prelude.{◌≡◌, ◌≤◌, All, IfOk, None, length, map, true};
ghost use Rattle.cell_num.specs.Limits.{max_file_bytes};
ghost use Rattle.cell_depot.specs.Files.{are_apart};
ghost use Rattle.cell_depot.specs.Found.{IsOnly};
ghost use Rattle.cell_world.specs.Commands.Asked.{next_load};
ghost use Rattle.cell_world.specs.Following.{Follows};
ghost use Rattle.cell_machine.specs.Does.{Does, no_stack};
ghost use Rattle.cell_machine.specs.Machine.{IsSound, world_of};
ghost use Rattle.cell_world.specs.declared.refusal.Refusal.TheVariants.{Ambiguous, NoObject as NoFile};
ghost use Rattle.cell_world.specs.Gather.{depot_files, one_file as only, source_of};
ghost use Rattle.cell_commands.specs.Adding.{Adds};

use cell_change::{Change, Ending, Made, Options, make_change};
use cell_depot::{Depot, DepotFault};
use cell_gather::Want;
use cell_machine::{Machine, namespace};
use cell_num::Name;
use cell_world::{Fail, File, Refusal, Reply};
use std::alloc::{AllocError, Global};

/// E5: the namespace has no file of the stem.
fn no_object(alloc: Global, stem: &[u8]) -> Result<Refusal, AllocError>
    ensures { IfOk result (λ refusal. refusal ≡ NoFile stem.now) }
{
    let stem = Name::of(alloc, stem)?;
    Ok(Refusal::NoObject { stem })
}

/// E6: it has more than one.
fn ambiguous(alloc: Global, one: &File, two: &File) -> Result<Refusal, AllocError>
    ensures { IfOk result (λ refusal. refusal ≡ Ambiguous one.now.name two.now.name) }
{
    let one = one.name.copy(alloc)?;
    let two = two.name.copy(alloc)?;
    Ok(Refusal::Ambiguous { one, two })
}

/// The one file of a stem in the depot of a namespace.
fn one_file<'a>(alloc: Global, depot: &'a Depot, ns: &[u8], stem: &[u8]) -> Result<&'a File, Fail>
    ensures file { Follows (λ file. source_of file.now) result (only (depot_files (map source_of depot.now) ns.now stem.now) (NoFile stem.now)) }
    ensures only { IfOk result (λ file. IsOnly depot.now (depot_files (map source_of depot.now) ns.now stem.now) file.now) }
{
    match depot.find(ns, stem) {
        Ok(file) => Ok(file),
        Err(DepotFault::NoObject) => Err(Fail::Refused(no_object(alloc, stem)?)),
        Err(DepotFault::Ambiguous { one, two }) => {
            let refusal = ambiguous(alloc, depot.at(one), depot.at(two))?;
            Err(Fail::Refused(refusal))
        }
    }
}

/// The wanted cell of a file.
fn want(alloc: Global, ns: u16, file: &File) -> Result<Want, AllocError>
    ensures { IfOk result (λ want. want ≡ record { ns = ns; file = file.now.name; replaces = None }) }
{
    let file = file.name.copy(alloc)?;
    Ok(Want {
        ns,
        file,
        replaces: None,
    })
}

/// The change that adds a cell of a file, and no more.
fn adding<'a>(alloc: Global, ns: u16, file: &File) -> Result<Change<'a>, AllocError>
    ensures { IfOk result (Adds ns file.now.name) }
{
    let mut wants = Vec::new(alloc);
    wants.push(want(alloc, ns, file)?)?;
    Ok(Change {
        wants,
        replaced: Vec::new(alloc),
        copies: Vec::new(alloc),
        options: Options {
            reexport: false,
            routines: &[],
            budget: 0,
            ending: Ending::Lenient,
        },
    })
}

/// Loads the one file of a stem in a namespace, and what it needs.
///
/// Refusals, of which the first that holds is answered: a namespace that isn't there, no file or
/// several files of the stem, and those of the change.
#[tactic(auto, using(cell_machine::proofs::Unchanged::same_itself))]
pub fn load(
    alloc: Global,
    depot: &Depot,
    machine: &mut Machine,
    ns: &[u8],
    stem: &[u8],
) -> Result<Reply, Fail>
    requires sound { IsSound machine.old }
    requires small { All (λ f. length f.bytes ≤ max_file_bytes) depot.now }
    requires apart { are_apart depot.now ≡ true }
    ensures { Does (next_load (map source_of depot.now) (world_of machine.old) ns.now stem.now) no_stack machine.old result machine.new }
{
    let number = namespace(alloc, &machine.spaces, ns)?;
    let file = one_file(alloc, depot, ns, stem)?;
    let change = adding(alloc, number, file)?;
    let Made {
        fresh,
        patched,
        removed: _,
        aside: _,
    } = make_change(alloc, depot, machine, &change)?;
    Ok(Reply::Load { fresh, patched })
}
