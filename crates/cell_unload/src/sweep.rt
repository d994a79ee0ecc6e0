//! Removing what nobody keeps.

ghost use Rattle.std.specs.Prelude.{◌≡◌, ◌≤◌, [], length, vec_capacity};
ghost use Rattle.cell_machine.specs.Machine.{IsSound};
ghost use Rattle.cell_unload.specs.Sweep.{IsOutlook, IsSwept, Removes, SomeSurvey, Sweeps};

use crate::outlook::Outlook;
use crate::removal::remove;
use crate::survey::Survey;
use cell_machine::Machine;
use cell_num::CellId;
use cell_world::Fail;
use std::alloc::Global;

/// Removes all cells that nobody keeps by the survey, and lists them, ascending, in a list that is
/// empty and has room for all. This takes no memory.
pub fn remove_unkept(machine: &mut Machine, survey: &Survey, removed: &mut Vec<CellId>)
    requires sound { IsSound machine.old }
    requires survey { SomeSurvey machine.old survey.now }
    requires empty { removed.old.items ≡ [] }
    requires room { length machine.old.cells.items ≤ vec_capacity removed.old }
    ensures { Removes machine.old survey.now removed.new.items machine.new }
{
    survey.list_unkept(machine, removed);
    remove(machine, removed);
}

/// Removes all cells that nobody keeps while these are put aside, and answers them, ascending. If
/// one of these is kept, that is the refusal. All that can fail comes before the first change.
pub fn sweep(alloc: Global, machine: &mut Machine, aside: &[CellId]) -> Result<Vec<CellId>, Fail>
    requires { IsSound machine.old }
    ensures { Sweeps machine.old aside.now result machine.new }
{
    let outlook = Outlook::of(alloc, machine, aside)?;
    let kept = Vec::with_capacity(alloc, machine.cells.len())?;
    let mut removed = Vec::with_capacity(alloc, machine.cells.len())?;
    let survey = Survey::read(machine, outlook, kept);
    if let Some(refusal) = survey.first_held(machine, aside) {
        return Err(Fail::Refused(refusal));
    }
    remove_unkept(machine, &survey, &mut removed);
    Ok(removed)
}
