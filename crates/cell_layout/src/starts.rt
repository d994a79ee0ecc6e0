//! The runs of the classes of a new cell, and one of a number of pages.

ghost use Rattle.std.specs.Prelude.{◌≡◌, ◌<◌, ◌≤◌, ◌^◌, ◌+◌, IfOk};
ghost use Rattle.cell_layout.specs.Layout.{IsSmall, AreSmall};
ghost use Rattle.cell_layout.specs.Placing.{pages_by, FindsExtra, TakesPages, TakesRun, TakesRuns};

use crate::layout::Ends;
use cell_num::PAGE_SIZE;
use cell_place::{NoRun, Space};
use cell_world::Starts;

/// The pages of a run whose sections end there: at least one.
fn pages_for(end: u64) -> u32
    requires { end < 2 ^ 42 }
    ensures pages { result ≡ pages_by end }
    ensures some { 0 < result }
{
    end.div_ceil(PAGE_SIZE).max(1) as u32
}

/// Takes the lowest free run of so many pages, and tells where it starts.
fn take_pages(space: &mut Space, pages: u32) -> Result<u64, NoRun>
    requires { 1 ≤ pages }
    ensures run { TakesPages space.old pages result space.new }
    ensures small { IfOk result (λ start. start < 2 ^ 60) }
{
    let run = space.take(pages)?;
    Ok(space.address_of(run))
}

/// Takes the run of a class whose sections end there; a class without a section takes none.
fn take_run(space: &mut Space, end: Option<u64>) -> Result<u64, NoRun>
    requires { IsSmall end }
    ensures run { TakesRun space.old end result space.new }
    ensures small { IfOk result (λ start. start < 2 ^ 60) }
{
    match end {
        None => Ok(0),
        Some(end) => take_pages(space, pages_for(end)),
    }
}

/// Takes the runs of the classes: text, read-only, writable.
pub fn take_runs(space: &mut Space, ends: &Ends) -> Result<Starts, NoRun>
    requires { AreSmall ends.now }
    ensures runs { TakesRuns space.old ends.now result space.new }
    ensures small { IfOk result (λ starts. (starts.text < 2 ^ 60) × (starts.read_only < 2 ^ 60) × (starts.writable < 2 ^ 60)) }
{
    let text = take_run(space, ends.text)?;
    let read_only = take_run(space, ends.read_only)?;
    let writable = take_run(space, ends.writable)?;
    Ok(Starts {
        text,
        read_only,
        writable,
    })
}

/// Where the lowest free run of so many pages starts, which stays free; of no pages there is none.
pub fn find_extra(space: &Space, pages: u32) -> Result<Option<u64>, NoRun>
    ensures { FindsExtra space.now pages result }
{
    if pages == 0 {
        return Ok(None);
    }
    let run = space.find(pages)?;
    Ok(Some(space.address_of(run)))
}
