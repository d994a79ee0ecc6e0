//! The pages of the space.

ghost use Rattle.std.specs.Prelude.{◌≡◌, ◌+◌, ◌*◌, ◌≤◌, ◌<◌, ◌^◌, false, true, length, replicate, IfOk, OnErr};
ghost use Rattle.cell_num.specs.Limits.{page_size};
ghost use Rattle.cell_world.specs.Placed.Pages.{IsSpace, is_taken_run, filled};
ghost use Rattle.cell_place.specs.Runs.{run_of};

use crate::search::{NoRun, Run, search};
use cell_num::PAGE_SIZE;
use std::alloc::{AllocError, Global};
use std::marker::Model;

/// The page table: the address of the first page, and which pages are taken. No page below `first` is
/// free. Contracts see a record of base and pages. Namespaces are `Spaces` of `cell_space`.
#[derive(Drop)]
pub struct Space {
    base: u64,
    taken: Vec<bool>,
    first: u32,
}

impl Model for Space {
    ghost use Rattle.std.specs.Prelude.{◌≤◌, length};
    ghost use Rattle.cell_world.specs.Placed.Pages.{IsSpace};
    ghost use Rattle.cell_place.specs.Runs.{AreTakenBefore};
    ghost use Rattle.cell_place.specs.Space.{SpaceState};

    ghost Value = { SpaceState };

    ghost view = { λ s. record { base = s.base; taken = s.taken.items } };

    ghost invariant = { λ s. IsSpace s.base (length s.taken.items) × (s.first ≤ length s.taken.items) × AreTakenBefore s.taken.items s.first };
}

/// Marks the pages of a run as taken or free.
fn fill(taken: &mut [bool], run: Run, value: bool)
    requires { 1 ≤ run.count → run.page + run.count ≤ length taken.old }
    ensures { taken.new ≡ filled taken.old run.page run.count value }
{
    let first = run.page as usize;
    for i in 0..run.count as usize {
        taken[first + i] = value;
    }
}

impl Space {
    ghost use Rattle.cell_place.specs.Space.{SpaceState, with_run};

    /// A space with all its pages free.
    pub fn new(alloc: Global, base: u64, pages: u32) -> Result<Space, AllocError>
        requires { IsSpace base pages }
        ensures { IfOk result (λ s. s ≡ record { base = base; taken = replicate pages false }) }
    {
        let mut taken = Vec::with_capacity(alloc, pages as usize)?;
        for _ in 0..pages {
            taken.push(false)?;
        }
        Ok(Space {
            base,
            taken,
            first: 0,
        })
    }

    /// The address of the first page.
    pub fn base(&self) -> u64
        ensures { result ≡ self.now.base }
    {
        self.base
    }

    /// How many pages there are, free or taken.
    pub fn pages(&self) -> u32
        ensures { result ≡ length self.now.taken }
    {
        self.taken.len() as u32
    }

    /// The address of a run's first byte.
    pub fn address_of(&self, run: Run) -> u64
        ensures address { result ≡ self.now.base + page_size * run.page }
        ensures low { result < 2 ^ 45 }
    {
        self.base + PAGE_SIZE * u64::from(run.page)
    }

    /// The lowest free run of so many pages, which stays free.
    pub fn find(&self, count: u32) -> Result<Run, NoRun>
        requires { 1 ≤ count }
        ensures { result ≡ run_of self.now.taken count }
    {
        search(&self.taken, self.first, count)
    }

    /// Takes the lowest free run of so many pages.
    pub fn take(&mut self, count: u32) -> Result<Run, NoRun>
        requires { 1 ≤ count }
        ensures answer { result ≡ run_of self.old.taken count }
        ensures taken { IfOk result (λ run. self.new ≡ with_run self.old run true) }
        ensures refused { OnErr result (self.new ≡ self.old) }
    {
        let run = search(&self.taken, self.first, count)?;
        fill(&mut self.taken, run, true);
        if run.page == self.first {
            self.first += count;
        }
        Ok(run)
    }

    /// Gives the pages of a run back.
    pub fn give(&mut self, run: Run)
        requires { is_taken_run self.old.taken run.page run.count ≡ true }
        ensures { self.new ≡ with_run self.old run false }
    {
        fill(&mut self.taken, run, false);
        self.first = self.first.min(run.page);
    }

    /// An equal space.
    pub fn copy(&self, alloc: Global) -> Result<Space, AllocError>
        ensures { IfOk result (λ s. s ≡ self.now) }
    {
        Ok(Space {
            base: self.base,
            taken: self.taken.to_vec(alloc)?,
            first: self.first,
        })
    }
}
