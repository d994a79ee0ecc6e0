//! The parts of the machine.

ghost use Rattle.std.specs.Prelude.{◌≡◌, IfOk};
ghost use Rattle.cell_machine.specs.Machine.{IsSound, world_of};
ghost use Rattle.cell_world.specs.Placed.Pages.{IsSpace};
ghost use Rattle.cell_world.specs.World.{empty_world};

use cell_graph::Graph;
use cell_mem::Memory;
use cell_num::CellId;
use cell_place::Space;
use cell_space::Spaces;
use cell_task::Tasks;
use cell_world::NewCell;
use std::alloc::{AllocError, Global};

/// The present cells, and the parts of the machine that they are in.
#[derive(Drop)]
pub struct Machine {
    /// In the order of their numbers.
    pub cells: Vec<NewCell>,
    /// Those that have a WEAK symbol, in this order too.
    pub soft: Vec<CellId>,
    /// The number of the next cell.
    pub next: u32,
    /// How many swaps were accepted.
    pub swaps: u32,
    /// What the cells are called, and which of them are attached.
    pub spaces: Spaces,
    /// Which pages are free.
    pub space: Space,
    pub memory: Memory,
    pub graph: Graph,
    /// The live tasks.
    pub tasks: Tasks,
}

impl Machine {
    /// A machine without a cell.
    pub fn new(alloc: Global, base: u64, pages: u32) -> Result<Machine, AllocError>
        requires { IsSpace base pages }
        ensures sound { IfOk result IsSound }
        ensures empty { IfOk result (λ m. world_of m ≡ empty_world base pages) }
        ensures patches { IfOk result (λ m. m.memory.patches ≡ 0) }
        ensures maps { IfOk result (λ m. m.memory.maps ≡ 0) }
    {
        Ok(Machine {
            cells: Vec::new(alloc),
            soft: Vec::new(alloc),
            next: 1,
            swaps: 0,
            spaces: Spaces::new(alloc)?,
            space: Space::new(alloc, base, pages)?,
            memory: Memory::new(alloc, base, pages)?,
            graph: Graph::new(alloc),
            tasks: Tasks::new(alloc),
        })
    }
}
