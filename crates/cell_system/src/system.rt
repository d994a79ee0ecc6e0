//! The system.

ghost use Rattle.std.specs.Prelude.{◌≡◌, ◌≤◌, IfOk, All, length, map, true};
ghost use Rattle.std.specs.List.{list_all};
ghost use Rattle.cell_num.specs.Limits.{max_file_bytes, max_files};
ghost use Rattle.cell_depot.specs.Files.{are_apart};
ghost use Rattle.cell_script.specs.Script.{is_said};
ghost use Rattle.cell_depot.specs.ObjectName.{is_object_name};
ghost use Rattle.cell_world.specs.Coherent.{IsCoherent};
ghost use Rattle.cell_world.specs.Gather.{source_of};
ghost use Rattle.cell_world.specs.Placed.Pages.{IsSpace};
ghost use Rattle.cell_world.specs.World.{empty_world};
ghost use Rattle.cell_world.specs.Running.Undo.{AreBytes};
ghost use Rattle.cell_origin_law.specs.Readings.{AreRead};
ghost use Rattle.cell_origin_law.specs.Spelled.{IsSpelled};
ghost use Rattle.cell_system.specs.Step.{IsStep};

use crate::Fail;
use crate::answer::answer;
use cell_depot::Depot;
use cell_machine::Machine;
use cell_world::{Command, File, Reply};
use std::alloc::{AllocError, Global};
use std::marker::Model;

/// The object files, and the cells and tasks in memory.
#[derive(Drop)]
pub struct System {
    alloc: Global,
    depot: Depot,
    machine: Machine,
}

impl Model for System {
    ghost use Rattle.std.specs.Prelude.{All, ◌≡◌, ◌≤◌, length, map, true};
    ghost use Rattle.cell_depot.specs.Files.{are_apart};
    ghost use Rattle.cell_machine.specs.Machine.{IsSound, world_of};
    ghost use Rattle.cell_num.specs.Limits.{max_file_bytes};
    ghost use Rattle.cell_world.specs.Gather.{source_of};
    ghost use Rattle.cell_origin_law.specs.Readings.{AreRead};
    ghost use Rattle.cell_origin_law.specs.Spelled.{AreNamed, IsSpelled};
    ghost use Rattle.cell_system.specs.State.{State};
    ghost use Rattle.cell_system.specs.Step.{state_of};

    ghost Value = { State };

    ghost view = { λ s. state_of s.depot s.machine };

    ghost invariant = { λ s. IsSound s.machine × AreRead (map source_of s.depot) (world_of s.machine) × All (λ f. length f.bytes ≤ max_file_bytes) s.depot × (are_apart s.depot ≡ true) × IsSpelled (world_of s.machine) × AreNamed (map source_of s.depot) };
}

impl System {
    /// A machine without a cell, whose memory is `pages` pages of 4096 bytes from `base` on.
    pub fn new(alloc: Global, base: u64, pages: u32, files: Vec<File>) -> Result<System, AllocError>
        requires space { IsSpace base pages }
        requires few { length files.items ≤ max_files }
        requires small { All (λ f. length f.bytes ≤ max_file_bytes) files.items }
        requires named { list_all (λ f. is_object_name f.name) files.items ≡ true }
        requires apart { are_apart files.items ≡ true }
        ensures { IfOk result (λ s. s ≡ record { files = files.items; machine = record { world = empty_world base pages; patches = 0; maps = 0 } }) }
    {
        Ok(System {
            alloc,
            depot: Depot::of_files(alloc, files)?,
            machine: Machine::new(alloc, base, pages)?,
        })
    }

    /// Between any two commands the machine is coherent, the object of each cell is the reading of its file, all names are
    /// spelled as such, and what the memory holds are bytes.
    /// A turn keeps it coherent, by the law `turn_keeps_coherent` of `cell_laws`: it is so after each turn inside
    /// a command too.
    pub fn coherent(&self)
        ensures coherent { IsCoherent self.now.machine.world }
        ensures read { AreRead (map source_of self.now.files) self.now.machine.world }
        ensures spelled { IsSpelled self.now.machine.world }
        ensures bytes { AreBytes self.now.machine.world.regions }
    {
        self.machine.memory.holds_bytes();
    }

    /// Does a command that a line of a script can say, which are all but a swap of no cell.
    pub fn do_command(&mut self, command: &Command) -> Result<Reply, Fail>
        requires { is_said command.now ≡ true }
        ensures { IsStep self.old command.now result self.new }
    {
        answer(self.alloc, &self.depot, &mut self.machine, command)
    }
}
