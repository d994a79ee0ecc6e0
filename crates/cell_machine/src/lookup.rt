//! What is found in the machine, without a copy of anything.

ghost use Rattle.std.specs.Prelude.{◌≡◌, ◌<◌, length, option_and_then, option_map};
ghost use Rattle.cell_machine.specs.Machine.{IsSound, world_of};
ghost use Rattle.cell_num.specs.Lists.{In};
ghost use Rattle.cell_world.specs.Commands.MapCommand.{group_of};
ghost use Rattle.cell_space.specs.Joined.{placed_of};
ghost use Rattle.cell_world.specs.Names.{attached_provider};
ghost use Rattle.cell_world.specs.Linked.Target.{provided_target};
ghost use Rattle.cell_world.specs.World.{Cell, cell_of};

use crate::Machine;
use cell_placed::{cell_numbered, target_in};
use cell_space::Scope;
use cell_world::{NewCell, Standing, Target};

impl Machine {
    /// The present cell of that number.
    pub fn cell(&self, number: u32) -> Option<&NewCell>
        requires { IsSound self.now }
        ensures { option_map (λ c. c.now) result ≡ option_map placed_of (cell_of (world_of self.now) number) }
    {
        cell_numbered(&self.cells, number)
    }

    /// Where the provider of a name for a namespace has it.
    pub fn provided(&self, ns: u16, name: &[u8]) -> Option<Target>
        requires sound { IsSound self.now }
        requires there { ns < length self.now.spaces.namespaces }
        ensures { result ≡ option_and_then (provided_target (world_of self.now)) (attached_provider (world_of self.now) ns name.now) }
    {
        let provider = self.spaces.provider(Scope::Space(ns), name)?;
        let cell = self.cell(provider.cell.0)?;
        target_in(cell, provider.symbol)
    }

    /// The swap that put the cell aside, if it isn't attached.
    pub fn group(&self, cell: &NewCell) -> Option<u32>
        requires sound { IsSound self.now }
        requires there { In cell.now self.now.cells.items }
        ensures { (c : Cell) → In c (world_of self.now).cells → c.placed ≡ cell.now → result ≡ group_of c.standing }
    {
        match self.spaces.state(cell.id) {
            Standing::Attached => None,
            Standing::Detached(swap) => Some(swap),
        }
    }
}
