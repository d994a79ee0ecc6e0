//! The machine that the program runs on.

ghost use Rattle.std.specs.Prelude.{◌≡◌, true, is_some, None, Some};
ghost use Rattle.cell_run.specs.Machine.{first_state};
ghost use Rattle.cell_run.specs.Shelf.{ActsOn, shelf_tells};

use crate::machine::Machine;
use cell_system::{Command, Fail, File, Reply, System};
use std::alloc::{AllocError, Global};

/// A system, once one is started.
#[derive(Drop)]
pub struct Shelf {
    pub system: Option<System>,
}

impl Shelf {
    /// Without a system.
    pub fn new() -> Shelf
        ensures { result.system ≡ None }
    {
        Shelf { system: None }
    }
}

impl Machine for Shelf {
    ghost tells = { true };

    ghost told = { λ shelf. shelf.system };

    ghost is_started = { λ shelf. is_some shelf.system };

    ghost begun = { λ old base pages files new. new.system ≡ Some (first_state base pages files) };

    ghost acts = { λ old command answer new. ActsOn old.system command answer new.system };

    ghost begins_empty = { λ _ old new base pages files begun. begun };

    ghost acts_plainly = { λ _ old new command answer s. shelf_tells old.system new.system command answer s };

    fn start(
        &mut self,
        alloc: Global,
        base: u64,
        pages: u32,
        files: Vec<File>,
    ) -> Result<(), AllocError> {
        self.system = Some(System::new(alloc, base, pages, files)?);
        Ok(())
    }

    fn act(&mut self, command: &Command) -> Result<Reply, Fail> {
        let Some(system) = &mut self.system else {
            unreachable!();
        };
        let answer = system.do_command(command);
        system.coherent();
        answer
    }
}
