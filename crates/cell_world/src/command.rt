//! Commands.

use cell_num::{Listed, Name};

/// An attached cell, by its namespace and stem.
#[derive(Drop)]
pub struct CellName {
    pub ns: Name,
    pub stem: Name,
}

/// An attached cell, and the file of the cell that comes in its place.
#[derive(Drop)]
pub struct SwapItem {
    pub ns: Name,
    pub stem: Name,
    pub file: Name,
}

/// What the machine is told to do.
#[derive(Drop)]
pub enum Command {
    /// Add a namespace under another one.
    Ns {
        name: Name,
        parent: Name,
    },
    /// Load the crate of a stem from a namespace's files.
    Load {
        ns: Name,
        stem: Name,
    },
    /// Start a task where the provider of a name has it, with an argument.
    Spawn {
        ns: Name,
        symbol: Name,
        arg: u64,
    },
    /// Give a task at most so many turns.
    Step {
        task: u32,
        turns: u32,
    },
    /// Give each ready task at most so many turns, up to where it yields.
    Run {
        turns: u32,
    },
    /// End a task.
    Kill {
        task: u32,
    },
    /// Put cells of these files in the place of attached ones, where wanted under the old names too, and let the
    /// routines of these names run within so many turns. A strict swap leaves no old cell.
    Swap {
        items: Listed<SwapItem>,
        reexport: bool,
        strict: bool,
        routines: Listed<Name>,
        budget: u32,
    },
    /// Remove cells that nobody keeps.
    Unload {
        cells: Listed<CellName>,
    },
    /// Remove the cells that were put aside and that nobody keeps.
    Purge,
    /// Show all live tasks.
    Tasks,
    /// Show which section provides a name for a namespace.
    Find {
        ns: Name,
        symbol: Name,
    },
    /// Show the links of a cell.
    Deps {
        cell: u32,
    },
    /// Show the links into a cell.
    Users {
        cell: u32,
    },
    /// Show all cells with their sections.
    Map,
    /// Show the bytes of a section of a cell.
    Dump {
        cell: u32,
        section: u32,
    },
    /// Show the whole machine.
    DumpAll,
    /// Renew the cell that a faulted task stands in, and begin the task again.
    Recover {
        task: u32,
    },
    /// Renew every attached cell that a faulted task holds, and begin the task again.
    Rebuild {
        task: u32,
    },
    /// Add a namespace beside another one, with a copy of each cell that is attached there.
    Clone {
        ns: Name,
        name: Name,
    },
}
