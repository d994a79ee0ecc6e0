//! Replies.

use crate::line::DumpLine;
use cell_num::{Bytes, Cause, CellId, Listed, Name, RelKind, SecKey};

/// A place in a section, and its address.
#[derive(Clone, Copy, Debug, PartialEq, Eq)]
pub struct Found {
    pub key: SecKey,
    pub offset: u64,
    pub addr: u64,
}

/// Where a section stands, and what it may be used for.
#[derive(Clone, Copy, Debug, PartialEq, Eq)]
pub struct MapSection {
    pub section: u16,
    pub write: bool,
    pub exec: bool,
    pub start: u64,
    pub size: u32,
}

/// A cell as `map` shows it: attached, or put aside by the swap of that number.
#[derive(Drop)]
pub struct MapCell {
    pub cell: CellId,
    pub ns: Name,
    pub stem: Name,
    pub file: Name,
    pub group: Option<u32>,
    pub sections: Listed<MapSection>,
}

/// How a task stands after its turns.
#[derive(Clone, Copy, Debug, PartialEq, Eq)]
pub enum TaskState {
    Ready,
    /// It ended with this code.
    Done(u64),
    /// The turn at this pc was its last.
    Fault(Cause, u64),
}

/// What a task did in one command: how many turns it took, how it stands, and what it put out.
#[derive(Drop)]
pub struct TaskRun {
    pub task: u32,
    pub turns: u32,
    pub state: TaskState,
    pub out: Bytes,
}

/// A live task as `tasks` shows it.
#[derive(Clone, Copy, Debug, PartialEq, Eq)]
pub struct TaskLine {
    pub task: u32,
    pub root: CellId,
    pub pc: u64,
    pub fault: Option<Cause>,
}

/// A link as `deps` and `users` show it: the field of its entry, the entry's kind, and the section.
#[derive(Clone, Copy, Debug, PartialEq, Eq)]
pub struct LinkLine {
    pub user: SecKey,
    pub offset: u32,
    pub kind: RelKind,
    pub target: SecKey,
}

/// What a command that was done answers.
#[derive(Drop)]
pub enum Reply {
    /// The new namespace.
    Ns {
        name: Name,
    },
    /// The new cells, and how many fields were patched.
    Load {
        fresh: Listed<CellId>,
        patched: u32,
    },
    /// The new task, and where it begins.
    Spawn {
        task: u32,
        pc: u64,
    },
    /// What the task did.
    Step {
        run: TaskRun,
    },
    /// What each task did that was ready.
    Run {
        runs: Listed<TaskRun>,
    },
    Kill {
        task: u32,
    },
    /// The swap's number, the new cells, how many fields were patched, the cells that were removed, and those that are put aside and stay.
    Swap {
        number: u32,
        fresh: Listed<CellId>,
        patched: u32,
        removed: Listed<CellId>,
        kept: Listed<CellId>,
    },
    /// The cells that were removed.
    Unload {
        removed: Listed<CellId>,
    },
    Purge {
        removed: Listed<CellId>,
    },
    /// All live tasks.
    Tasks {
        tasks: Listed<TaskLine>,
    },
    /// Where the provider of the name has it.
    Find {
        found: Option<Found>,
    },
    /// The links of the cell.
    Deps {
        cell: CellId,
        links: Listed<LinkLine>,
    },
    /// The links into the cell.
    Users {
        cell: CellId,
        links: Listed<LinkLine>,
    },
    /// All cells.
    Map {
        cells: Listed<MapCell>,
    },
    /// The section's start and its bytes.
    Dump {
        key: SecKey,
        start: u64,
        bytes: Bytes,
    },
    /// What the whole machine is, line by line.
    DumpAll {
        lines: Listed<DumpLine>,
    },
    /// The task that begins again, and the swap as `Swap` has it.
    Recover {
        task: u32,
        number: u32,
        fresh: Listed<CellId>,
        patched: u32,
        removed: Listed<CellId>,
        kept: Listed<CellId>,
    },
    /// The same, of all cells that the task held.
    Rebuild {
        task: u32,
        number: u32,
        fresh: Listed<CellId>,
        patched: u32,
        removed: Listed<CellId>,
        kept: Listed<CellId>,
    },
    /// The new namespace, the new cells, and how many fields were patched.
    Clone {
        name: Name,
        fresh: Listed<CellId>,
        patched: u32,
    },
}
