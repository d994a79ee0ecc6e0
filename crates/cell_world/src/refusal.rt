//! Refusals.

use cell_num::{Cause, CellId, Holder, Name, RelKind, Why};

/// What there may be only so much of.
#[derive(Clone, Copy, Debug, PartialEq, Eq)]
pub enum Many {
    Namespaces,
    Cells,
    CellNumbers,
    Tasks,
    TaskNumbers,
}

/// Why a command was not done, by the numbers that the transcript has.
#[derive(Drop)]
pub enum Refusal {
    /// E1: the word names nothing.
    Unknown {
        word: Name,
    },
    /// E2: there is a namespace of that name.
    NameTaken {
        word: Name,
    },
    /// E3: the task faulted, for this cause at this pc.
    NotRunnable {
        task: u32,
        cause: Cause,
        pc: u64,
    },
    /// E4: one more of the kind would pass its limit.
    TooMany {
        kind: Many,
        limit: u32,
    },
    /// E5: the namespace has no file of the stem.
    NoObject {
        stem: Name,
    },
    /// E6: the namespace has two or more files of the stem, the first two of them by name.
    Ambiguous {
        one: Name,
        two: Name,
    },
    /// E7: the first rule that the object file breaks, and the file offset that shows it.
    BadObject {
        file: Name,
        rule: u8,
        at: u64,
    },
    /// E8: the lowest cell that has the stem or the name already.
    Duplicate {
        name: Name,
        holder: CellId,
    },
    /// E9: the cell needs a name that nobody provides and no file brings.
    Missing {
        name: Name,
        needed_by: CellId,
    },
    /// E10: no task can begin where the name is, or nobody provides it.
    NoEntry {
        name: Name,
    },
    /// E11: so many pages in a row are wanted, and that many are free in the longest row.
    Exhausted {
        wanted: u32,
        largest: u32,
    },
    /// E12: the number of the entry at that place is outside its kind's range.
    Overflow {
        cell: CellId,
        section: u16,
        offset: u32,
        kind: RelKind,
    },
    /// E13: the task stands inside what the field at that place is a part of.
    Torn {
        task: u32,
        cell: CellId,
        section: u16,
        offset: u32,
    },
    /// E14: the transfer routine of that name didn't end with the code 0.
    Transfer {
        name: Name,
        why: Why,
    },
    /// E15: the cell has to stay, by that holder.
    Held {
        cell: CellId,
        holder: Holder,
    },
    /// E16: the task is ready, so there is nothing to recover from.
    NotFaulted {
        task: u32,
    },
    /// E17: no attached cell is there to be renewed for the task, which faulted at that pc.
    NoCrate {
        task: u32,
        pc: u64,
    },
    /// E18: the namespace of that name has no parent, so it has no sibling.
    NoParent {
        word: Name,
    },
}
