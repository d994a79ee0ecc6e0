//! The lines of a dump of the whole machine.

use cell_num::{Bytes, Name};

/// A section, by its cell and its number there.
#[derive(Clone, Copy, Debug, PartialEq, Eq)]
pub struct Part {
    pub cell: u64,
    pub section: u64,
}

/// A line of a dump.
#[derive(Drop)]
pub enum DumpLine {
    Space {
        base: u64,
        pages: u64,
    },
    /// A namespace, and the number of its parent.
    Ns {
        number: u64,
        name: Name,
        parent: Option<u64>,
    },
    /// A cell that is attached, or put aside by the swap of that number.
    Cell {
        cell: u64,
        ns: u64,
        stem: Name,
        file: Name,
        group: Option<u64>,
    },
    /// Where a section of the cell above stands.
    Place {
        cell: u64,
        section: u64,
        start: u64,
    },
    /// A further name of the cell above, for the symbol at that place of its object, from 0.
    Alias {
        cell: u64,
        symbol: u64,
        name: Name,
    },
    /// The section that an entry names, the entry by its place in the table from 0.
    Link {
        user: Part,
        entry: u64,
        target: Part,
    },
    /// Where the provider of a name has it, for a namespace.
    Provider {
        ns: u64,
        name: Name,
        at: Part,
        offset: u64,
    },
    /// Bytes of a section, from an address on.
    Content {
        at: Part,
        addr: u64,
        bytes: Bytes,
    },
    End,
}
