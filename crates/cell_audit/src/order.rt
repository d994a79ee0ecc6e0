//! The order of the lines of a dump.

ghost use Rattle.std.specs.Prelude.{◌≡◌, ◌==◌, nat_lt, nat_le, ◌&&◌, true, if◌then◌else◌};
ghost use Rattle.cell_audit.specs.Following.{is_below, is_root, is_space, rank_of};
ghost use Rattle.cell_audit.specs.Known.{after_line, follows, is_of, naming_of, nothing, placing_of, stands};
ghost use Rattle.cell_num.specs.Limits.{max_cell_number, max_cells, max_namespaces};

use cell_num::{
    MAX_BASE, MAX_CELL_NUMBER, MAX_CELLS, MAX_NAMESPACES, MAX_PAGES, MIN_BASE, MIN_PAGES, Name,
    PAGE_SIZE,
};
use cell_world::DumpLine;

/// What is known of the lines so far, where each may stand behind those before it.
#[derive(Clone, Copy, Debug, PartialEq, Eq)]
pub struct Known {
    /// Whether there are any.
    pub begun: bool,
    /// The highest rank of one.
    pub rank: u8,
    /// How many are of namespaces.
    pub spaces: u32,
    /// How many are of cells.
    pub cells: u32,
    /// The highest number of a cell.
    pub highest: u64,
    /// The cell that the last line goes on with, if a place of it may follow.
    pub placing: Option<u64>,
    /// The same, if an alias of it may follow.
    pub naming: Option<u64>,
}

impl Known {
    /// What is known of no lines.
    pub fn nothing() -> Known
        ensures { result ≡ nothing }
    {
        Known {
            begun: false,
            rank: 0,
            spaces: 0,
            cells: 0,
            highest: 0,
            placing: None,
            naming: None,
        }
    }

    /// Whether the line may stand behind these.
    pub fn may_precede(&self, line: &DumpLine) -> bool
        ensures { result ≡ follows self.now line.now }
    {
        match line {
            DumpLine::Space { base, pages } => !self.begun && is_space(*base, *pages),
            DumpLine::Ns {
                number,
                name,
                parent,
            } => self.takes_namespace(*number, name, *parent),
            DumpLine::Cell { cell, ns, .. } => self.takes_cell(*cell, *ns),
            DumpLine::Place { cell, .. } => is_of(*cell, self.placing),
            DumpLine::Alias { cell, .. } => is_of(*cell, self.naming),
            DumpLine::Link { .. } => self.stands(3),
            DumpLine::Provider { ns, .. } => self.stands(4) && self.has_space(*ns),
            DumpLine::Content { .. } => self.stands(5),
            DumpLine::End => self.stands(6),
        }
    }

    /// Whether no line has a higher rank, and what lines of that rank need stands before.
    fn stands(&self, rank: u8) -> bool
        ensures { result ≡ stands self.now rank }
    {
        self.rank <= rank && self.has_needed(rank)
    }

    /// Whether what lines of that rank need stands before.
    fn has_needed(&self, rank: u8) -> bool
        ensures { result ≡ (if nat_le rank 1 then self.now.begun else nat_lt 0 self.now.spaces) }
    {
        if rank <= 1 {
            self.begun
        } else {
            self.spaces > 0
        }
    }

    fn has_space(&self, ns: u64) -> bool
        ensures { result ≡ nat_lt ns self.now.spaces }
    {
        ns < u64::from(self.spaces)
    }

    fn takes_namespace(&self, number: u64, name: &Name, parent: Option<u64>) -> bool
        ensures { result ≡ (stands self.now 1 && (number == self.now.spaces) && nat_lt number max_namespaces && (if number == 0 then is_root name.now parent else is_below number parent)) }
    {
        self.stands(1)
            && number == u64::from(self.spaces)
            && number < u64::from(MAX_NAMESPACES)
            && is_parent(number, name, parent)
    }

    fn takes_cell(&self, cell: u64, ns: u64) -> bool
        ensures { result ≡ (stands self.now 2 && nat_lt ns self.now.spaces && nat_le 1 cell && nat_le cell max_cell_number && nat_lt self.now.highest cell && nat_lt self.now.cells max_cells) }
    {
        self.stands(2)
            && self.has_space(ns)
            && cell >= 1
            && cell <= u64::from(MAX_CELL_NUMBER)
            && self.highest < cell
            && self.cells < MAX_CELLS
    }

    /// Goes on behind the line.
    pub fn add(&mut self, line: &DumpLine)
        requires { follows self.old line.now ≡ true }
        ensures { self.new ≡ after_line self.old line.now }
    {
        self.begun = true;
        self.rank = self.rank.max(rank(line));
        self.placing = placing(line);
        self.naming = naming(line);
        match line {
            DumpLine::Ns { .. } => self.spaces += 1,
            DumpLine::Cell { cell, .. } => {
                self.cells += 1;
                self.highest = self.highest.max(*cell);
            }
            _ => {}
        }
    }
}

/// Whether a memory may begin there and have so many pages.
fn is_space(base: u64, pages: u64) -> bool
    ensures { result ≡ is_space base pages }
{
    base % PAGE_SIZE == 0
        && base >= MIN_BASE
        && base <= MAX_BASE
        && pages >= u64::from(MIN_PAGES)
        && pages <= u64::from(MAX_PAGES)
}

/// Whether the namespace of that number may have the name and the parent.
fn is_parent(number: u64, name: &Name, parent: Option<u64>) -> bool
    ensures { result ≡ (if number == 0 then is_root name.now parent else is_below number parent) }
{
    if number == 0 {
        is_root(name, parent)
    } else {
        is_below(number, parent)
    }
}

/// Namespace 0 is `k`, which has no parent.
fn is_root(name: &Name, parent: Option<u64>) -> bool
    ensures { result ≡ is_root name.now parent }
{
    name.bytes() == b"k".as_slice() && parent.is_none()
}

/// Every other one has a parent of a lower number.
fn is_below(number: u64, parent: Option<u64>) -> bool
    ensures { result ≡ is_below number parent }
{
    match parent {
        Some(parent) => parent < number,
        None => false,
    }
}

fn is_of(cell: u64, last: Option<u64>) -> bool
    ensures { result ≡ is_of cell last }
{
    match last {
        Some(last) => last == cell,
        None => false,
    }
}

/// Lines of a lower rank stand before those of a higher one.
fn rank(line: &DumpLine) -> u8
    ensures { result ≡ rank_of line.now }
{
    match line {
        DumpLine::Space { .. } => 0,
        DumpLine::Ns { .. } => 1,
        DumpLine::Cell { .. } | DumpLine::Place { .. } | DumpLine::Alias { .. } => 2,
        DumpLine::Link { .. } => 3,
        DumpLine::Provider { .. } => 4,
        DumpLine::Content { .. } => 5,
        DumpLine::End => 6,
    }
}

/// The cell that a place may follow of, behind the line.
fn placing(line: &DumpLine) -> Option<u64>
    ensures { result ≡ placing_of line.now }
{
    match line {
        DumpLine::Cell { cell, .. } | DumpLine::Place { cell, .. } => Some(*cell),
        _ => None,
    }
}

/// The cell that an alias may follow of, behind the line.
fn naming(line: &DumpLine) -> Option<u64>
    ensures { result ≡ naming_of line.now }
{
    match line {
        DumpLine::Cell { cell, .. } | DumpLine::Place { cell, .. } | DumpLine::Alias { cell, .. } =>
            Some(*cell),
        _ => None,
    }
}
