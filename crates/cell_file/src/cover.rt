//! The fields that stand in a section, by where they begin.

ghost use Rattle.std.specs.Prelude.{◌≡◌, ℕ, ◌+◌, ◌<◌, ◌≤◌, ◌^◌, ◌||◌, ◌&&◌, ◌==◌, true, false, None, Some, Ok, OnOk, length, get_or};
ghost use Rattle.cell_file.specs.Cover.{clash as clash_of, hits as hits_of, field_of_mark, no_mark};
ghost use Rattle.cell_file.specs.Outcome.{Passes};

use crate::ReadFail;
use std::alloc::Global;

/// Where a field begins and how many bytes it has, and whether it may stand on another.
#[derive(Clone, Copy, Debug, PartialEq, Eq)]
pub struct Field {
    pub from: u32,
    pub width: u8,
    pub stacking: bool,
}

/// What begins at a place of a section: a field of a table, and whether that is the upper part of an address, a
/// PCREL_HI20 or GOT_HI20.
#[derive(Clone, Copy, Debug, PartialEq, Eq)]
pub struct Mark {
    pub table: u32,
    pub width: u8,
    pub stacking: bool,
    pub high: bool,
}

const NO_MARK: Mark = Mark {
    table: 0,
    width: 0,
    stacking: false,
    high: false,
};

/// The most bytes that a field has.
const WIDEST: u64 = 8;

/// Fields of one table, of which no two clash, each by where it begins; those that begin at one place
/// are alike. Marks of tables before stay, and count for nothing.
#[derive(Drop)]
pub struct Fields {
    /// One more than the number of the table's section.
    pub table: u32,
    pub marks: Vec<Mark>,
    ghost begun: { 1 ≤ table },
    ghost older: { (q : ℕ) → (get_or marks.items q no_mark).table ≤ table },
}

/// Whether a field shares a byte with the one that begins at a place, and may not.
fn clash(field: &Field, start: u64, mark: &Mark) -> bool
    requires { start < 2 ^ 40 }
    ensures { result ≡ clash_of field.now (field_of_mark start mark.now) }
{
    let from = u64::from(field.from);
    let shared = from < start + u64::from(mark.width) && start < from + u64::from(field.width);
    let stack = from == start && field.width == mark.width && field.stacking && mark.stacking;
    shared && !stack
}

impl Fields {
    ghost use Rattle.cell_file.specs.Fields.{field_at, high_at, mark_at};

    pub fn new(alloc: Global) -> Fields
        ensures { result.table ≡ 1 }
    {
        Fields {
            table: 1,
            marks: Vec::new(alloc),
        }
    }

    /// Begins with no field of the table of a section, for offsets below a length.
    pub fn begin(&mut self, number: u16, len: usize) -> Result<(), ReadFail>
        requires { self.old.table ≤ number }
        ensures memory { Passes result (Ok tt) }
        ensures table { OnOk result (self.new.table ≡ number + 1) }
        ensures room { OnOk result (len ≤ length self.new.marks.items) }
        ensures none { OnOk result ((q : ℕ) → field_at self.new q ≡ None) }
        ensures low { OnOk result ((q : ℕ) → high_at self.new q ≡ false) }
    {
        if self.marks.len() < len {
            self.marks.resize(len, NO_MARK)?;
        }
        self.table = u32::from(number) + 1;
        Ok(())
    }

    fn mark(&self, place: u64) -> Mark
        ensures { result ≡ mark_at self.now place }
    {
        match self.marks.get(place as usize) {
            Some(mark) => *mark,
            None => NO_MARK,
        }
    }

    /// Whether an upper part begins at a place.
    pub fn is_high(&self, place: u64) -> bool
        ensures { result ≡ high_at self.now place }
    {
        let mark = self.mark(place);
        mark.table == self.table && mark.high
    }

    /// Whether a field clashes with one that begins at a place.
    fn is_hit_at(&self, field: &Field, start: u64) -> bool
        requires { start < 2 ^ 40 }
        ensures { result ≡ hits_of field.now (field_at self.now start) }
    {
        let mark = self.mark(start);
        mark.table == self.table && clash(field, start, &mark)
    }

    /// Whether a field clashes with one that begins less than the most bytes before it, or in it.
    pub fn is_hit(&self, field: &Field) -> bool
        ensures found { result ≡ true → (q : ℕ) × (hits_of field.now (field_at self.now q) ≡ true) }
        ensures none { result ≡ false → (q : ℕ) → field.now.from < q + 8 → q < field.now.from + field.now.width → hits_of field.now (field_at self.now q) ≡ false }
    {
        let from = u64::from(field.from);
        let first = from.saturating_sub(WIDEST - 1);
        for start in first..from + u64::from(field.width) {
            if self.is_hit_at(field, start) {
                return true;
            }
        }
        false
    }

    /// Keeps a field, and whether it is an upper part.
    pub fn add(&mut self, field: Field, high: bool)
        requires { field.from < length self.old.marks.items }
        ensures table { self.new.table ≡ self.old.table }
        ensures room { length self.new.marks.items ≡ length self.old.marks.items }
        ensures here { field_at self.new field.from ≡ Some field }
        ensures others { (q : ℕ) → (field.from ≡ q → ⊥) → field_at self.new q ≡ field_at self.old q }
        ensures highs { (q : ℕ) → high_at self.new q ≡ (high_at self.old q || high && field.from == q) }
    {
        let high = high || self.is_high(u64::from(field.from));
        self.marks[field.from as usize] = Mark {
            table: self.table,
            width: field.width,
            stacking: field.stacking,
            high,
        };
    }
}
