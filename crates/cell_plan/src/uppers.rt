//! The HI20 entries of an object.

ghost use Rattle.std.specs.Prelude.{◌≡◌, ◌==◌, ◌&&◌, ◌||◌, ℕ, IfOk, OnOk, List, Option, filter, fold, option_map, Some, None};
ghost use Rattle.std.specs.BTreeSet.{contains};
ghost use Rattle.cell_object.specs.declared.object.Entry.{Entry as SomeEntry};
ghost use Rattle.cell_link.specs.Applied.{spot_of};
ghost use Rattle.cell_world.specs.Torn.{is_low as low, is_high as high, may_be_high_of, later_of};
ghost use Rattle.cell_plan.specs.Uppers.{IsUppers, Row, is_row, row_at as row, row_cmp};

use cell_num::RelKind;
use cell_object::Entry;
use std::alloc::{AllocError, Global};
use std::collections::BTreeSet;

/// The HI20 entries by section, symbol, addend and offset.
#[derive(Drop)]
pub struct Uppers<'a> {
    pub entries: &'a [Entry],
    rows: BTreeSet<(u16, u32, i64, u32)>,
    ghost are: { IsUppers entries.now rows },
}

pub fn is_low(kind: RelKind) -> bool
    ensures { result ≡ low kind }
{
    matches!(kind, RelKind::Lo12I | RelKind::Lo12S)
}

fn is_high(kind: RelKind) -> bool
    ensures { result ≡ high kind }
{
    matches!(kind, RelKind::Hi20)
}

/// A row with an entry's section, symbol and addend.
fn row_at(entry: &Entry, offset: u32) -> (u16, u32, i64, u32)
    ensures { result ≡ row entry.now offset }
{
    (entry.section, entry.symbol, entry.addend, offset)
}

/// Keeps an entry, where it is a HI20 entry.
fn insert_row(rows: &mut BTreeSet<(u16, u32, i64, u32)>, entry: &Entry) -> Result<(), AllocError>
    ensures { OnOk result ((q : Row) → contains row_cmp rows.new q ≡ (contains row_cmp rows.old q || is_row q entry.now)) }
{
    if is_high(entry.kind) {
        rows.insert(row_at(entry, entry.offset))?;
    }
    Ok(())
}

fn rows_of(alloc: Global, entries: &[Entry]) -> Result<BTreeSet<(u16, u32, i64, u32)>, AllocError>
    ensures { IfOk result (λ rows. IsUppers entries.now rows) }
{
    let mut rows = BTreeSet::new(alloc);
    for index in 0..entries.len() {
        insert_row(&mut rows, &entries[index])?;
    }
    Ok(rows)
}

impl<'a> Uppers<'a> {
    pub fn of(alloc: Global, entries: &'a [Entry]) -> Result<Uppers<'a>, AllocError>
        ensures { IfOk result (λ uppers. uppers.entries.now ≡ entries.now) }
    {
        let rows = rows_of(alloc, entries)?;
        Ok(Uppers { entries, rows })
    }

    /// Where the last HI20 entry is that a LO12 entry may go with: before it in its section, with its
    /// symbol and addend.
    pub fn latest(&self, low: &Entry) -> Option<(u16, u64)>
        ensures { result ≡ option_map spot_of (fold later_of None (filter (may_be_high_of low.now) self.now.entries.now)) }
    {
        let from = row_at(low, 0);
        let to = row_at(low, low.offset);
        let upper = self.rows.range(from..to).next_back()?;
        Some((low.section, u64::from(upper.3)))
    }
}
