//! The last low entry that goes with each high one.

ghost use Rattle.std.specs.Prelude.{◌≡◌, ◌<◌, ◌+◌, ◌^◌, ℕ, IfOk, OnOk, max, unwrap_or};
ghost use Rattle.std.specs.BTreeMap.{get};
ghost use Rattle.cell_link.specs.Tables.{spot_cmp};
ghost use Rattle.cell_placed.specs.Low.{IsLow};
ghost use Rattle.cell_world.specs.Torn.{last_low};
ghost use Rattle.cell_plan.specs.Lasts.{IsLasts, IsLastAfter, may_go as may_go_with_a_high};
ghost use Rattle.std.specs.List.{list_any};

use crate::partners::Partners;
use crate::places::place_of;
use crate::uppers::is_low;
use cell_link::spot;
use cell_num::is_pcrel_lo12;
use cell_object::Entry;
use cell_world::NewCell;
use std::alloc::{AllocError, Global};
use std::collections::BTreeMap;

/// The greatest address of the low entries that go with the high ones at a section and an offset.
#[derive(Drop)]
pub struct Lasts<'a> {
    pub cell: &'a NewCell,
    ends: BTreeMap<(u16, u64), u64>,
    ghost are: { IsLasts cell.now cell.now.object.entries ends },
}

fn end_at(ends: &BTreeMap<(u16, u64), u64>, place: (u16, u64)) -> u64
    ensures { result ≡ unwrap_or (get spot_cmp ends.now place) 0 }
{
    ends.get(&place).copied().unwrap_or(0)
}

/// Takes an entry in, where it goes with a high one.
fn take_in(
    ends: &mut BTreeMap<(u16, u64), u64>,
    cell: &NewCell,
    partners: &Partners,
    entry: &Entry,
) -> Result<(), AllocError>
    requires low { IsLow cell.now }
    requires same { partners.now.highs.object.now ≡ cell.now.object }
    ensures { OnOk result (IsLastAfter cell.now entry.now ends.old ends.new) }
{
    let Some(high) = partners.partner(entry) else {
        return Ok(());
    };
    let end = end_at(ends, high).max(place_of(cell, entry));
    ends.insert(high, end)?;
    Ok(())
}

fn ends_with(
    alloc: Global,
    cell: &NewCell,
    partners: &Partners,
) -> Result<BTreeMap<(u16, u64), u64>, AllocError>
    requires low { IsLow cell.now }
    requires same { partners.now.highs.object.now ≡ cell.now.object }
    ensures { IfOk result (λ ends. IsLasts cell.now cell.now.object.entries ends) }
{
    let mut ends = BTreeMap::new(alloc);
    let entries = cell.object.entries.as_slice();
    for index in 0..entries.len() {
        take_in(&mut ends, cell, partners, &entries[index])?;
    }
    Ok(ends)
}

/// Whether the entry is a low one, which may go with a high one.
fn may_go(entry: &Entry) -> bool
    ensures { result ≡ may_go_with_a_high entry.now }
{
    is_pcrel_lo12(entry.kind) || is_low(entry.kind)
}

fn any_may_go(entries: &[Entry]) -> bool
    ensures { result ≡ list_any may_go_with_a_high entries.now }
{
    entries.iter().any(|entry| may_go(entry))
}

/// Takes no memory where the cell has no low entries.
fn ends_of(alloc: Global, cell: &NewCell) -> Result<BTreeMap<(u16, u64), u64>, AllocError>
    requires { IsLow cell.now }
    ensures { IfOk result (λ ends. IsLasts cell.now cell.now.object.entries ends) }
{
    if any_may_go(cell.object.entries.as_slice()) {
        let partners = Partners::of(alloc, &cell.object)?;
        return ends_with(alloc, cell, &partners);
    }
    Ok(BTreeMap::new(alloc))
}

impl<'a> Lasts<'a> {
    pub fn of(alloc: Global, cell: &'a NewCell) -> Result<Lasts<'a>, AllocError>
        requires { IsLow cell.now }
        ensures { IfOk result (λ lasts. lasts.cell.now ≡ cell.now) }
    {
        let ends = ends_of(alloc, cell)?;
        Ok(Lasts { cell, ends })
    }

    /// The address of the last low entry that goes with a high one; its own where there is none, or
    /// where all stand before it.
    pub fn last_low(&self, high: &Entry) -> u64
        requires { IsLow self.now.cell.now }
        ensures { result ≡ last_low self.now.cell.now high.now }
    {
        end_at(&self.ends, spot(high)).max(place_of(self.cell, high))
    }
}
