//! The places of the entries that a change changes.

ghost use Rattle.std.specs.Prelude.{◌≡◌, ◌||◌, ◌&&◌, ℕ, IfOk, OnOk, length};
ghost use Rattle.cell_plan.specs.Firsts.{is_entry_at};
ghost use Rattle.std.specs.BTreeSet.{contains};
ghost use Rattle.cell_link.specs.Tables.{spot_cmp};
ghost use Rattle.cell_plan.specs.Changes.{IsSpots};

use cell_link::spot;
use cell_object::Entry;
use std::alloc::{AllocError, Global};
use std::collections::BTreeSet;

/// Adds the place of an entry, where it is marked.
fn add_spot(spots: &mut BTreeSet<(u16, u64)>, entry: &Entry, marked: bool) -> Result<(), AllocError>
    ensures { OnOk result ((q : ℕ × ℕ) → contains spot_cmp spots.new q ≡ (contains spot_cmp spots.old q || is_entry_at q entry.now && marked)) }
{
    if !marked {
        return Ok(());
    }
    spots.insert(spot(entry))?;
    Ok(())
}

/// The sections and offsets of the marked entries.
pub fn spots_of(
    alloc: Global,
    entries: &[Entry],
    marks: &[bool],
) -> Result<BTreeSet<(u16, u64)>, AllocError>
    requires { length marks.now ≡ length entries.now }
    ensures { IfOk result (λ spots. IsSpots entries.now marks.now spots) }
{
    let mut spots = BTreeSet::new(alloc);
    for index in 0..entries.len() {
        add_spot(&mut spots, &entries[index], marks[index])?;
    }
    Ok(spots)
}
