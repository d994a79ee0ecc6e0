//! The fields of an object, each known by its first entry.

ghost use Rattle.std.specs.Prelude.{◌≡◌, ◌||◌, ℕ, IfOk, OnOk, not};
ghost use Rattle.cell_link.specs.Applied.{spot_of};
ghost use Rattle.cell_world.specs.Linked.Field.{fields_of};
ghost use Rattle.cell_relinked.specs.Contents.{is_seen, stands_at};

use cell_link::{insert_first, spot};
use cell_object::{Entry, Object};
use std::alloc::{AllocError, Global};
use std::collections::BTreeMap;

/// Notes the place that an entry is at: whether none was there before.
fn note(seen: &mut BTreeMap<(u16, u64), ()>, entry: &Entry) -> Result<bool, AllocError>
    ensures is_new { IfOk result (λ is_new. is_new ≡ not (is_seen seen.old (spot_of entry.now))) }
    ensures seen { OnOk result ((q : ℕ × ℕ) → is_seen seen.new q ≡ (is_seen seen.old q || stands_at q entry.now)) }
{
    let is_new = !seen.contains_key(&spot(entry));
    match insert_first(seen, spot(entry), ()) {
        Ok(()) => Ok(is_new),
        Err(_) => Err(AllocError),
    }
}

/// The first entry of each field, in table order.
pub fn first_entries(alloc: Global, object: &Object) -> Result<Vec<Entry>, AllocError>
    ensures { IfOk result (λ firsts. firsts.items ≡ fields_of object.now) }
{
    let mut seen = BTreeMap::new(alloc);
    let mut firsts = Vec::new(alloc);
    let entries = object.entries.as_slice();
    for index in 0..entries.len() {
        if note(&mut seen, &entries[index])? {
            firsts.push(entries[index])?;
        }
    }
    Ok(firsts)
}
