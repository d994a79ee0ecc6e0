//! The first entry of each field.

ghost use Rattle.std.specs.Prelude.{◌≡◌, ◌++◌, ◌||◌, [], ◌∷◌, ℕ, cond, IfOk, OnOk};
ghost use Rattle.std.specs.BTreeSet.{contains};
ghost use Rattle.cell_world.specs.Linked.Field.{fields_of, fields_among};
ghost use Rattle.cell_link.specs.Tables.{spot_cmp};
ghost use Rattle.cell_link.specs.Applied.{spot_of};
ghost use Rattle.cell_plan.specs.Firsts.{AreSeen, is_entry_at};

use cell_link::spot;
use cell_object::{Entry, Object};
use std::alloc::{AllocError, Global};
use std::collections::BTreeSet;

/// First entries, and the places of all entries so far.
#[derive(Drop)]
struct Firsts {
    seen: BTreeSet<(u16, u64)>,
    entries: Vec<Entry>,
}

impl Firsts {
    /// Takes the next entry in.
    fn add(&mut self, entry: &Entry) -> Result<(), AllocError>
        ensures seen { OnOk result ((q : ℕ × ℕ) → contains spot_cmp self.new.seen q ≡ (contains spot_cmp self.old.seen q || is_entry_at q entry.now)) }
        ensures entries { OnOk result (self.new.entries.items ≡ self.old.entries.items ++ cond (contains spot_cmp self.old.seen (spot_of entry.now)) [] (entry.now ∷ [])) }
    {
        if self.seen.insert(spot(entry))? {
            self.entries.push(*entry)?;
        }
        Ok(())
    }
}

/// The first entry of each field, in table order.
pub fn first_entries(alloc: Global, object: &Object) -> Result<Vec<Entry>, AllocError>
    ensures { IfOk result (λ firsts. firsts.items ≡ fields_of object.now) }
{
    let mut firsts = Firsts {
        seen: BTreeSet::new(alloc),
        entries: Vec::new(alloc),
    };
    let entries = object.entries.as_slice();
    for index in 0..entries.len() {
        firsts.add(&entries[index])?;
    }
    Ok(firsts.entries)
}
