//! Tables in which each entry is a field of its own.

ghost use Rattle.std.specs.Prelude.{◌≡◌, ◌<◌, ◌^◌};
ghost use Rattle.cell_plan.specs.Rising.{key_of as key, rises};

use cell_object::Entry;

/// The section and the offset of an entry as one number.
fn key_of(entry: &Entry) -> u64
    ensures key { result ≡ key entry.now }
    ensures small { result < 2 ^ 48 }
{
    let section = entry.section;
    let offset = entry.offset;
    u64::from(section) * 4_294_967_296 + u64::from(offset)
}

/// Whether the entries rise by section and offset, so that no two are at one place.
#[tactic(auto, using(crate::proofs::Climbing::climbing))]
pub fn rises(entries: &[Entry]) -> bool
    ensures { result ≡ rises 0 entries.now }
{
    let mut least = 0;
    for index in 0..entries.len() {
        let key = key_of(&entries[index]);
        if key < least {
            return false;
        }
        least = key + 1;
    }
    true
}
