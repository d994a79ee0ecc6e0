//! Maps in which the first value of a key stays.

ghost use Rattle.std.specs.Prelude.{◌≡◌, cond, is_some, Some, IfErr, OnOk};
ghost use Rattle.std.specs.Ordering.{is_eq};
ghost use Rattle.std.specs.BTreeMap.{get};
ghost use Rattle.cell_link.specs.declared.fail.LinkFail.TheVariants.{OutOfMemory};

use crate::LinkFail;
use std::collections::BTreeMap;

/// Gives a key its value where it has none.
pub fn insert_first<K: Ord + Drop, V: Drop>(
    map: &mut BTreeMap<K, V>,
    key: K,
    value: V,
) -> Result<(), LinkFail>
    ensures memory { IfErr result (λ e. e ≡ OutOfMemory) }
    ensures first { OnOk result ((q : K) → get K.cmp map.new q ≡ cond (is_some (get K.cmp map.old key)) (get K.cmp map.old q) (cond (is_eq (K.cmp key q)) (Some value) (get K.cmp map.old q))) }
{
    if map.contains_key(&key) {
        return Ok(());
    }
    map.insert(key, value)?;
    Ok(())
}
