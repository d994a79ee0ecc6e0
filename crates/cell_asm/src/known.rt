//! What is known by names.

ghost use Rattle.std.specs.Prelude.{◌≡◌, ℕ, List, None, OnOk};
ghost use Rattle.cell_num.specs.Lists.{equals, or_else, where_true};
ghost use Rattle.cell_asm.specs.Progress.{known};

use std::alloc::{AllocError, Global};
use std::collections::BTreeMap;

/// Values by names. The first of a name counts.
#[derive(Drop)]
pub struct Known<'a, V> {
    pub names: BTreeMap<&'a [u8], V>,
}

impl<'a, V: Copy> Known<'a, V> {
    pub fn new(alloc: Global) -> Known<'a, V>
        ensures { (q : List ℕ) → known result q ≡ None }
    {
        Known {
            names: BTreeMap::new(alloc),
        }
    }

    pub fn get(&self, name: &'a [u8]) -> Option<V>
        ensures { result ≡ known self.now name.now }
    {
        self.names.get(&name).copied()
    }

    pub fn add(&mut self, name: &'a [u8], value: V) -> Result<(), AllocError>
        ensures { OnOk result ((q : List ℕ) → known self.new q ≡ or_else (known self.old q) (where_true (equals name.now q) value)) }
    {
        if self.names.get(&name).is_none() {
            self.names.insert(name, value)?;
        }
        Ok(())
    }
}
