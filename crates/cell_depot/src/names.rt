//! Values by name.

ghost use Rattle.std.specs.Prelude.{◌≡◌, List, ℕ, None, Some, OnOk, option_copied, if◌then◌else◌};
ghost use Rattle.cell_num.specs.Lists.{equals, or_else, where_true};
ghost use Rattle.cell_depot.specs.Values.{value_of};

use std::alloc::{AllocError, Global};
use std::collections::BTreeMap;

/// A map from names.
#[derive(Drop)]
pub struct NameMap<V> {
    pub entries: BTreeMap<Vec<u8>, V>,
}

impl<V: Drop> NameMap<V> {
    pub fn new(alloc: Global) -> NameMap<V>
        ensures { (q : List ℕ) → value_of result q ≡ None }
    {
        NameMap {
            entries: BTreeMap::new(alloc),
        }
    }

    pub fn get(&self, name: &[u8]) -> Option<&V>
        ensures { option_copied result ≡ value_of self.now name.now }
    {
        self.entries.get(name)
    }

    /// Takes the value of a name out.
    pub fn remove(&mut self, name: &[u8]) -> Option<V>
        ensures value { result ≡ value_of self.old name.now }
        ensures others { (q : List ℕ) → value_of self.new q ≡ (if equals name.now q then None else value_of self.old q) }
    {
        self.entries.remove(name)
    }

    /// Puts a value in place of what the name has.
    pub fn put(&mut self, alloc: Global, name: &[u8], value: V) -> Result<(), AllocError>
        ensures { OnOk result ((q : List ℕ) → value_of self.new q ≡ (if equals name.now q then Some value else value_of self.old q)) }
    {
        let key = Vec::from_slice(alloc, name)?;
        self.entries.insert(key, value)?;
        Ok(())
    }

    /// Gives the name a value, unless it has one.
    pub fn put_first(&mut self, alloc: Global, name: &[u8], value: V) -> Result<(), AllocError>
        ensures { OnOk result ((q : List ℕ) → value_of self.new q ≡ or_else (value_of self.old q) (where_true (equals name.now q) value)) }
    {
        if self.get(name).is_some() {
            return Ok(());
        }
        self.put(alloc, name, value)
    }
}
