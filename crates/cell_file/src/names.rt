//! The names of GLOBAL symbols.

ghost use Rattle.std.specs.Prelude.{◌≡◌, false, ◌||◌, List, ℕ, OnOk, Ok};
ghost use Rattle.std.specs.Str.{bytes_eq};
ghost use Rattle.cell_file.specs.Names.{is_named};
ghost use Rattle.cell_file.specs.Outcome.{Passes};

use crate::ReadFail;
use std::alloc::Global;
use std::collections::BTreeSet;

/// Names that are taken.
#[derive(Drop)]
pub struct Names<'a> {
    pub set: BTreeSet<&'a [u8]>,
}

impl<'a> Names<'a> {
    pub fn new(alloc: Global) -> Names<'a>
        ensures { (q : List ℕ) → is_named result q ≡ false }
    {
        Names {
            set: BTreeSet::new(alloc),
        }
    }

    pub fn has(&self, name: &'a [u8]) -> bool
        ensures { result ≡ is_named self.now name.now }
    {
        self.set.contains(&name)
    }

    pub fn add(&mut self, name: &'a [u8]) -> Result<(), ReadFail>
        ensures memory { Passes result (Ok tt) }
        ensures added { OnOk result ((q : List ℕ) → is_named self.new q ≡ (bytes_eq q name.now || is_named self.old q)) }
    {
        self.set.insert(name)?;
        Ok(())
    }
}
