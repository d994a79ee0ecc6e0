//! Names with values.

ghost use Rattle.std.specs.Prelude.{◌≡◌, ◌++◌, ◌∷◌, [], OnErr, OnOk};
ghost use Rattle.cell_xfer.specs.Named.{AnswersAs, first_named};

use indexmap::IndexMap;
use std::alloc::{AllocError, Global};
use std::marker::Model;

/// Names with values, each name once: the value that was given for it first. Contracts see the list.
#[derive(Drop)]
pub struct Firsts<V: Copy> {
    rows: IndexMap<Vec<u8>, V>,
}

impl<V: Copy> Model for Firsts<V> {
    ghost use Rattle.std.specs.Prelude.{List, map, ℕ};

    ghost Value = { List (List ℕ × V) };

    ghost view = { λ n. map (λ e. (e.0.items, e.1)) n.rows.entries };
}

impl<V: Copy> Firsts<V> {
    /// No name.
    pub fn new(alloc: Global) -> Firsts<V>
        ensures { result ≡ [] }
    {
        Firsts {
            rows: IndexMap::new(alloc),
        }
    }

    /// The value that was given first for the name.
    pub fn get(&self, name: &[u8]) -> Option<V>
        ensures { result ≡ first_named self.now name.now }
    {
        self.rows.get(name).copied()
    }

    /// Adds a name with its value. A name that is there keeps its value.
    pub fn add(&mut self, alloc: Global, name: &[u8], value: V) -> Result<(), AllocError>
        ensures added { OnOk result (AnswersAs self.new (self.old ++ (name.now, value) ∷ [])) }
        ensures unchanged { OnErr result (self.new ≡ self.old) }
    {
        if self.get(name).is_some() {
            return Ok(());
        }
        let key = Vec::from_slice(alloc, name)?;
        self.rows.insert(key, value)?;
        Ok(())
    }
}

/// The addresses of names in the old cells of a swap, and in the new ones.
#[derive(Drop)]
pub struct Addresses {
    pub old: Firsts<u64>,
    pub new: Firsts<u64>,
}
