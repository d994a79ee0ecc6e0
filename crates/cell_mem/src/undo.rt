//! What an undo goes back by.

ghost use Rattle.std.specs.Prelude.{◌≡◌, ◌<◌, ◌∷◌, ◌++◌, ◌-◌, [], IfOk};

use cell_world::Record;
use std::alloc::{AllocError, Global};
use std::marker::Model;

/// The records of what writes displaced, with room for those of the writes that are left.
#[derive(Drop)]
pub struct Undo {
    left: u32,
    records: Vec<Record>,
}

impl Model for Undo {
    ghost use Rattle.cell_mem.specs.Undo.{Noted};

    ghost Value = { Noted };

    ghost use Rattle.cell_mem.specs.Records.{HasRoom, noted_of};

    ghost view = { noted_of };

    ghost invariant = { HasRoom };
}

impl Undo {
    /// For so many writes. The room for their records is taken here.
    pub fn of(alloc: Global, writes: u32) -> Result<Undo, AllocError>
        ensures { IfOk result (λ undo. undo ≡ record { left = writes; journal = [] }) }
    {
        let records = Vec::with_capacity(alloc, writes as usize)?;
        Ok(Undo {
            left: writes,
            records,
        })
    }

    /// The records, the first first.
    pub fn records(&self) -> &[Record]
        ensures { result.now ≡ self.now.journal }
    {
        self.records.as_slice()
    }

    /// Appends the record of a write.
    pub fn note(&mut self, displaced: Record)
        requires { 0 < self.old.left }
        ensures { self.new ≡ record { left = self.old.left - 1; journal = self.old.journal ++ displaced ∷ [] } }
    {
        self.records.push_reserved(displaced);
        self.left -= 1;
    }
}
