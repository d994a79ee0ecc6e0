//! Which of a cell's symbols has an old name's base name.

ghost use Rattle.std.specs.Prelude.{◌≡◌, ◌++◌, ◌∷◌, [], ℕ, IfOk, List, OnOk};
ghost use Rattle.cell_world.specs.Reexport.{symbol_of_one};
ghost use Rattle.cell_world.specs.Coherent.{IsLoadable};
ghost use Rattle.cell_world.specs.World.{Alias};
ghost use Rattle.cell_world.specs.Names.{base_name as base_of, definitions_of, weak_definitions_of};
ghost use Rattle.cell_gather.specs.Renaming.{AreHeirs, of_base};

use crate::definitions::{definitions, weak_definitions};
use cell_object::Object;
use cell_space::{NameRows, base_name};
use std::alloc::{AllocError, Global};

/// The symbols of a cell's definitions by their base names, the first of each, and the base names
/// that several definitions have.
#[derive(Drop)]
pub struct Heirs {
    pub once: NameRows,
    pub several: NameRows,
}

impl Heirs {
    fn new(alloc: Global) -> Heirs
        ensures { AreHeirs [] result }
    {
        Heirs {
            once: NameRows::new(alloc),
            several: NameRows::new(alloc),
        }
    }

    /// Notes a definition of a base name.
    fn note_base(&mut self, alloc: Global, base: &[u8], symbol: u32) -> Result<(), AllocError>
        ensures { (rows : List Alias) → (name : List ℕ) → base_of name ≡ base.now → AreHeirs rows self.old → OnOk result (AreHeirs (rows ++ record { name = name; symbol = symbol } ∷ []) self.new) }
    {
        if self.once.symbol_of(base).is_none() {
            self.once.add(alloc, base, symbol)?;
        } else if self.several.symbol_of(base).is_none() {
            self.several.add(alloc, base, symbol)?;
        }
        Ok(())
    }

    /// Notes a definition.
    fn note(&mut self, alloc: Global, name: &[u8], symbol: u32) -> Result<(), AllocError>
        ensures { (rows : List Alias) → AreHeirs rows self.old → OnOk result (AreHeirs (rows ++ record { name = name.now; symbol = symbol } ∷ []) self.new) }
    {
        self.note_base(alloc, &name[..base_name(name)], symbol)
    }

    /// The heirs among the definitions of a cell.
    pub fn among(alloc: Global, names: &NameRows) -> Result<Heirs, AllocError>
        ensures { IfOk result (AreHeirs names.now) }
    {
        let mut heirs = Heirs::new(alloc);
        for place in 0..names.len() {
            let (name, symbol) = names.at(place);
            heirs.note(alloc, name, symbol)?;
        }
        Ok(heirs)
    }

    fn of_base(&self, base: &[u8]) -> Option<u32>
        ensures { (rows : List Alias) → AreHeirs rows self.now → result ≡ symbol_of_one (of_base base.now rows) }
    {
        if self.several.symbol_of(base).is_some() {
            return None;
        }
        self.once.symbol_of(base)
    }

    /// The symbol of the one definition that has the name's base name.
    pub fn heir(&self, name: &[u8]) -> Option<u32>
        ensures { (rows : List Alias) → AreHeirs rows self.now → result ≡ symbol_of_one (of_base (base_of name.now) rows) }
    {
        self.of_base(&name[..base_name(name)])
    }
}

/// A new cell's heirs for old names, and the names that it holds weakly, for which it has none.
#[derive(Drop)]
pub struct Heritage {
    pub heirs: Heirs,
    pub weak: NameRows,
}

impl Heritage {
    /// Of the cell of an object.
    pub fn of(alloc: Global, object: &Object) -> Result<Heritage, AllocError>
        requires { IsLoadable object.now }
        ensures heirs { IfOk result (λ h. AreHeirs (definitions_of object.now) h.heirs) }
        ensures weak { IfOk result (λ h. h.weak ≡ weak_definitions_of object.now) }
    {
        let heirs = Heirs::among(alloc, &definitions(alloc, object)?)?;
        let weak = weak_definitions(alloc, object)?;
        Ok(Heritage { heirs, weak })
    }
}
