//! The objects of cells: each file is read once.

ghost use Rattle.std.specs.Prelude.{◌≡◌, ◌≤◌, ◌++◌, ◌∷◌, [], ℕ, List, All, IfOk, OnOk, Some, length, map, if◌then◌else◌};
ghost use Rattle.cell_num.specs.Lists.{equals};
ghost use Rattle.cell_world.specs.Gather.{Source, source_of};
ghost use Rattle.cell_num.specs.Limits.{max_file_bytes};
ghost use Rattle.cell_described.specs.Objects.{AreKept, IsSought, Keeps, place_named};

use crate::reading::read;
use cell_depot::Depot;
use cell_object::Object;
use cell_world::File;
use std::alloc::{AllocError, Global};
use std::collections::BTreeMap;

/// Objects that were read, and their places by the names of their files.
#[derive(Drop)]
pub struct Objects<'a> {
    pub items: Vec<Object>,
    pub places: BTreeMap<&'a [u8], usize>,
}

impl<'a> Objects<'a> {
    /// None yet.
    pub fn new(alloc: Global) -> Objects<'a>
        ensures kept { (sources : List Source) → AreKept sources result }
        ensures empty { result.items.items ≡ [] }
    {
        Objects {
            items: Vec::new(alloc),
            places: BTreeMap::new(alloc),
        }
    }

    fn add(&mut self, name: &'a [u8], object: Object) -> Result<usize, AllocError>
        ensures items { OnOk result (self.new.items.items ≡ self.old.items.items ++ object ∷ []) }
        ensures place { IfOk result (λ place. place ≡ length self.old.items.items) }
        ensures places { IfOk result (λ place. (q : List ℕ) → place_named self.new q ≡ (if equals name.now q then Some place else place_named self.old q)) }
    {
        let place = self.items.len();
        self.items.push(object)?;
        self.places.insert(name, place)?;
        Ok(place)
    }

    /// The place of the object of a file that wasn't read yet, unless it breaks a rule.
    fn keep(&mut self, alloc: Global, file: &'a File) -> Result<Option<usize>, AllocError>
        requires { length file.now.bytes ≤ max_file_bytes }
        ensures { IfOk result (Keeps file.now self.old self.new) }
    {
        match read(alloc, file)? {
            Some(object) => {
                let place = self.add(file.name.bytes(), object)?;
                Ok(Some(place))
            }
            None => Ok(None),
        }
    }

    /// The place of the object of the file of that name. There is none where no file has the name, or
    /// its file breaks a rule.
    pub fn find(
        &mut self,
        alloc: Global,
        depot: &'a Depot,
        name: &[u8],
    ) -> Result<Option<usize>, AllocError>
        requires kept { AreKept (map source_of depot.now) self.old }
        requires small { All (λ f. length f.bytes ≤ max_file_bytes) depot.now }
        ensures { IfOk result (IsSought (map source_of depot.now) name.now self.old self.new) }
    {
        let Some(file) = depot.named(name) else {
            return Ok(None);
        };
        let own = file.name.bytes();
        if let Some(place) = self.places.get(&own) {
            return Ok(Some(*place));
        }
        self.keep(alloc, file)
    }
}
