//! The depot.

ghost use Rattle.std.specs.Prelude.{◌≡◌, ◌<◌, ◌≤◌, true, IfOk, All, Some, find, length, option_map, slice_get};
ghost use Rattle.std.specs.List.{list_all};
ghost use Rattle.cell_num.specs.Limits.{max_file_bytes, max_files};
ghost use Rattle.cell_depot.specs.Files.{are_apart, has_name};
ghost use Rattle.cell_depot.specs.ObjectName.{is_object_name};
ghost use Rattle.cell_depot.specs.Found.{Finds};

use crate::file_name::{namespace_of, stem_of};
use crate::names::NameMap;
use crate::shelves::{Places, Shelves};
use cell_world::File;
use std::alloc::{AllocError, Global};
use std::marker::Model;

/// Why there is no one file of a namespace and a stem.
#[derive(Clone, Copy, Debug, PartialEq, Eq)]
pub enum DepotFault {
    /// No file.
    NoObject,
    /// Two files or more. The two whose names come first in byte order stand at these places of
    /// the list.
    Ambiguous { one: u32, two: u32 },
}

/// Object files, with tables by which they are found. Contracts see the list of the files.
#[derive(Drop)]
pub struct Depot {
    files: Vec<File>,
    shelves: Shelves,
    names: NameMap<u32>,
}

impl Model for Depot {
    ghost use Rattle.std.specs.Prelude.{List};
    ghost use Rattle.cell_world.specs.declared.file.File.{File as SomeFile};
    ghost use Rattle.cell_depot.specs.Shelves.{AreTables};

    ghost Value = { List SomeFile };

    ghost view = { λ d. d.files.items };

    ghost invariant = { λ d. AreTables d.files.items d.files.items d.shelves d.names };
}

impl Depot {
    /// The depot of these files.
    pub fn of_files(alloc: Global, files: Vec<File>) -> Result<Depot, AllocError>
        requires few { length files.items ≤ max_files }
        requires apart { are_apart files.items ≡ true }
        requires named { list_all (λ f. is_object_name f.name) files.items ≡ true }
        requires small { All (λ f. length f.bytes ≤ max_file_bytes) files.items }
        ensures { IfOk result (λ depot. depot ≡ files.items) }
    {
        let mut shelves = Shelves::new(alloc);
        let mut names = NameMap::new(alloc);
        for (place, file) in files.iter().enumerate() {
            let name = file.name.bytes();
            shelves.add(
                alloc,
                &files,
                namespace_of(name),
                stem_of(name),
                place as u32,
            )?;
            names.put_first(alloc, name, place as u32)?;
        }
        Ok(Depot {
            files,
            shelves,
            names,
        })
    }

    /// The only file of a namespace and a stem.
    pub fn find(&self, ns: &[u8], stem: &[u8]) -> Result<&File, DepotFault>
        ensures { Finds ns.now stem.now self.now result }
    {
        match self.shelves.get(ns, stem) {
            None => Err(DepotFault::NoObject),
            Some(Places::One(place)) => Ok(self.at(place)),
            Some(Places::Several(one, two)) => Err(DepotFault::Ambiguous { one, two }),
        }
    }

    /// The file of that name.
    pub fn named(&self, name: &[u8]) -> Option<&File>
        ensures { option_map (λ f. f.now) result ≡ find (has_name name.now) self.now }
    {
        match self.names.get(name) {
            Some(place) => Some(self.at(*place)),
            None => None,
        }
    }

    /// The file at a place of the list.
    pub fn at(&self, place: u32) -> &File
        requires { place < length self.now }
        ensures { slice_get self.now place ≡ Some result.now }
    {
        &self.files[place as usize]
    }
}
