//! Where the first files of a namespace and a stem stand.

ghost use Rattle.std.specs.Prelude.{◌≡◌, ◌<◌, List, ℕ, length, None, Some, OnOk, ◌&&◌, if◌then◌else◌};
ghost use Rattle.cell_num.specs.Lists.{equals, is_before};
ghost use Rattle.cell_depot.specs.Shelves.{AreInside, name_at, places_at, with_place};

use crate::file_name::is_before;
use crate::names::NameMap;
use cell_world::File;
use std::alloc::{AllocError, Global};

/// The place of the only file of a namespace and a stem, or those of the two whose names come
/// first in byte order.
#[derive(Clone, Copy, Debug, PartialEq, Eq)]
pub enum Places {
    One(u32),
    Several(u32, u32),
}

/// Places by namespace and stem.
#[derive(Drop)]
pub struct Shelves {
    pub namespaces: NameMap<NameMap<Places>>,
}

/// The name of the file at a place.
fn name_at(files: &[File], place: u32) -> &[u8]
    requires { place < length files.now }
    ensures { result.now ≡ name_at files.now place }
{
    files[place as usize].name.bytes()
}

/// Whether the one file's name comes before the other's in byte order.
fn comes_before(files: &[File], one: u32, other: u32) -> bool
    requires one { one < length files.now }
    requires other { other < length files.now }
    ensures { result ≡ is_before (name_at files.now one) (name_at files.now other) }
{
    is_before(name_at(files, one), name_at(files, other))
}

/// What is noted after one more file.
fn with_place(files: &[File], places: Option<Places>, place: u32) -> Places
    requires there { place < length files.now }
    requires inside { AreInside files.now places }
    ensures { result ≡ with_place files.now places place }
{
    match places {
        None => Places::One(place),
        Some(Places::One(first)) => {
            if comes_before(files, place, first) {
                Places::Several(place, first)
            } else {
                Places::Several(first, place)
            }
        }
        Some(Places::Several(first, second)) => {
            if comes_before(files, place, first) {
                Places::Several(place, first)
            } else if comes_before(files, place, second) {
                Places::Several(first, place)
            } else {
                Places::Several(first, second)
            }
        }
    }
}

impl Shelves {
    pub fn new(alloc: Global) -> Shelves
        ensures { (ns stem : List ℕ) → places_at result ns stem ≡ None }
    {
        Shelves {
            namespaces: NameMap::new(alloc),
        }
    }

    pub fn get(&self, ns: &[u8], stem: &[u8]) -> Option<Places>
        ensures { result ≡ places_at self.now ns.now stem.now }
    {
        match self.namespaces.get(ns) {
            Some(stems) => stems.get(stem).copied(),
            None => None,
        }
    }

    /// Notes the place of one more file.
    pub fn add(
        &mut self,
        alloc: Global,
        files: &[File],
        ns: &[u8],
        stem: &[u8],
        place: u32,
    ) -> Result<(), AllocError>
        requires there { place < length files.now }
        requires inside { AreInside files.now (places_at self.old ns.now stem.now) }
        ensures { OnOk result ((n s : List ℕ) → places_at self.new n s ≡ (if equals ns.now n && equals stem.now s then Some (with_place files.now (places_at self.old n s) place) else places_at self.old n s)) }
    {
        let places = with_place(files, self.get(ns, stem), place);
        let mut stems = match self.namespaces.remove(ns) {
            Some(stems) => stems,
            None => NameMap::new(alloc),
        };
        stems.put(alloc, stem, places)?;
        self.namespaces.put(alloc, ns, stems)
    }
}
