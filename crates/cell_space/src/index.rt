//! Which cell may have a stem or a name, by namespace and hash, and by hash alone, so that no look-up
//! walks over the cells, and few ask one namespace after the other. An entry answers for the attached cells alone, and stays when its cell is put aside or
//! goes: what is found is always asked whether it is right.

ghost use Rattle.std.specs.Prelude.{◌≡◌, ◌<◌, ◌≤◌, ◌+◌, ◌*◌, ◌⊎◌, ◌&&◌, ◌∷◌, ℕ, [], Some, true, nat_eq, length, All, IsOk, IsSome, IfOk, OnOk, OnErr, if◌then◌else◌};
ghost use Rattle.indexmap.specs.IndexMap.{spare};
ghost use Rattle.cell_space.specs.Hash.{name_hash as name_number};
ghost use Rattle.cell_space.specs.Rising.{IsRising};
ghost use Rattle.cell_space.specs.Named.{cell_numbered as numbered};
ghost use Rattle.cell_space.specs.Index.{held, claimed, attached_at, name_hashes, Grows, IsTaken, AreHeld, AreTaken, IsCellTaken, IsListed, IsWhole, row_count, row_hashes, hashes_of};

use crate::cell::SpaceCell;
use crate::hash::{name_hash, stem_hash};
use crate::lookup::cell_numbered;
use crate::names::NameRows;
use crate::word::{WordKind, word_hash};
use cell_world::Standing;
use indexmap::IndexMap;
use std::alloc::{AllocError, Global};

/// Where the index has what it holds of a hash in whatever namespace. No namespace has this number.
pub const ANYWHERE: u16 = 65535;

/// Among the attached cells of a namespace, or among all, only this one may have the hash, or any may.
#[derive(Clone, Copy, Debug, PartialEq, Eq)]
pub enum Holder {
    One(u32),
    Many,
}

/// Names that a cell holds strongly, or those that it holds weakly.
#[derive(Clone, Copy)]
struct Rows<'a> {
    kind: WordKind,
    names: &'a NameRows,
}

/// The holders by namespace and hash.
#[derive(Drop)]
pub struct Index {
    pub holders: IndexMap<(u16, u64), Holder>,
}

fn is_attached(cells: &[SpaceCell], number: u32) -> bool
    requires { IsRising cells.now }
    ensures { result ≡ attached_at cells.now number }
{
    match cell_numbered(cells, number) {
        Some(cell) => cell.is_in(Standing::Attached),
        None => false,
    }
}

/// What is held once a cell has the hash too.
fn claimed(cells: &[SpaceCell], cell: u32, attached: bool, now: Option<Holder>) -> Holder
    requires { IsRising cells.now }
    ensures { result ≡ claimed cells.now cell attached now }
{
    match now {
        None => Holder::One(cell),
        Some(Holder::Many) => Holder::Many,
        Some(Holder::One(other)) => {
            if other == cell || !is_attached(cells, other) {
                Holder::One(cell)
            } else if attached {
                Holder::Many
            } else {
                Holder::One(other)
            }
        }
    }
}

impl Index {
    pub fn new(alloc: Global) -> Index
        ensures { result.holders.entries ≡ [] }
    {
        Index {
            holders: IndexMap::new(alloc),
        }
    }

    /// What is held of the hash in the namespace.
    pub fn get(&self, ns: u16, hash: u64) -> Option<Holder>
        ensures { result ≡ held self.now ns hash }
    {
        self.holders.get(&(ns, hash)).copied()
    }

    /// Makes room for so many more hashes.
    pub fn reserve(&mut self, more: usize) -> Result<(), AllocError>
        ensures room { OnOk result (more ≤ spare self.new.holders) }
        ensures same { self.new.holders.entries ≡ self.old.holders.entries }
        ensures more { spare self.old.holders ≤ spare self.new.holders }
    {
        self.holders.reserve(more)
    }

    fn put(&mut self, ns: u16, hash: u64, holder: Holder) -> Result<(), AllocError>
        ensures put { OnOk result ((m h : ℕ) → held self.new m h ≡ (if nat_eq ns m && nat_eq hash h then Some holder else held self.old m h)) }
        ensures same { OnErr result (self.new.holders.entries ≡ self.old.holders.entries) }
        ensures succeeds { (0 < spare self.old.holders) ⊎ IsSome (held self.old ns hash) → IsOk result }
        ensures room { spare self.old.holders ≤ spare self.new.holders + 1 }
    {
        self.holders.insert((ns, hash), holder)?;
        Ok(())
    }

    /// Takes a cell in that has the hash. The entries of the other attached cells stay right.
    fn claim(
        &mut self,
        cells: &[SpaceCell],
        ns: u16,
        hash: u64,
        cell: u32,
        attached: bool,
    ) -> Result<(), AllocError>
        requires { IsRising cells.now }
        ensures grows { Grows cells.now cell (held self.old) (held self.new) }
        ensures taken { OnOk result (IsTaken cell attached (held self.new ns hash)) }
        ensures succeeds { (0 < spare self.old.holders) ⊎ IsSome (held self.old ns hash) → IsOk result }
        ensures room { spare self.old.holders ≤ spare self.new.holders + 1 }
    {
        let holder = claimed(cells, cell, attached, self.get(ns, hash));
        self.put(ns, hash, holder)
    }

    /// Takes an attached cell in that has one more name.
    pub fn claim_name(
        &mut self,
        cells: &[SpaceCell],
        ns: u16,
        name: &[u8],
        cell: u32,
    ) -> Result<(), AllocError>
        requires { IsRising cells.now }
        ensures grows { Grows cells.now cell (held self.old) (held self.new) }
        ensures taken { OnOk result (AreTaken (held self.new) ns cell true (name_number name.now ∷ [])) }
    {
        let hash = name_hash(name);
        self.claim(cells, ANYWHERE, hash, cell, true)?;
        self.claim(cells, ns, hash, cell, true)
    }

    /// Takes a cell in that has the names.
    fn claim_names(
        &mut self,
        cells: &[SpaceCell],
        ns: u16,
        rows: Rows,
        cell: u32,
        attached: bool,
    ) -> Result<(), AllocError>
        requires { IsRising cells.now }
        ensures grows { Grows cells.now cell (held self.old) (held self.new) }
        ensures taken { OnOk result (All (λ h. IsTaken cell attached (held self.new ns h)) (name_hashes rows.entry.kind rows.entry.names.now)) }
        ensures succeeds { (length rows.entry.names.now ≤ spare self.old.holders) ⊎ All (λ h. IsSome (held self.old ns h)) (name_hashes rows.entry.kind rows.entry.names.now) → IsOk result }
        ensures room { spare self.old.holders ≤ spare self.new.holders + length rows.entry.names.now }
    {
        for place in 0..rows.names.len() {
            let (name, _) = rows.names.at(place);
            self.claim(cells, ns, word_hash(rows.kind, name), cell, attached)?;
        }
        Ok(())
    }

    /// Takes in the names that a cell holds, weak ones and strong ones.
    fn claim_rows(
        &mut self,
        cells: &[SpaceCell],
        ns: u16,
        cell: &SpaceCell,
        attached: bool,
    ) -> Result<(), AllocError>
        requires { IsRising cells.now }
        ensures grows { Grows cells.now cell.now.cell.0 (held self.old) (held self.new) }
        ensures taken { OnOk result (All (λ h. IsTaken cell.now.cell.0 attached (held self.new ns h)) (row_hashes cell.now)) }
        ensures succeeds { (row_count cell.now ≤ spare self.old.holders) ⊎ All (λ h. IsSome (held self.old ns h)) (row_hashes cell.now) → IsOk result }
        ensures room { spare self.old.holders ≤ spare self.new.holders + row_count cell.now }
    {
        let number = cell.cell.0;
        let weak = Rows {
            kind: WordKind::Weak,
            names: &cell.weak,
        };
        let strong = Rows {
            kind: WordKind::Name,
            names: &cell.names,
        };
        self.claim_names(cells, ns, weak, number, attached)?;
        self.claim_names(cells, ns, strong, number, attached)
    }

    /// Takes a cell in, in a namespace or anywhere.
    fn claim_in(
        &mut self,
        cells: &[SpaceCell],
        ns: u16,
        cell: &SpaceCell,
        attached: bool,
    ) -> Result<(), AllocError>
        requires { IsRising cells.now }
        ensures grows { Grows cells.now cell.now.cell.0 (held self.old) (held self.new) }
        ensures taken { OnOk result (All (λ h. IsTaken cell.now.cell.0 attached (held self.new ns h)) (hashes_of cell.now)) }
        ensures succeeds { (row_count cell.now < spare self.old.holders) ⊎ All (λ h. IsSome (held self.old ns h)) (hashes_of cell.now) → IsOk result }
        ensures room { spare self.old.holders ≤ spare self.new.holders + row_count cell.now + 1 }
    {
        let stem = cell.stem.bytes();
        self.claim(cells, ns, stem_hash(stem), cell.cell.0, attached)?;
        self.claim_rows(cells, ns, cell, attached)
    }

    /// Takes a cell in by its stem and names, as an attached one or one that is put aside.
    pub fn claim_all(
        &mut self,
        cells: &[SpaceCell],
        cell: &SpaceCell,
        attached: bool,
    ) -> Result<(), AllocError>
        requires { IsRising cells.now }
        ensures grows { Grows cells.now cell.now.cell.0 (held self.old) (held self.new) }
        ensures taken { OnOk result (IsCellTaken (held self.new) attached cell.now) }
        ensures succeeds { (2 * row_count cell.now + 1 < spare self.old.holders) ⊎ AreHeld (held self.old) cell.now.ns (hashes_of cell.now) → IsOk result }
        ensures room { spare self.old.holders ≤ spare self.new.holders + 2 * row_count cell.now + 2 }
    {
        self.claim_in(cells, ANYWHERE, cell, attached)?;
        self.claim_in(cells, cell.ns, cell, attached)
    }

    /// Takes a cell in as it stands.
    fn claim_cell(&mut self, cells: &[SpaceCell], cell: &SpaceCell) -> Result<(), AllocError>
        requires { IsRising cells.now }
        ensures grows { Grows cells.now cell.now.cell.0 (held self.old) (held self.new) }
        ensures taken { OnOk result (IsListed (held self.new) cell.now) }
    {
        self.claim_all(cells, cell, cell.is_in(Standing::Attached))
    }

    /// Takes an attached cell in where there is room for its stem and names, or all are held already. This takes no memory.
    pub fn claim_reserved(&mut self, cells: &[SpaceCell], cell: &SpaceCell)
        requires rising { IsRising cells.now }
        requires ready { (2 * row_count cell.now + 1 < spare self.old.holders) ⊎ AreHeld (held self.old) cell.now.ns (hashes_of cell.now) }
        ensures grows { Grows cells.now cell.now.cell.0 (held self.old) (held self.new) }
        ensures taken { IsCellTaken (held self.new) true cell.now }
        ensures room { spare self.old.holders ≤ spare self.new.holders + 2 * row_count cell.now + 2 }
    {
        match self.claim_all(cells, cell, true) {
            Ok(()) => {}
            Err(_) => unreachable!(),
        }
    }
}

/// Takes the cell of a number in once more, which is put aside and comes back. This takes no memory,
/// since its hashes are held still.
pub fn claim_again(index: &mut Index, cells: &[SpaceCell], number: u32)
    requires rising { IsRising cells.now }
    requires whole { IsWhole (held index.old) cells.now }
    ensures grows { Grows cells.now number (held index.old) (held index.new) }
    ensures taken { (c : SpaceCell) → numbered cells.now number ≡ Some c → IsCellTaken (held index.new) true c }
    ensures room { (c : SpaceCell) → numbered cells.now number ≡ Some c → spare index.old.holders ≤ spare index.new.holders + 2 * row_count c + 2 }
{
    if let Some(cell) = cell_numbered(cells, number) {
        index.claim_reserved(cells, cell);
    }
}

/// The index of the cells.
pub fn index_of(alloc: Global, cells: &[SpaceCell]) -> Result<Index, AllocError>
    requires { IsRising cells.now }
    ensures { IfOk result (λ index. IsWhole (held index) cells.now) }
{
    let mut index = Index::new(alloc);
    for cell in cells {
        index.claim_cell(cells, cell)?;
    }
    Ok(index)
}
