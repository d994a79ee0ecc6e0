//! The spaces.

ghost use Rattle.std.specs.Prelude.{take, ◌≡◌, ◌<◌, ◌≤◌, ◌+◌, ◌-◌, ◌++◌, ◌∷◌, [], None, Some, All, IfOk, OnOk, OnErr, length, option_map, slice_get};
ghost use Rattle.cell_world.specs.Names.{chain as chain_in};
ghost use Rattle.cell_world.specs.declared.state.Standing.TheVariants.{Attached, Detached};
ghost use Rattle.cell_space.specs.Path.{IsPath};
ghost use Rattle.cell_space.specs.Named.{cell_numbered as numbered, provider_for as provider_among, strong_provider as strong_among, provider_as, number_as, clash_stem as stem_clash, clash_name as name_clash, cell_at as cell_in, with_cell, with_state, without};
ghost use Rattle.cell_space.specs.Index.{row_count};
ghost use Rattle.cell_space.specs.Nearest.{nearest_aside as aside_among, weak_in as weak_among};
ghost use Rattle.cell_space.specs.declared.word.WordKind.TheVariants.{Weak};
ghost use Rattle.cell_space.specs.Rooted.{AreRooted};
ghost use Rattle.cell_space.specs.Spaces.{IsThere, HasCell, HasDetached, HasAttached, HasNoRival, kernel, provider_in, namespace_named};

use crate::cell::{SpaceCell, copy_cells};
use crate::chain::{Chain, chain_of};
use crate::index::{Index, claim_again, index_of};
use crate::lookup::{
    cell_at, cell_numbered, clash_name, clash_stem, provider_for, strong_provider,
};
use crate::names::NameRows;
use crate::namespaces::{copy_namespaces, first_namespace, place_of};
use crate::nearest::{nearest_aside, weak_in};
use crate::path::{Path, path_of};
use crate::provider::{Provider, Scope};
use crate::rows::{insert_cell, remove_cell, set_state};
use crate::word::Word;
use cell_num::{CellId, Name};
use cell_world::{Namespace, Standing};
use std::alloc::{AllocError, Global};
use std::marker::Model;

/// The namespaces, and the cells in them. Room for cells and names is reserved before, so that attaching
/// takes no memory. Attached cells are found by stem and name through an index.
#[derive(Drop)]
pub struct Spaces {
    namespaces: Vec<Namespace>,
    cells: Vec<SpaceCell>,
    index: Index,
}

impl Model for Spaces {
    ghost use Rattle.std.specs.Prelude.{◌-◌, ◌/◌, vec_capacity, vec_len};
    ghost use Rattle.indexmap.specs.IndexMap.{spare};
    ghost use Rattle.cell_space.specs.Index.{held};
    ghost use Rattle.cell_space.specs.Spaces.{SpacesState, AreKept};

    ghost Value = { SpacesState };

    ghost view = { λ s. record { namespaces = s.namespaces.items; cells = s.cells.items; spare_cells = vec_capacity s.cells - vec_len s.cells; spare_names = spare s.index.holders / 2 } };

    ghost invariant = { λ s. AreKept s.namespaces.items s.cells.items (held s.index) };
}

impl Spaces {
    /// The namespace `k` alone.
    pub fn new(alloc: Global) -> Result<Spaces, AllocError>
        ensures namespaces { IfOk result (λ s. s.namespaces ≡ kernel) }
        ensures cells { IfOk result (λ s. s.cells ≡ []) }
    {
        Ok(Spaces {
            namespaces: first_namespace(alloc)?,
            cells: Vec::new(alloc),
            index: Index::new(alloc),
        })
    }

    /// The number of the namespace of that name.
    pub fn find_ns(&self, name: &[u8]) -> Option<u16>
        ensures { result ≡ namespace_named self.now.namespaces name.now }
    {
        match place_of(&self.namespaces, name) {
            Some(place) => Some(place as u16),
            None => None,
        }
    }

    /// The namespaces by their numbers.
    pub fn namespaces(&self) -> &[Namespace]
        ensures value { result.now ≡ self.now.namespaces }
        ensures rooted { AreRooted result.now }
        ensures few { length result.now ≤ 256 }
    {
        &self.namespaces
    }

    /// How many namespaces there are.
    pub fn namespace_count(&self) -> usize
        ensures { result ≡ length self.now.namespaces }
    {
        self.namespaces.len()
    }

    /// Adds a namespace, and gives its number.
    pub fn add_ns(&mut self, name: Name, parent: u16) -> Result<u16, AllocError>
        requires new { namespace_named self.old.namespaces name ≡ None }
        requires parent { parent < length self.old.namespaces }
        requires few { length self.old.namespaces < 256 }
        ensures number { IfOk result (λ n. n ≡ length self.old.namespaces) }
        ensures added { OnOk result (self.new.namespaces ≡ self.old.namespaces ++ record { name = name; parent = Some parent } ∷ []) }
        ensures unchanged { OnErr result (self.new.namespaces ≡ self.old.namespaces) }
        ensures same_cells { self.new.cells ≡ self.old.cells }
        ensures same_room { self.new.spare_cells ≡ self.old.spare_cells }
        ensures same_names_room { self.new.spare_names ≡ self.old.spare_names }
    {
        let number = self.namespaces.len() as u16;
        self.namespaces.push(Namespace {
            name,
            parent: Some(parent),
        })?;
        Ok(number)
    }

    /// Takes the last namespace away, in which no cell stands. `k` stays.
    pub fn drop_ns(&mut self)
        requires more { 1 < length self.old.namespaces }
        requires empty { All (λ c. c.ns + 1 < length self.old.namespaces) self.old.cells }
        ensures namespaces { self.new.namespaces ≡ take (length self.old.namespaces - 1) self.old.namespaces }
        ensures same_cells { self.new.cells ≡ self.old.cells }
        ensures same_room { self.new.spare_cells ≡ self.old.spare_cells }
        ensures same_names_room { self.new.spare_names ≡ self.old.spare_names }
    {
        let _ = self.namespaces.pop();
    }

    /// The name of a namespace that is there.
    pub fn ns_name(&self, ns: u16) -> &Name
        requires { ns < length self.now.namespaces }
        ensures { option_map (λ s. s.name) (slice_get self.now.namespaces ns) ≡ Some result.now }
    {
        &self.namespaces[ns as usize].name
    }

    /// The names of a cell that is there.
    pub fn names(&self, cell: CellId) -> &NameRows
        requires { HasCell self.now cell.0 }
        ensures { option_map (λ c. c.names) (numbered self.now.cells cell.0) ≡ Some result.now }
    {
        match cell_numbered(&self.cells, cell.0) {
            Some(found) => &found.names,
            None => unreachable!(),
        }
    }

    /// The state of a cell that is there.
    pub fn state(&self, cell: CellId) -> Standing
        requires { HasCell self.now cell.0 }
        ensures { option_map (λ c. c.state) (numbered self.now.cells cell.0) ≡ Some result }
    {
        match cell_numbered(&self.cells, cell.0) {
            Some(found) => found.state,
            None => unreachable!(),
        }
    }

    /// The namespaces of the chain, from the namespace itself up to `k`.
    pub fn chain(&self, ns: u16) -> Chain<'_>
        requires { ns < length self.now.namespaces }
        ensures { result ≡ chain_in self.now.namespaces ns }
    {
        chain_of(self.namespaces.as_slice(), ns)
    }

    /// The namespaces that are on one path with the namespace.
    pub fn path(&self, alloc: Global, ns: u16) -> Result<Path, AllocError>
        requires { ns < length self.now.namespaces }
        ensures is { IfOk result (λ path. IsPath self.now.namespaces path) }
        ensures ns { IfOk result (λ path. path.ns ≡ ns) }
    {
        path_of(alloc, &self.namespaces, ns)
    }

    /// The attached cell of a stem in the namespace itself.
    pub fn cell_at(&self, ns: u16, stem: &[u8]) -> Option<CellId>
        requires { ns < length self.now.namespaces }
        ensures { option_map number_as result ≡ cell_in ns stem.now self.now.cells }
    {
        cell_at(&self.index, &self.cells, ns, stem)
    }

    /// Who provides a name for a namespace, or for a cell.
    pub fn provider(&self, scope: Scope, name: &[u8]) -> Option<Provider>
        requires { IsThere self.now scope }
        ensures { option_map provider_as result ≡ provider_in self.now scope name.now }
    {
        match scope {
            Scope::Space(ns) => self.provider_for(ns, Standing::Attached, name),
            Scope::Cell(cell) => match cell_numbered(&self.cells, cell.0) {
                Some(found) => self.provider_for(found.ns, found.state, name),
                None => None,
            },
        }
    }

    /// Who provides a name for a cell of that namespace and state.
    pub fn provider_for(&self, ns: u16, state: Standing, name: &[u8]) -> Option<Provider>
        requires { ns < length self.now.namespaces }
        ensures { option_map provider_as result ≡ provider_among (chain_in self.now.namespaces ns) state name.now self.now.cells }
    {
        provider_for(&self.namespaces, &self.index, &self.cells, ns, state, name)
    }

    /// Who holds a name strongly for a cell of that namespace and state.
    pub fn strong_provider(&self, ns: u16, state: Standing, name: &[u8]) -> Option<Provider>
        requires { ns < length self.now.namespaces }
        ensures { option_map provider_as result ≡ strong_among (chain_in self.now.namespaces ns) state name.now self.now.cells }
    {
        strong_provider(&self.namespaces, &self.index, &self.cells, ns, state, name)
    }

    /// The nearest cell that holds a name weakly, among those of the group of a cell that is put aside.
    pub(crate) fn nearest_aside(&self, ns: u16, state: Standing, name: &[u8]) -> Option<Provider>
        requires { ns < length self.now.namespaces }
        ensures { option_map provider_as result ≡ aside_among (chain_in self.now.namespaces ns) state name.now self.now.cells }
    {
        nearest_aside(&self.namespaces, &self.cells, ns, state, name)
    }

    /// The attached cell of the namespace itself that holds the name weakly.
    pub(crate) fn weak_in(&self, ns: u16, word: &Word) -> Option<Provider>
        requires { word.now.kind ≡ Weak }
        ensures { option_map provider_as result ≡ weak_among ns Attached word.now.text.now self.now.cells }
    {
        weak_in(&self.index, &self.cells, ns, word)
    }

    /// The lowest attached cell on the path that has the stem.
    pub fn clash_stem(&self, path: &Path, stem: &[u8]) -> Option<CellId>
        requires { IsPath self.now.namespaces path.now }
        ensures { option_map number_as result ≡ stem_clash self.now.namespaces path.now.ns stem.now self.now.cells }
    {
        clash_stem(&self.namespaces, &self.index, &self.cells, path, stem)
    }

    /// The lowest attached cell on the path that has the name.
    pub fn clash_name(&self, path: &Path, name: &[u8]) -> Option<CellId>
        requires { IsPath self.now.namespaces path.now }
        ensures { option_map number_as result ≡ name_clash self.now.namespaces path.now.ns name.now self.now.cells }
    {
        clash_name(&self.namespaces, &self.index, &self.cells, path, name)
    }

    /// Makes room for so many more cells, which have so many names in all.
    pub fn reserve(&mut self, cells: u32, names: u32) -> Result<(), AllocError>
        ensures room { OnOk result (cells ≤ self.new.spare_cells) }
        ensures names_room { OnOk result (cells + names ≤ self.new.spare_names) }
        ensures more { self.old.spare_cells ≤ self.new.spare_cells }
        ensures more_names { self.old.spare_names ≤ self.new.spare_names }
        ensures same_namespaces { self.new.namespaces ≡ self.old.namespaces }
        ensures same_cells { self.new.cells ≡ self.old.cells }
    {
        self.index.reserve(2 * (cells as usize + names as usize))?;
        self.cells.reserve(cells as usize)
    }

    /// Adds an attached cell.
    pub fn attach(&mut self, cell: CellId, ns: u16, stem: Name, names: NameRows, weak: NameRows)
        requires room { 0 < self.old.spare_cells }
        requires names_room { length weak + length names < self.old.spare_names }
        requires there { ns < length self.old.namespaces }
        requires new { numbered self.old.cells cell.0 ≡ None }
        requires stem_free { stem_clash self.old.namespaces ns stem self.old.cells ≡ None }
        requires names_free { All (λ a. name_clash self.old.namespaces ns a.name self.old.cells ≡ None) names }
        ensures added { self.new.cells ≡ with_cell (record { cell = cell; ns = ns; stem = stem; state = Attached; names = names; weak = weak }) self.old.cells }
        ensures same_namespaces { self.new.namespaces ≡ self.old.namespaces }
        ensures room { self.old.spare_cells ≤ self.new.spare_cells + 1 }
        ensures names_left { self.old.spare_names ≤ self.new.spare_names + (length weak + length names) + 1 }
    {
        let row = SpaceCell {
            cell,
            ns,
            stem,
            state: Standing::Attached,
            names,
            weak,
        };
        self.index.claim_reserved(&self.cells, &row);
        insert_cell(&mut self.cells, row);
    }

    /// Puts an attached cell aside, in a group.
    pub fn detach(&mut self, cell: CellId, group: u32)
        requires { HasAttached self.old cell.0 }
        ensures state { self.new.cells ≡ with_state (Detached group) cell.0 self.old.cells }
        ensures same_namespaces { self.new.namespaces ≡ self.old.namespaces }
        ensures same_room { self.old.spare_cells ≤ self.new.spare_cells }
        ensures same_names_room { self.old.spare_names ≤ self.new.spare_names }
    {
        set_state(&mut self.cells, cell.0, Standing::Detached(group));
    }

    /// Attaches a cell again that was put aside.
    pub fn reattach(&mut self, cell: CellId)
        requires detached { HasDetached self.old cell.0 }
        requires free { HasNoRival self.old cell.0 }
        ensures state { self.new.cells ≡ with_state Attached cell.0 self.old.cells }
        ensures same_namespaces { self.new.namespaces ≡ self.old.namespaces }
        ensures same_room { self.old.spare_cells ≤ self.new.spare_cells }
        ensures names_left { (c : SpaceCell) → numbered self.old.cells cell.0 ≡ Some c → self.old.spare_names ≤ self.new.spare_names + row_count c + 1 }
    {
        claim_again(&mut self.index, &self.cells, cell.0);
        set_state(&mut self.cells, cell.0, Standing::Attached);
    }

    /// Takes a cell away.
    pub fn drop_cell(&mut self, cell: CellId)
        requires { HasCell self.old cell.0 }
        ensures cells { self.new.cells ≡ without cell.0 self.old.cells }
        ensures same_namespaces { self.new.namespaces ≡ self.old.namespaces }
        ensures same_room { self.old.spare_cells ≤ self.new.spare_cells }
        ensures same_names_room { self.old.spare_names ≤ self.new.spare_names }
    {
        remove_cell(&mut self.cells, cell.0);
    }

    /// The same namespaces, without a cell.
    pub fn without_cells(&self, alloc: Global) -> Result<Spaces, AllocError>
        ensures namespaces { IfOk result (λ copy. copy.namespaces ≡ self.now.namespaces) }
        ensures cells { IfOk result (λ copy. copy.cells ≡ []) }
    {
        Ok(Spaces {
            namespaces: copy_namespaces(alloc, &self.namespaces)?,
            cells: Vec::new(alloc),
            index: Index::new(alloc),
        })
    }

    /// Equal spaces, with room of their own.
    pub fn copy(&self, alloc: Global) -> Result<Spaces, AllocError>
        ensures namespaces { IfOk result (λ copy. copy.namespaces ≡ self.now.namespaces) }
        ensures cells { IfOk result (λ copy. copy.cells ≡ self.now.cells) }
    {
        let cells = copy_cells(alloc, &self.cells)?;
        let index = index_of(alloc, &cells)?;
        Ok(Spaces {
            namespaces: copy_namespaces(alloc, &self.namespaces)?,
            cells,
            index,
        })
    }
}
