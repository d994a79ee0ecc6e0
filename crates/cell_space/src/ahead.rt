//! The spaces as they would be with new cells.

ghost use Rattle.std.specs.Prelude.{◌≡◌, ◌<◌, ◌++◌, ◌∷◌, [], All, IfOk, IsSome, OnErr, OnOk, Some, is_some, length, option_map, slice_get};
ghost use Rattle.cell_world.specs.Names.{chain as chain_in};
ghost use Rattle.cell_world.specs.declared.state.Standing.TheVariants.{Attached};
ghost use Rattle.cell_space.specs.Ahead.{has_stem_in, is_there_in};
ghost use Rattle.cell_space.specs.Nearest.{nearest_in as nearest_among, weak_in as weak_among};
ghost use Rattle.cell_space.specs.Path.{IsPath};
ghost use Rattle.cell_space.specs.declared.word.WordKind.TheVariants.{Weak};
ghost use Rattle.cell_space.specs.Named.{LacksName, with_name, cell_numbered as numbered, provider_for as provider_among, strong_provider as strong_among, weak_provider as weak_provider_among, provider_as, number_as, clash_stem as stem_clash, clash_name as name_clash, cell_at as cell_in};

use crate::cell::SpaceCell;
use crate::chain::Chain;
use crate::index::Index;
use crate::lookup::{cell_at, cell_numbered, clash_name, clash_stem, strong_provider};
use crate::names::NameRows;
use crate::nearest::weak_in;
use crate::path::{Path, path_of};
use crate::provider::Provider;
use crate::rows::add_name;
use crate::spaces::Spaces;
use crate::word::{Word, WordKind};
use cell_num::{CellId, Name};
use cell_world::{Namespace, Standing};
use std::alloc::{AllocError, Global};
use std::marker::Model;

/// Present spaces, and behind their cells new ones, attached in the same namespaces. No name of the
/// present ones is copied. Contracts see the spaces that have them all.
#[derive(Drop)]
pub struct Ahead<'a> {
    present: &'a Spaces,
    namespaces: &'a [Namespace],
    fresh: Vec<SpaceCell>,
    index: Index,
}

impl<'a> Model for Ahead<'a> {
    ghost use Rattle.cell_space.specs.Index.{held};
    ghost use Rattle.cell_space.specs.Ahead.{AheadState, AreAhead, with_fresh};

    ghost Value = { AheadState };

    ghost view = { λ a. with_fresh a.present.now a.fresh.items };

    ghost invariant = { λ a. AreAhead a.present.now a.namespaces.now a.fresh.items (held a.index) };
}

impl<'a> Ahead<'a> {
    /// The present spaces, without a new cell. This takes no memory.
    pub fn of(alloc: Global, present: &'a Spaces) -> Ahead<'a>
        ensures namespaces { result.namespaces ≡ present.now.namespaces }
        ensures cells { result.cells ≡ present.now.cells }
        ensures present { result.present ≡ present.now.cells }
        ensures fresh { result.fresh ≡ [] }
    {
        Ahead {
            present,
            namespaces: present.namespaces(),
            fresh: Vec::new(alloc),
            index: Index::new(alloc),
        }
    }

    /// Adds an attached cell behind the others.
    pub fn append(
        &mut self,
        cell: CellId,
        ns: u16,
        stem: Name,
        names: NameRows,
        weak: NameRows,
    ) -> Result<(), AllocError>
        requires there { ns < length self.old.namespaces }
        requires above { All (λ c. c.cell.0 < cell.0) self.old.cells }
        ensures added { OnOk result (self.new.cells ≡ self.old.cells ++ record { cell = cell; ns = ns; stem = stem; state = Attached; names = names; weak = weak } ∷ []) }
        ensures fresh { OnOk result (self.new.fresh ≡ self.old.fresh ++ record { cell = cell; ns = ns; stem = stem; state = Attached; names = names; weak = weak } ∷ []) }
        ensures same_namespaces { self.new.namespaces ≡ self.old.namespaces }
        ensures same_present { self.new.present ≡ self.old.present }
    {
        let row = SpaceCell {
            cell,
            ns,
            stem,
            state: Standing::Attached,
            names,
            weak,
        };
        self.index.claim_all(&self.fresh, &row, true)?;
        self.fresh.push(row)?;
        Ok(())
    }

    /// The namespace of a new cell.
    fn ns_of(&self, cell: CellId) -> u16
        requires { IsSome (numbered self.now.fresh cell.0) }
        ensures { option_map (λ c. c.ns) (numbered self.now.fresh cell.0) ≡ Some result }
    {
        match cell_numbered(&self.fresh, cell.0) {
            Some(found) => found.ns,
            None => unreachable!(),
        }
    }

    /// Gives a new cell one more name for one of its symbols.
    pub fn add_name(
        &mut self,
        alloc: Global,
        cell: CellId,
        name: &[u8],
        symbol: u32,
    ) -> Result<(), AllocError>
        requires { LacksName self.old.fresh cell.0 name.now }
        ensures added { OnOk result (self.new.fresh ≡ with_name cell.0 (record { name = name.now; symbol = symbol }) self.old.fresh) }
        ensures cells { OnOk result (self.new.cells ≡ self.old.present ++ with_name cell.0 (record { name = name.now; symbol = symbol }) self.old.fresh) }
        ensures unchanged { OnErr result (self.new ≡ self.old) }
        ensures same_namespaces { self.new.namespaces ≡ self.old.namespaces }
        ensures same_present { self.new.present ≡ self.old.present }
    {
        let ns = self.ns_of(cell);
        self.index.claim_name(&self.fresh, ns, name, cell.0)?;
        add_name(&mut self.fresh, alloc, cell.0, name, symbol)
    }

    /// The new cells, as they are called.
    pub fn into_fresh(self) -> Vec<SpaceCell>
        ensures { result.items ≡ self.entry.fresh }
    {
        self.fresh
    }

    /// The name of a namespace that is there.
    pub fn ns_name(&self, ns: u16) -> &'a Name
        requires { ns < length self.now.namespaces }
        ensures { option_map (λ s. s.name) (slice_get self.now.namespaces ns) ≡ Some result.now }
    {
        self.present.ns_name(ns)
    }

    /// The namespaces of the chain, from the namespace itself up to `k`.
    pub fn chain(&self, ns: u16) -> Chain<'a>
        requires { ns < length self.now.namespaces }
        ensures { result ≡ chain_in self.now.namespaces ns }
    {
        self.present.chain(ns)
    }

    /// The namespaces that are on one path with the namespace.
    pub fn path(&self, alloc: Global, ns: u16) -> Result<Path, AllocError>
        requires { ns < length self.now.namespaces }
        ensures is { IfOk result (λ path. IsPath self.now.namespaces path) }
        ensures ns { IfOk result (λ path. path.ns ≡ ns) }
    {
        path_of(alloc, self.namespaces, ns)
    }

    /// The attached cell of a stem in the namespace itself.
    pub fn cell_at(&self, ns: u16, stem: &[u8]) -> Option<CellId>
        requires { ns < length self.now.namespaces }
        ensures { option_map number_as result ≡ cell_in ns stem.now self.now.cells }
    {
        match self.present.cell_at(ns, stem) {
            Some(cell) => Some(cell),
            None => cell_at(&self.index, &self.fresh, ns, stem),
        }
    }

    /// Who provides a name for a namespace, or for an attached cell in it.
    pub fn provider(&self, ns: u16, name: &[u8]) -> Option<Provider>
        requires { ns < length self.now.namespaces }
        ensures { option_map provider_as result ≡ provider_among (chain_in self.now.namespaces ns) Attached name.now self.now.cells }
    {
        self.provider_for(ns, Standing::Attached, name)
    }

    /// Who provides a name for a cell of that namespace and state: a strong holder, or else a weak one.
    pub fn provider_for(&self, ns: u16, state: Standing, name: &[u8]) -> Option<Provider>
        requires { ns < length self.now.namespaces }
        ensures { option_map provider_as result ≡ provider_among (chain_in self.now.namespaces ns) state name.now self.now.cells }
    {
        match self.strong_provider(ns, state, name) {
            Some(provider) => Some(provider),
            None => self.weak_provider(ns, state, name),
        }
    }

    /// Who holds a name strongly for a cell of that namespace and state. No new cell is put aside.
    pub fn strong_provider(&self, ns: u16, state: Standing, name: &[u8]) -> Option<Provider>
        requires { ns < length self.now.namespaces }
        ensures { option_map provider_as result ≡ strong_among (chain_in self.now.namespaces ns) state name.now self.now.cells }
    {
        match self.present.strong_provider(ns, state, name) {
            Some(provider) => Some(provider),
            None => {
                let attached = Standing::Attached;
                strong_provider(
                    self.namespaces,
                    &self.index,
                    &self.fresh,
                    ns,
                    attached,
                    name,
                )
            }
        }
    }

    /// The attached cell of the namespace itself that holds the name weakly.
    fn weak_in(&self, ns: u16, word: &Word) -> Option<Provider>
        requires { word.now.kind ≡ Weak }
        ensures { option_map provider_as result ≡ weak_among ns Attached word.now.text.now self.now.cells }
    {
        match self.present.weak_in(ns, word) {
            Some(provider) => Some(provider),
            None => weak_in(&self.index, &self.fresh, ns, word),
        }
    }

    /// The nearest attached cell that holds the name weakly, looked for namespace by namespace.
    fn nearest_attached(&self, ns: u16, name: &[u8]) -> Option<Provider>
        requires { ns < length self.now.namespaces }
        ensures { option_map provider_as result ≡ nearest_among (chain_in self.now.namespaces ns) Attached name.now self.now.cells }
    {
        let word = Word::of(WordKind::Weak, name);
        for space in self.chain(ns) {
            if let Some(provider) = self.weak_in(space, &word) {
                return Some(provider);
            }
        }
        None
    }

    /// Who holds a name weakly for a cell of that namespace and state.
    fn weak_provider(&self, ns: u16, state: Standing, name: &[u8]) -> Option<Provider>
        requires { ns < length self.now.namespaces }
        ensures { option_map provider_as result ≡ weak_provider_among (chain_in self.now.namespaces ns) state name.now self.now.cells }
    {
        match self.present.nearest_aside(ns, state, name) {
            Some(provider) => Some(provider),
            None => self.nearest_attached(ns, name),
        }
    }

    /// The lowest attached cell on the path that has the stem.
    pub fn clash_stem(&self, path: &Path, stem: &[u8]) -> Option<CellId>
        requires { IsPath self.now.namespaces path.now }
        ensures { option_map number_as result ≡ stem_clash self.now.namespaces path.now.ns stem.now self.now.cells }
    {
        match self.present.clash_stem(path, stem) {
            Some(holder) => Some(holder),
            None => clash_stem(self.namespaces, &self.index, &self.fresh, path, stem),
        }
    }

    /// The lowest attached cell on the path that has the name.
    pub fn clash_name(&self, path: &Path, name: &[u8]) -> Option<CellId>
        requires { IsPath self.now.namespaces path.now }
        ensures { option_map number_as result ≡ name_clash self.now.namespaces path.now.ns name.now self.now.cells }
    {
        match self.present.clash_name(path, name) {
            Some(holder) => Some(holder),
            None => clash_name(self.namespaces, &self.index, &self.fresh, path, name),
        }
    }

    fn is_at(&self, ns: u16, stem: &[u8]) -> bool
        requires { ns < length self.now.namespaces }
        ensures { result ≡ is_some (cell_in ns stem.now self.now.cells) }
    {
        self.cell_at(ns, stem).is_some()
    }

    /// Whether the stem is somewhere on the way up, looked for namespace by namespace.
    fn climb_for(&self, ns: u16, stem: &[u8]) -> bool
        requires { ns < length self.now.namespaces }
        ensures { result ≡ is_there_in (chain_in self.now.namespaces ns) stem.now self.now.cells }
    {
        for space in self.chain(ns) {
            if self.is_at(space, stem) {
                return true;
            }
        }
        false
    }

    /// Whether an attached cell in the namespace's chain has the stem.
    pub fn has_stem(&self, ns: u16, stem: &[u8]) -> bool
        requires { ns < length self.now.namespaces }
        ensures { result ≡ has_stem_in (chain_in self.now.namespaces ns) stem.now self.now.cells }
    {
        self.climb_for(ns, stem)
    }
}
