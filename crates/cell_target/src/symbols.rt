//! The targets of a cell's symbols.

ghost use Rattle.std.specs.Prelude.{◌≡◌, ◌<◌, ◌++◌, OnOk, length};
ghost use Rattle.cell_object.specs.Parts.{is_local as local, is_undefined as undefined};
ghost use Rattle.cell_world.specs.Names.{is_weak_definition as weak_definition};
ghost use Rattle.cell_world.specs.Linked.Target.{symbol_target as target_with};
ghost use Rattle.cell_target.specs.Asking.{undefined_target as undefined_with, unprovided as unprovided_with, yielding_target as yielding_with};
ghost use Rattle.cell_target.specs.Entries.{symbol_targets as targets_with};
ghost use Rattle.cell_num.specs.Lists.{In};
ghost use Rattle.cell_target.specs.Named.{IsNamed, world_of};
ghost use Rattle.cell_target.specs.Scene.{in_state, seen};
ghost use Rattle.cell_placed.specs.Low.{IsLow};

use crate::asked::Asked;
use crate::named::Named;
use crate::scene::Scene;
use cell_object::{Bind, Home, Symbol};
use cell_placed::own_target;
use cell_world::{NewCell, Standing, Target};
use std::alloc::AllocError;

fn is_undefined(symbol: &Symbol) -> bool
    ensures { result ≡ undefined symbol.now.home }
{
    matches!(symbol.home, Home::Undef)
}

fn is_local(symbol: &Symbol) -> bool
    ensures { result ≡ local symbol.now.bind }
{
    matches!(symbol.bind, Bind::Local)
}

fn is_weak_definition(symbol: &Symbol) -> bool
    ensures { result ≡ weak_definition symbol.now }
{
    matches!(symbol.bind, Bind::Weak) && matches!(symbol.home, Home::Inside(_))
}

/// What an undefined symbol is that nobody provides.
fn unprovided(symbol: &Symbol) -> Option<Target>
    ensures { result ≡ unprovided_with symbol.now }
{
    match symbol.bind {
        Bind::Weak => Some(Target::Number { value: 0 }),
        Bind::Local | Bind::Global => None,
    }
}

impl<'a> Scene<'a> {
    /// The target of a symbol that a cell of the namespace, in that state, doesn't define.
    fn undefined_target<'n>(
        &self,
        named: &mut Option<Named<'n>>,
        ns: u16,
        state: Standing,
        symbol: &'n Symbol,
    ) -> Option<Target>
        requires named { IsNamed (world_of self.now) named.old }
        requires ns { ns < length self.now.ahead.now.namespaces }
        ensures named { IsNamed (world_of self.now) named.new }
        ensures target { result ≡ undefined_with (world_of self.now) ns state symbol.now }
    {
        if is_local(symbol) {
            return None;
        }
        match self.provided_after(named, ns, state, Asked::Anyone, symbol.name.as_slice()) {
            Some(target) => Some(target),
            None => unprovided(symbol),
        }
    }

    /// The target of a symbol that the cell, in that state, defines as WEAK: it yields to a strong holder.
    fn yielding_target<'n>(
        &self,
        named: &mut Option<Named<'n>>,
        cell: &NewCell,
        state: Standing,
        symbol: &'n Symbol,
    ) -> Option<Target>
        requires named { IsNamed (world_of self.now) named.old }
        requires low { IsLow cell.now }
        requires there { In symbol.now cell.now.object.symbols }
        requires ns { cell.now.ns < length self.now.ahead.now.namespaces }
        ensures named { IsNamed (world_of self.now) named.new }
        ensures target { result ≡ yielding_with (world_of self.now) cell.now state symbol.now }
    {
        match self.provided_after(named, cell.ns, state, Asked::Strong, symbol.name.as_slice()) {
            Some(target) => Some(target),
            None => own_target(cell, symbol),
        }
    }

    /// The target of a symbol of the cell, in that state.
    fn symbol_target<'n>(
        &self,
        named: &mut Option<Named<'n>>,
        cell: &NewCell,
        state: Standing,
        symbol: &'n Symbol,
    ) -> Option<Target>
        requires named { IsNamed (world_of self.now) named.old }
        requires low { IsLow cell.now }
        requires there { In symbol.now cell.now.object.symbols }
        requires ns { cell.now.ns < length self.now.ahead.now.namespaces }
        ensures named { IsNamed (world_of self.now) named.new }
        ensures target { result ≡ target_with (seen self.now.ahead.now.namespaces (self.now.present.now ++ self.now.fresh.now) self.now.ahead.now.cells) (in_state cell.now state) symbol.now symbol.now.home }
    {
        if is_undefined(symbol) {
            return self.undefined_target(named, cell.ns, state, symbol);
        }
        if is_weak_definition(symbol) {
            return self.yielding_target(named, cell, state, symbol);
        }
        own_target(cell, symbol)
    }

    /// Lists the target of each symbol of the cell, in that state, in place of what is in the list.
    pub(crate) fn find_symbols<'n>(
        &self,
        targets: &mut Vec<Option<Target>>,
        named: &mut Option<Named<'n>>,
        cell: &'n NewCell,
        state: Standing,
    ) -> Result<(), AllocError>
        requires named { IsNamed (world_of self.now) named.old }
        requires low { IsLow cell.now }
        requires ns { cell.now.ns < length self.now.ahead.now.namespaces }
        ensures named { IsNamed (world_of self.now) named.new }
        ensures targets { OnOk result (targets.new.items ≡ targets_with (seen self.now.ahead.now.namespaces (self.now.present.now ++ self.now.fresh.now) self.now.ahead.now.cells) (in_state cell.now state)) }
    {
        let symbols = cell.object.symbols.as_slice();
        targets.clear();
        for index in 0..symbols.len() {
            targets.push(self.symbol_target(named, cell, state, &symbols[index]))?;
        }
        Ok(())
    }
}
