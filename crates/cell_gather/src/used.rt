//! The names that an object needs.

ghost use Rattle.std.specs.Prelude.{◌≡◌, ◌==◌, ◌&&◌, ◌++◌, ◌∷◌, [], ℕ, IfOk, OnOk};
ghost use Rattle.std.specs.Ordering.{nat_cmp};
ghost use Rattle.std.specs.List.{list_any};
ghost use Rattle.std.specs.BTreeSet.{contains};
ghost use Rattle.cell_object.specs.Parts.{is_global, is_undefined};
ghost use Rattle.cell_world.specs.Names.{needs_of};
ghost use Rattle.cell_gather.specs.Appending.{is_need as need, needs_from};

use cell_num::Name;
use cell_object::{Bind, Entry, Home, Object, Symbol};
use std::alloc::{AllocError, Global};
use std::collections::BTreeSet;

/// An object with the numbers of the symbols that its entries name.
#[derive(Drop)]
struct Used<'a> {
    object: &'a Object,
    symbols: BTreeSet<u64>,
    ghost are: { (q : ℕ) → contains nat_cmp symbols q ≡ list_any (λ e. e.symbol == q) object.now.entries },
}

/// The numbers of the symbols that entries name.
fn used_symbols(alloc: Global, entries: &[Entry]) -> Result<BTreeSet<u64>, AllocError>
    ensures { IfOk result (λ set. (q : ℕ) → contains nat_cmp set q ≡ list_any (λ e. e.symbol == q) entries.now) }
{
    let mut used = BTreeSet::new(alloc);
    for entry in entries {
        let symbol = entry.symbol;
        used.insert(u64::from(symbol))?;
    }
    Ok(used)
}

fn is_undefined_global(symbol: &Symbol) -> bool
    ensures { result ≡ (is_global symbol.now.bind && is_undefined symbol.now.home) }
{
    symbol.bind == Bind::Global && matches!(symbol.home, Home::Undef)
}

impl<'a> Used<'a> {
    fn by(alloc: Global, object: &'a Object) -> Result<Used<'a>, AllocError>
        ensures { IfOk result (λ used. used.object.now ≡ object.now) }
    {
        let symbols = used_symbols(alloc, object.entries.as_slice())?;
        Ok(Used { object, symbols })
    }

    /// Whether the symbol of a number is a need.
    fn is_need(&self, number: u64, symbol: &Symbol) -> bool
        ensures { result ≡ need self.now.object.now number symbol.now }
    {
        is_undefined_global(symbol) && self.symbols.contains(&number)
    }

    /// Adds the name of the symbol of a number, where it is a need.
    fn add_need(
        &self,
        alloc: Global,
        names: &mut Vec<Name>,
        symbol: &Symbol,
        number: u64,
    ) -> Result<(), AllocError>
        ensures { OnOk result (names.new.items ≡ names.old.items ++ needs_from self.now.object.now number (symbol.now ∷ [])) }
    {
        if self.is_need(number, symbol) {
            let name = Name::of(alloc, symbol.name.as_slice())?;
            names.push(name)?;
        }
        Ok(())
    }

    /// The needs among symbols, which are numbered from 1.
    fn needs_among(&self, alloc: Global, symbols: &[Symbol]) -> Result<Vec<Name>, AllocError>
        ensures { IfOk result (λ names. names.items ≡ needs_from self.now.object.now 1 symbols.now) }
    {
        let mut names = Vec::new(alloc);
        for (place, symbol) in symbols.iter().enumerate() {
            self.add_need(alloc, &mut names, symbol, place as u64 + 1)?;
        }
        Ok(names)
    }
}

/// The names of the undefined GLOBALs that entries name, in the order of the symbols.
pub fn needs(alloc: Global, object: &Object) -> Result<Vec<Name>, AllocError>
    ensures { IfOk result (λ names. names.items ≡ needs_of object.now) }
{
    let used = Used::by(alloc, object)?;
    used.needs_among(alloc, object.symbols.as_slice())
}
