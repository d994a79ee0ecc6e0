//! The names that an object defines.

ghost use Rattle.std.specs.Prelude.{◌≡◌, ◌<◌, ◌^◌, ◌++◌, ◌∷◌, [], IfOk, OnOk, false, true, length};
ghost use Rattle.cell_num.specs.Lists.{each_pair};
ghost use Rattle.cell_object.specs.Parts.{is_local};
ghost use Rattle.cell_object.specs.Sound.{may_both_be};
ghost use Rattle.cell_world.specs.Names.{has_name, definitions_of, weak_definitions_of};
ghost use Rattle.cell_world.specs.Coherent.{IsLoadable};
ghost use Rattle.cell_gather.specs.Appending.{definitions_from, is_bind as same_bind, is_defined_as as defined_as};

use cell_object::{Bind, Home, Object, Symbol};
use cell_space::NameRows;
use std::alloc::{AllocError, Global};

fn is_bind(bind: Bind, other: Bind) -> bool
    ensures { result ≡ same_bind bind other }
{
    match bind {
        Bind::Local => matches!(other, Bind::Local),
        Bind::Global => matches!(other, Bind::Global),
        Bind::Weak => matches!(other, Bind::Weak),
    }
}

/// Whether the object defines the symbol, with that binding.
fn is_defined_as(symbol: &Symbol, bind: Bind) -> bool
    ensures { result ≡ defined_as bind symbol.now }
{
    is_bind(bind, symbol.bind) && matches!(symbol.home, Home::Inside(_))
}

/// Adds the symbol of a number, where it is defined with the binding.
fn add_symbol(
    names: &mut NameRows,
    alloc: Global,
    bind: Bind,
    symbol: &Symbol,
    number: u32,
) -> Result<(), AllocError>
    requires { defined_as bind symbol.now ≡ true → has_name names.old symbol.now.name ≡ false }
    ensures { OnOk result (names.new ≡ names.old ++ definitions_from bind number (symbol.now ∷ [])) }
{
    if is_defined_as(symbol, bind) {
        names.add(alloc, symbol.name.as_slice(), number)?;
    }
    Ok(())
}

/// The definitions with a binding among symbols, which are numbered from 1.
fn definitions_among(alloc: Global, bind: Bind, symbols: &[Symbol]) -> Result<NameRows, AllocError>
    requires named { is_local bind ≡ false }
    requires apart { each_pair may_both_be symbols.now ≡ true }
    requires few { length symbols.now < 2 ^ 32 }
    ensures { IfOk result (λ names. names ≡ definitions_from bind 1 symbols.now) }
{
    let mut names = NameRows::new(alloc);
    for (place, symbol) in symbols.iter().enumerate() {
        add_symbol(&mut names, alloc, bind, symbol, place as u32 + 1)?;
    }
    Ok(names)
}

/// The GLOBAL symbols that the object defines, in the order of its symbols.
pub fn definitions(alloc: Global, object: &Object) -> Result<NameRows, AllocError>
    requires { IsLoadable object.now }
    ensures { IfOk result (λ names. names ≡ definitions_of object.now) }
{
    definitions_among(alloc, Bind::Global, object.symbols.as_slice())
}

/// The WEAK symbols that the object defines, in the order of its symbols.
pub fn weak_definitions(alloc: Global, object: &Object) -> Result<NameRows, AllocError>
    requires { IsLoadable object.now }
    ensures { IfOk result (λ names. names ≡ weak_definitions_of object.now) }
{
    definitions_among(alloc, Bind::Weak, object.symbols.as_slice())
}
