//! Names, and whose they are.

ghost use Rattle.std.specs.Prelude.{◌≡◌, IfOk};
ghost use Rattle.cell_bearers.specs.Key.{key_of};
ghost use Rattle.cell_bearers.specs.Namings.{borne, named, symbol_owner};

use crate::bearer::Bearer;
use crate::key::key_of;
use cell_object::{Symbol, is_definition};
use std::alloc::AllocError;
use std::marker::Model;

/// Whose a name is, by places: a GLOBAL that an object defines, another of its symbols, which bears no name strongly, or the
/// alias of a cell, with the symbol that it is on. Symbols are counted from 0. There may be millions of these, so an alias's
/// cell and symbol have 16 bits: no more than 1,024 cells can be, and no file of 1 MiB has 65,536 symbols.
#[derive(Clone, Copy, Debug, PartialEq, Eq)]
pub enum Owner {
    Need { object: u32, symbol: u32 },
    Definition { object: u32, symbol: u32 },
    Alias { cell: u16, alias: u32, symbol: u16 },
}

/// A name, a number for it by which it is sorted, and whose it is. Contracts see a record of the name and its owner.
#[derive(Drop)]
pub struct Naming<'a> {
    name: &'a [u8],
    key: u32,
    owner: Owner,
}

impl<'a> Model for Naming<'a> {
    ghost use Rattle.std.specs.Prelude.{◌≡◌};
    ghost use Rattle.cell_bearers.specs.Key.{key_of};
    ghost use Rattle.cell_bearers.specs.Namings.{Named, named};

    ghost Value = { Named };

    ghost view = { λ n. named n.name.now n.owner };

    ghost invariant = { λ n. n.key ≡ key_of n.name.now };
}

impl<'a> Naming<'a> {
    pub fn new(name: &'a [u8], owner: Owner) -> Naming<'a>
        ensures { result ≡ named name.now owner }
    {
        let key = key_of(name);
        Naming { name, key, owner }
    }

    pub fn name(&self) -> &'a [u8]
        ensures { result.now ≡ self.now.name }
    {
        self.name
    }

    /// The name's number.
    pub fn key(&self) -> u32
        ensures { result ≡ key_of self.now.name }
    {
        self.key
    }

    pub fn owner(&self) -> Owner
        ensures { result ≡ self.now.owner }
    {
        self.owner
    }
}

/// The number in 32 bits. A table of more rows than those can count isn't made: it counts as want of memory.
pub fn narrow(number: u64) -> Result<u32, AllocError>
    ensures { IfOk result (λ narrow. narrow ≡ number) }
{
    if number > u64::from(u32::MAX) {
        return Err(AllocError);
    }
    Ok(number as u32)
}

/// The number in 16 bits, as above.
pub fn halved(number: u64) -> Result<u16, AllocError>
    ensures { IfOk result (λ halved. halved ≡ number) }
{
    if number > u64::from(u16::MAX) {
        return Err(AllocError);
    }
    Ok(number as u16)
}

/// Whose name it is of the object's symbol at that place.
pub fn symbol_owner(object: usize, place: usize, symbol: &Symbol) -> Result<Owner, AllocError>
    ensures { IfOk result (λ owner. owner ≡ symbol_owner object (place, symbol.now)) }
{
    let object = narrow(object as u64)?;
    let place = narrow(place as u64)?;
    if is_definition(symbol) {
        return Ok(Owner::Definition {
            object,
            symbol: place,
        });
    }
    Ok(Owner::Need {
        object,
        symbol: place,
    })
}

/// The bearer that an owner of a name is, if it is one.
pub fn bearer_of(owner: Owner) -> Option<Bearer>
    ensures { result ≡ borne owner }
{
    match owner {
        Owner::Need { .. } => None,
        Owner::Definition { object, symbol } => Some(Bearer::Object { object, symbol }),
        Owner::Alias { cell, symbol, .. } => Some(Bearer::Cell {
            cell: u32::from(cell),
            symbol: u32::from(symbol),
        }),
    }
}
