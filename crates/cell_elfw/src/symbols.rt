//! The symbol table and the names of the symbols.

ghost use Rattle.std.specs.Prelude.{◌≡◌, ◌++◌, ◌≤◌, length, replicate, IfOk, OnOk};
ghost use Rattle.std.specs.List.{filter};
ghost use Rattle.cell_object.specs.Parts.{is_local as is_local_bind};
ghost use Rattle.cell_object.specs.Strings.{string, place_in};
ghost use Rattle.cell_elfw.specs.Drafts.{HoldsSymbols};
ghost use Rattle.cell_object.specs.Rows.{symbol_bytes};

use crate::rows::put_symbol;
use crate::strings::put_string;
use cell_object::{Bind, Symbol};
use std::alloc::{AllocError, Global};

/// The bytes of symbol 0.
const SYMBOL_0: [u8; 24] = [0; 24];

/// Symbol 0, in a table with room for so many symbols behind it.
fn first_row(alloc: Global, count: usize) -> Result<Vec<u8>, AllocError>
    ensures { IfOk result (λ rows. rows.items ≡ replicate 24 0) }
{
    let room = count.saturating_add(1).saturating_mul(SYMBOL_0.len());
    let mut rows = Vec::with_capacity(alloc, room)?;
    rows.extend_from_slice(&SYMBOL_0)?;
    Ok(rows)
}

/// The bytes of the symbol table and of its string table.
#[derive(Drop)]
pub struct SymbolTables {
    pub symbols: Vec<u8>,
    pub strings: Vec<u8>,
}

impl SymbolTables {
    fn add(&mut self, symtab: u64, symbol: &Symbol) -> Result<(), AllocError>
        ensures symbols { OnOk result (self.new.symbols.items ≡ self.old.symbols.items ++ symbol_bytes symtab (place_in (length self.old.strings.items) symbol.now.name) symbol.now) }
        ensures strings { OnOk result (self.new.strings.items ≡ self.old.strings.items ++ string symbol.now.name) }
    {
        let name = put_string(symbol.name.as_slice(), &mut self.strings)?;
        put_symbol(symtab, name, symbol, &mut self.symbols)
    }

    /// The tables of these symbols, where a symbol that is in no loaded section has the number `symtab`.
    pub fn of(alloc: Global, symtab: u64, symbols: &[Symbol]) -> Result<SymbolTables, AllocError>
        ensures { IfOk result (λ tables. HoldsSymbols tables.symbols.items tables.strings.items symtab symbols.now) }
    {
        let mut tables = SymbolTables {
            symbols: first_row(alloc, symbols.len())?,
            strings: Vec::from_slice(alloc, b"\0")?,
        };
        for symbol in symbols {
            tables.add(symtab, symbol)?;
        }
        Ok(tables)
    }
}

/// How many symbols are LOCAL.
pub fn local_count(symbols: &[Symbol]) -> usize
    ensures count { result ≡ length (filter (λ s. is_local_bind s.bind) symbols.now) }
    ensures most { result ≤ length symbols.now }
{
    symbols
        .iter()
        .filter(|s| matches!(s.bind, Bind::Local))
        .count()
}
