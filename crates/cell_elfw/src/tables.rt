//! The entries of each section.

ghost use Rattle.std.specs.Prelude.{◌≡◌, [], ◌++◌, length, IfOk, OnOk};
ghost use Rattle.std.specs.List.{flat_map};
ghost use Rattle.cell_elfw.specs.Drafts.{AreTables, IsEntryPut};
ghost use Rattle.cell_object.specs.ImageParts.{padded};
ghost use Rattle.cell_object.specs.Rows.{entry_bytes};

use crate::rows::put_entry;
use cell_object::Entry;
use std::alloc::{AllocError, Global};

/// The entries of each section, in order; the entries of section 1 stand first.
pub fn by_section(
    alloc: Global,
    count: usize,
    entries: &[Entry],
) -> Result<Vec<Vec<Entry>>, AllocError>
    ensures count { IfOk result (λ tables. length tables.items ≡ count) }
    ensures tables { IfOk result (λ tables. AreTables (λ table. table.items) entries.now tables.items) }
{
    let mut tables = Vec::new(alloc);
    for _ in 0..count {
        tables.push(Vec::new(alloc))?;
    }
    fill(entries, &mut tables)?;
    Ok(tables)
}

/// Puts each entry to those of its section.
fn fill(entries: &[Entry], tables: &mut [Vec<Entry>]) -> Result<(), AllocError>
    requires { AreTables (λ table. table.items) [] tables.old }
    ensures { OnOk result (AreTables (λ table. table.items) entries.now tables.new) }
{
    for entry in entries {
        add(entry, tables)?;
    }
    Ok(())
}

/// Puts an entry to those of its section, where there is such a section.
fn add(entry: &Entry, tables: &mut [Vec<Entry>]) -> Result<(), AllocError>
    ensures { OnOk result (IsEntryPut (λ table. table.items) entry.now tables.old tables.new) }
{
    let number = usize::from(entry.section);
    if number == 0 || number > tables.len() {
        return Ok(());
    }
    let table = &mut tables[number - 1];
    table.push(*entry)?;
    Ok(())
}

/// Where a table begins, and how many bytes it has.
#[derive(Clone, Copy)]
pub struct Extent {
    pub offset: u64,
    pub size: u64,
}

/// Appends a table of entries, whose rows need no zero bytes behind them.
pub fn put_table(entries: &[Entry], file: &mut Vec<u8>) -> Result<Extent, AllocError>
    ensures offset { IfOk result (λ extent. extent.offset ≡ length file.old.items) }
    ensures size { IfOk result (λ extent. extent.size ≡ length (flat_map entry_bytes entries.now)) }
    ensures file { OnOk result (file.new.items ≡ file.old.items ++ padded (flat_map entry_bytes entries.now)) }
{
    let offset = file.len();
    put_entries(entries, file)?;
    Ok(Extent {
        offset: offset as u64,
        size: (file.len() - offset) as u64,
    })
}

#[tactic(auto, using(crate::proofs::Numbers::entry_put))]
fn put_entries(entries: &[Entry], into: &mut Vec<u8>) -> Result<(), AllocError>
    ensures { OnOk result (into.new.items ≡ into.old.items ++ flat_map entry_bytes entries.now) }
{
    for entry in entries {
        put_entry(entry, into)?;
    }
    Ok(())
}
