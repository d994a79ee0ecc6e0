//! The relocation entries of an object.

ghost use Rattle.std.specs.Prelude.{◌≡◌, ◌≤◌, ◌++◌, filter, find, flat_map, map, option_map, length, IfOk, OnOk};
ghost use Rattle.cell_asm.specs.Places.{is_at as stands_at};
ghost use Rattle.cell_asm.specs.Progress.{is_upper_spot, key_lost_by, lost_by};
ghost use Rattle.cell_asm.specs.Numberings.{entry_kept, part_entries};

use crate::place::Progress;
use crate::reference::Reference;
use crate::section::{is_at, part_number};
use crate::statement::{Key, Part, Spot};
use crate::symbol::Symbols;
use cell_num::{Listed, is_pcrel_lo12};
use cell_object::Entry;
use std::alloc::{AllocError, Global};

/// The number of the first line with `%pcrel_lo` of a name that is no label of an instruction with
/// `%pcrel_hi` or `%got_pcrel_hi`.
pub fn first_lost<'a>(kept: &Progress<'a>) -> Option<u32>
    ensures { result ≡ option_map (λ r. r.line) (find (lost_by kept.now) kept.now.references.items) }
{
    for reference in &kept.references {
        if is_lost(kept, reference) {
            return Some(reference.line);
        }
    }
    None
}

fn is_lost<'a>(kept: &Progress<'a>, reference: &Reference<'a>) -> bool
    ensures { result ≡ lost_by kept.now reference.now }
{
    is_pcrel_lo12(reference.kind) && is_lost_key(kept, &reference.key)
}

fn is_lost_key<'a>(kept: &Progress<'a>, key: &Key<'a>) -> bool
    ensures { result ≡ key_lost_by kept.now key.now }
{
    match key {
        Key::Named(name) => !is_upper(kept, kept.spots.get(name.bytes())),
        Key::Made(_) => false,
    }
}

/// Whether the label stands in `.text` at an instruction with `%pcrel_hi` or `%got_pcrel_hi`.
fn is_upper(kept: &Progress<'_>, spot: Option<Spot>) -> bool
    ensures { result ≡ is_upper_spot kept.now spot }
{
    match spot {
        Some(spot) => matches!(spot.part, Part::Text) && kept.uppers.contains(&spot.offset),
        None => false,
    }
}

/// The entries, by the number of their section and then in the order of the source.
pub fn entries<'a>(
    alloc: Global,
    kept: &Progress<'a>,
    symbols: &Symbols<'a>,
) -> Result<Listed<Entry>, AllocError>
    requires { length kept.now.parts.items ≤ 4 }
    ensures { IfOk result (λ entries. entries ≡ flat_map (part_entries kept.now symbols.now) kept.now.parts.items) }
{
    let mut entries = Vec::new(alloc);
    for part in &kept.parts {
        put_entries(&mut entries, kept, symbols, *part)?;
    }
    Ok(Listed::from_vec(entries))
}

/// Appends the entries of a section.
fn put_entries<'a>(
    entries: &mut Vec<Entry>,
    kept: &Progress<'a>,
    symbols: &Symbols<'a>,
    part: Part,
) -> Result<(), AllocError>
    requires { length kept.now.parts.items ≤ 4 }
    ensures { OnOk result (entries.new.items ≡ entries.old.items ++ part_entries kept.now symbols.now part) }
{
    let section = part_number(&kept.parts, part);
    for reference in &kept.references {
        if is_at(part, reference.part) {
            entries.push(entry(section, symbols, reference))?;
        }
    }
    Ok(())
}

fn entry<'a>(section: u16, symbols: &Symbols<'a>, reference: &Reference<'a>) -> Entry
    ensures { result ≡ entry_kept section symbols.now reference.now }
{
    Entry {
        section,
        offset: reference.offset,
        kind: reference.kind,
        symbol: symbols.number(&reference.key),
        addend: reference.addend,
    }
}
