//! The targets of a cell's entries, by those of its symbols.

ghost use Rattle.std.specs.Prelude.{◌≡◌, OnOk, unwrap_or};
ghost use Rattle.cell_world.specs.Linked.Target.{naming_entry as naming};
ghost use Rattle.cell_world.specs.declared.state.Target.TheVariants.{Number as SomeNumber};
ghost use Rattle.cell_target.specs.Entries.{target_numbered, entry_target, entry_targets};

use crate::highs::Highs;
use cell_num::is_pcrel_lo12;
use cell_object::Entry;
use cell_world::Target;
use std::alloc::AllocError;

/// The target of the symbol with a number; symbol 0 is the number 0.
fn target_of_number(symbols: &[Option<Target>], number: u32) -> Option<Target>
    ensures { result ≡ target_numbered symbols.now number }
{
    match number.checked_sub(1) {
        Some(index) => symbols.get(index as usize).copied()?,
        None => Some(Target::Number { value: 0 }),
    }
}

/// A PCREL_LO12 entry names what the PCREL_HI20 entry at its label names.
fn naming_entry(highs: &Highs, entry: &Entry) -> Option<Entry>
    ensures { result ≡ naming highs.now.object.now entry.now }
{
    if is_pcrel_lo12(entry.kind) {
        highs.high_of(entry)
    } else {
        Some(*entry)
    }
}

fn target_of(symbols: &[Option<Target>], highs: &Highs, entry: &Entry) -> Option<Target>
    ensures { result ≡ entry_target symbols.now highs.now.object.now entry.now }
{
    let naming = naming_entry(highs, entry)?;
    target_of_number(symbols, naming.symbol)
}

/// A name without a provider counts as the number 0.
fn target_or_zero(symbols: &[Option<Target>], highs: &Highs, entry: &Entry) -> Target
    ensures { result ≡ unwrap_or (entry_target symbols.now highs.now.object.now entry.now) (SomeNumber 0) }
{
    target_of(symbols, highs, entry).unwrap_or(Target::Number { value: 0 })
}

/// Lists the target of each entry, in table order, in place of what is in the list.
pub fn find_entries(
    targets: &mut Vec<Target>,
    symbols: &[Option<Target>],
    highs: &Highs,
) -> Result<(), AllocError>
    ensures { OnOk result (targets.new.items ≡ entry_targets symbols.now highs.now.object.now) }
{
    let entries = highs.object.entries.as_slice();
    targets.clear();
    for index in 0..entries.len() {
        targets.push(target_or_zero(symbols, highs, &entries[index]))?;
    }
    Ok(())
}
