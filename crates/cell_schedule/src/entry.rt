//! Where a task may begin.

ghost use Rattle.std.specs.Prelude.{◌≡◌, ◌<◌, IfOk, length, option_map};
ghost use Rattle.cell_world.specs.Following.{Follows};
ghost use Rattle.cell_machine.specs.Machine.{IsSound, world_of};
ghost use Rattle.cell_world.specs.declared.refusal.Refusal.TheVariants.{NoEntry as NoSuchEntry};
ghost use Rattle.cell_world.specs.Outcome.{found};
ghost use Rattle.cell_world.specs.Commands.SpawnCommand.{entry_named};
ghost use Rattle.cell_schedule.specs.Starts.{entry_as, entry_at as entry_of, entry_in as entry_inside, is_entry_at};

use cell_machine::Machine;
use cell_num::{CellId, Name};
use cell_object::Section;
use cell_placed::section_of;
use cell_world::{Fail, NewCell, Refusal, Target};
use std::alloc::{AllocError, Global};

/// The cell that provides a name, and the address where a task may begin.
#[derive(Clone, Copy, Debug, PartialEq, Eq)]
pub struct Entry {
    pub cell: CellId,
    pub addr: u64,
}

/// A whole instruction is there, at a multiple of 4 in a section that may be executed.
fn is_entry(section: &Section, offset: u64, addr: u64) -> bool
    ensures { result ≡ is_entry_at section.now offset addr }
{
    section.exec && addr % 4 == 0 && offset.saturating_add(4) <= u64::from(section.size)
}

fn entry_in(cell: &NewCell, section: u16, offset: u64, addr: u64) -> Option<Entry>
    ensures { option_map entry_as result ≡ entry_inside cell.now section offset addr }
{
    let section = section_of(&cell.object, u32::from(section))?;
    if !is_entry(section, offset, addr) {
        return None;
    }
    Some(Entry {
        cell: cell.id,
        addr,
    })
}

/// The entry that a target is.
fn entry_at(machine: &Machine, target: Target) -> Option<Entry>
    requires { IsSound machine.now }
    ensures { option_map entry_as result ≡ entry_of (world_of machine.now) target }
{
    match target {
        Target::Section { key, offset, addr } => {
            let cell = machine.cell(key.cell.0)?;
            entry_in(cell, key.section, offset, addr)
        }
        Target::Number { .. } => None,
    }
}

/// The entry that the provider of a name for a namespace has, if it has one. This takes no memory.
pub fn find_entry(machine: &Machine, ns: u16, symbol: &[u8]) -> Option<Entry>
    requires sound { IsSound machine.now }
    requires ns { ns < length machine.now.spaces.namespaces }
    ensures { option_map entry_as result ≡ entry_named (world_of machine.now) ns symbol.now }
{
    let target = machine.provided(ns, symbol)?;
    entry_at(machine, target)
}

/// E10: no task can begin where the name is, or nobody provides it.
fn no_entry(alloc: Global, symbol: &[u8]) -> Result<Refusal, AllocError>
    ensures { IfOk result (λ refusal. refusal ≡ NoSuchEntry symbol.now) }
{
    Ok(Refusal::NoEntry {
        name: Name::of(alloc, symbol)?,
    })
}

/// The entry that the provider of a name for a namespace has.
pub fn entry_for(alloc: Global, machine: &Machine, ns: u16, symbol: &[u8]) -> Result<Entry, Fail>
    requires sound { IsSound machine.now }
    requires ns { ns < length machine.now.spaces.namespaces }
    ensures { Follows entry_as result (found (entry_named (world_of machine.now) ns symbol.now) (NoSuchEntry symbol.now)) }
{
    match find_entry(machine, ns, symbol) {
        Some(entry) => Ok(entry),
        None => Err(Fail::Refused(no_entry(alloc, symbol)?)),
    }
}
