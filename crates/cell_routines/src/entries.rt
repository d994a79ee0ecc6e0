//! The places of a new cell at which a routine may begin.

ghost use Rattle.std.specs.Prelude.{◌≡◌, ◌==◌, ◌%◌, ◌+◌, ◌&&◌, IfOk, IsTrue, is_some, nat_le, nat_lt};
ghost use Rattle.cell_num.specs.Lists.{each_pair};
ghost use Rattle.cell_layout.specs.Layout.{offsets_of};
ghost use Rattle.cell_world.specs.Before.{AreBefore};
ghost use Rattle.cell_world.specs.Coherent.{IsLoadable};
ghost use Rattle.cell_world.specs.Commands.SpawnCommand.{entry_offset};
ghost use Rattle.cell_routines.specs.Begins.{begin_at, begin_in, section_number};

use cell_layout::lay_out;
use cell_num::CellId;
use cell_object::{Home, Section, Symbol};
use cell_placed::symbol_at;
use cell_world::{NewCell, SecPlace};
use std::alloc::{AllocError, Global};

/// A place in a section of a new cell, at which a routine may begin.
#[derive(Clone, Copy, Debug, PartialEq, Eq)]
pub struct Begin {
    pub cell: CellId,
    pub section: u16,
    pub offset: u64,
}

/// Whether whole instructions begin at an offset of a section, which starts that far behind the start of its class.
fn is_entry(section: &Section, start: u64, offset: u64) -> bool
    ensures { result ≡ (section.now.exec && (start + offset) % 4 == 0 && nat_le (offset + 4) section.now.size) }
{
    // A sum that wraps has the same rest, since 2^64 is a multiple of 4.
    section.exec
        && start.wrapping_add(offset) % 4 == 0
        && offset.saturating_add(4) <= u64::from(section.size)
}

/// How many of the sections, which are in the order of their numbers, have a lower number.
fn sections_before(sections: &[Section], number: u16) -> usize
    requires { IsTrue (each_pair (λ a b. nat_lt a.number b.number) sections.now) }
    ensures { AreBefore section_number number sections.now result }
{
    sections.partition_point(
        |section: &Section| -> bool
            ensures { result ≡ nat_lt section.now.number number }
        { section.number < number },
    )
}

/// A cell, which needs no places yet, with its sections' offsets in their classes.
#[derive(Drop)]
pub struct Entries<'a> {
    pub cell: &'a NewCell,
    offsets: Vec<SecPlace>,
    ghost rising: { IsTrue (each_pair (λ a b. nat_lt a.number b.number) cell.now.object.sections) },
    ghost laid_out: { offsets.items ≡ offsets_of cell.now.object.sections },
}

impl<'a> Entries<'a> {
    /// Lays the sections of a cell out.
    pub fn of(alloc: Global, cell: &'a NewCell) -> Result<Entries<'a>, AllocError>
        requires { IsLoadable cell.now.object }
        ensures { IfOk result (λ entries. entries.cell.now ≡ cell.now) }
    {
        let layout = lay_out(alloc, cell.object.sections.as_slice())?;
        Ok(Entries {
            cell,
            offsets: layout.offsets,
        })
    }

    /// The place at an offset of a section.
    fn at(&self, number: u16, offset: u64) -> Option<Begin>
        ensures { result ≡ begin_at self.now.cell.now number offset }
    {
        let sections = self.cell.object.sections.as_slice();
        let place = sections_before(sections, number);
        let section = sections.get(place)?;
        if section.number != number {
            return None;
        }
        if !is_entry(section, self.offsets[place].start, offset) {
            return None;
        }
        Some(Begin {
            cell: self.cell.id,
            section: number,
            offset,
        })
    }

    /// The place of a symbol of the cell.
    pub fn of_symbol(&self, symbol: &Symbol) -> Option<Begin>
        ensures { result ≡ begin_in self.now.cell.now symbol.now }
    {
        match symbol.home {
            Home::Inside(section) => self.at(section, symbol.value),
            Home::Undef | Home::Abs | Home::Elsewhere => None,
        }
    }
}

/// Whether a task may begin at the cell's symbol of that number.
pub fn can_begin_at(alloc: Global, cell: &NewCell, symbol: u32) -> Result<bool, AllocError>
    requires { IsLoadable cell.now.object }
    ensures { IfOk result (λ can. can ≡ is_some (entry_offset cell.now.object symbol)) }
{
    let entries = Entries::of(alloc, cell)?;
    match symbol_at(&cell.object, symbol) {
        Some(symbol) => Ok(entries.of_symbol(symbol).is_some()),
        None => Ok(false),
    }
}
