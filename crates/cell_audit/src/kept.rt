//! What is kept of the lines of a dump.

ghost use Rattle.std.specs.Prelude.{◌≡◌, ◌<◌, ◌≤◌, ◌+◌, ◌*◌, ◌^◌, [], ◌∷◌, ◌++◌, length, IfSome, OnOk, vec_len};
ghost use Rattle.cell_num.specs.Limits.{page_size};
ghost use Rattle.cell_audit.specs.Kept.{Fits, HasAlias, HasPlace, HasRoom, HasSpace, IsNothing, Keeps, LastGoes, alias_of};

use crate::dump::{Line, Lines};
use crate::told_bytes::Told;
use crate::wide::Wide;
use crate::written::{WrittenAlias, WrittenCell, WrittenPlace};
use cell_num::{Name, PAGE_SIZE};
use cell_world::{DumpLine, Namespace};
use std::alloc::{AllocError, Global};

/// What the lines of a dump say, as it is needed once they were read. Its links and providers aren't kept, since they are
/// only compared with those of the machine linked anew.
#[derive(Drop)]
pub struct WrittenDump {
    /// Where the memory begins.
    pub base: u64,
    /// How many pages it has.
    pub pages: u64,
    pub namespaces: Vec<Namespace>,
    pub cells: Vec<WrittenCell>,
    /// The bytes of the memory; of two lines that cover an address the first counts.
    pub told: Told,
    /// All lines of the dump.
    pub lines: Lines,
}

impl WrittenDump {
    /// Nothing of the lines.
    pub(crate) fn nothing(alloc: Global, lines: Lines) -> WrittenDump
        ensures { IsNothing lines result }
    {
        WrittenDump {
            base: 0,
            pages: 0,
            namespaces: Vec::new(alloc),
            cells: Vec::new(alloc),
            told: Told::empty(alloc),
            lines,
        }
    }

    /// Keeps what the line says. After an error it is good for nothing.
    pub(crate) fn keep(
        &mut self,
        alloc: Global,
        said: DumpLine,
        line: Line,
    ) -> Result<(), AllocError>
        requires fits { Fits line said }
        requires room { HasRoom said self.old.cells.items }
        requires small { line.end < 2 ^ 32 }
        ensures { OnOk result (Keeps line said self.old self.new) }
    {
        match said {
            DumpLine::Space { base, pages } => self.keep_space(alloc, base, pages),
            DumpLine::Ns { name, parent, .. } => {
                let parent = small_parent(parent);
                add_namespace(&mut self.namespaces, Namespace { name, parent })
            }
            DumpLine::Cell {
                cell,
                ns,
                stem,
                file,
                group,
            } => {
                let cell = WrittenCell {
                    line: line.number,
                    cell: cell as u32,
                    ns: ns as u16,
                    stem,
                    file,
                    group,
                    places: Vec::new(alloc),
                    aliases: Vec::new(alloc),
                };
                add_cell(&mut self.cells, cell)
            }
            DumpLine::Place { section, start, .. } => {
                let line = line.number;
                let place = WrittenPlace {
                    line,
                    section,
                    start,
                };
                add_place(&mut self.cells, place)
            }
            DumpLine::Alias { symbol, name, .. } => {
                let alias = alias_at(line, symbol, &name);
                add_alias(&mut self.cells, alias)
            }
            DumpLine::Content { addr, bytes, .. } => {
                self.told.put(addr, bytes.as_slice());
                Ok(())
            }
            DumpLine::Link { .. } | DumpLine::Provider { .. } | DumpLine::End => Ok(()),
        }
    }

    fn keep_space(&mut self, alloc: Global, base: u64, pages: u64) -> Result<(), AllocError>
        requires { base + page_size * pages < 2 ^ 64 }
        ensures { OnOk result (HasSpace base pages self.old self.new) }
    {
        self.told = Told::of(alloc, base, (pages * PAGE_SIZE) as usize)?;
        self.base = base;
        self.pages = pages;
        Ok(())
    }
}

fn small_parent(parent: Option<u64>) -> Option<u16>
    requires { IfSome parent (λ number. number < 2 ^ 16) }
    ensures { result ≡ parent }
{
    match parent {
        Some(number) => Some(number as u16),
        None => None,
    }
}

/// The alias of a line, whose last word is the name.
fn alias_at(line: Line, symbol: u64, name: &Name) -> WrittenAlias
    requires fits { length name.now ≤ line.end }
    requires small { line.end < 2 ^ 32 }
    ensures { result ≡ alias_of line symbol name.now }
{
    WrittenAlias {
        line: line.number,
        symbol: Wide::of(symbol),
        name_start: (line.end - name.bytes().len()) as u32,
        name_end: line.end as u32,
    }
}

fn add_namespace(namespaces: &mut Vec<Namespace>, namespace: Namespace) -> Result<(), AllocError>
    ensures { OnOk result (namespaces.new.items ≡ namespaces.old.items ++ namespace ∷ []) }
{
    namespaces.push(namespace)?;
    Ok(())
}

fn add_cell(cells: &mut Vec<WrittenCell>, cell: WrittenCell) -> Result<(), AllocError>
    ensures { OnOk result (cells.new.items ≡ cells.old.items ++ cell ∷ []) }
{
    cells.push(cell)?;
    Ok(())
}

/// Adds the place to the last cell.
fn add_place(cells: &mut Vec<WrittenCell>, place: WrittenPlace) -> Result<(), AllocError>
    requires { 0 < vec_len cells.old }
    ensures { OnOk result (LastGoes (HasPlace place) cells.old.items cells.new.items) }
{
    let last = cells.len() - 1;
    cells[last].places.push(place)?;
    Ok(())
}

/// Adds the alias to the last cell.
fn add_alias(cells: &mut Vec<WrittenCell>, alias: WrittenAlias) -> Result<(), AllocError>
    requires { 0 < vec_len cells.old }
    ensures { OnOk result (LastGoes (HasAlias alias) cells.old.items cells.new.items) }
{
    let last = cells.len() - 1;
    cells[last].aliases.push(alias)?;
    Ok(())
}
