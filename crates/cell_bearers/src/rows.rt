//! Where the bearers of names stand.

ghost use Rattle.std.specs.Prelude.{◌≡◌, ◌<◌, ◌==◌, ◌&&◌, ℕ, All, IfOk, length, map, replicate, if◌then◌else◌};
ghost use Rattle.std.specs.List.{list_any};
ghost use Rattle.cell_bearers.specs.Namings.{is_owners};
ghost use Rattle.cell_bearers.specs.Rows.{HasSameWidths, IsThere, no_row, owned_at, row_at as row_in, row_of, width};
ghost use Rattle.cell_bearers.specs.declared.named.Owner.{Owner as SomeOwner};

use crate::named::{Naming, Owner, narrow};
use cell_described::DescribedCell;
use cell_num::Listed;
use cell_object::Object;
use std::alloc::{AllocError, Global};

/// Where the bearers of one name stand among those of all: from `start` up to `end`.
#[derive(Clone, Copy, Debug, PartialEq, Eq)]
pub struct Row {
    pub start: u32,
    pub end: u32,
}

/// For each object the rows of its symbols' names, and for each cell those of its aliases.
#[derive(Drop)]
pub struct Rows {
    pub symbols: Vec<Listed<Row>>,
    pub aliases: Vec<Listed<Row>>,
}

impl Row {
    pub fn between(start: usize, end: usize) -> Result<Row, AllocError>
        ensures { IfOk result (λ row. row ≡ row_of start end) }
    {
        Ok(Row {
            start: narrow(start as u64)?,
            end: narrow(end as u64)?,
        })
    }

    /// The row of nobody.
    pub fn none() -> Row
        ensures { result ≡ no_row }
    {
        Row { start: 0, end: 0 }
    }
}

fn no_rows(alloc: Global, count: usize) -> Result<Listed<Row>, AllocError>
    ensures { IfOk result (λ rows. rows ≡ replicate count no_row) }
{
    let mut rows = Vec::with_capacity(alloc, count)?;
    for _ in 0..count {
        rows.push(Row::none())?;
    }
    Ok(Listed::from_vec(rows))
}

fn symbol_rows(alloc: Global, objects: &[Object]) -> Result<Vec<Listed<Row>>, AllocError>
    ensures { IfOk result (λ table. table.items ≡ map (λ o. replicate (length o.symbols) no_row) objects.now) }
{
    let mut table = Vec::with_capacity(alloc, objects.len())?;
    for index in 0..objects.len() {
        table.push(no_rows(alloc, objects[index].symbols.as_slice().len())?)?;
    }
    Ok(table)
}

fn alias_rows(alloc: Global, cells: &[DescribedCell]) -> Result<Vec<Listed<Row>>, AllocError>
    ensures { IfOk result (λ table. table.items ≡ map (λ c. replicate (length c.aliases.items) no_row) cells.now) }
{
    let mut table = Vec::with_capacity(alloc, cells.len())?;
    for index in 0..cells.len() {
        table.push(no_rows(alloc, cells[index].aliases.len())?)?;
    }
    Ok(table)
}

/// What the table has at a place of one of its lists.
pub fn row_at(table: &[Listed<Row>], list: usize, place: usize) -> Row
    ensures { result ≡ row_in table.now list place }
{
    let Some(rows) = table.get(list) else {
        return Row::none();
    };
    match rows.as_slice().get(place) {
        Some(row) => *row,
        None => Row::none(),
    }
}

fn put_row(table: &mut Vec<Listed<Row>>, list: usize, place: usize, row: Row)
    requires { place < width table.old.items list }
    ensures widths { (i : ℕ) → width table.new.items i ≡ width table.old.items i }
    ensures rows { (i k : ℕ) → row_in table.new.items i k ≡ (if i == list && k == place then row else row_in table.old.items i k) }
{
    table[list].set(place, row);
}

impl Rows {
    /// One of nobody for each name.
    pub fn empty(
        alloc: Global,
        objects: &[Object],
        cells: &[DescribedCell],
    ) -> Result<Rows, AllocError>
        ensures symbols { IfOk result (λ rows. rows.symbols.items ≡ map (λ o. replicate (length o.symbols) no_row) objects.now) }
        ensures aliases { IfOk result (λ rows. rows.aliases.items ≡ map (λ c. replicate (length c.aliases.items) no_row) cells.now) }
    {
        Ok(Rows {
            symbols: symbol_rows(alloc, objects)?,
            aliases: alias_rows(alloc, cells)?,
        })
    }

    fn put(&mut self, owner: Owner, row: Row)
        requires { IsThere self.old owner }
        ensures widths { HasSameWidths self.old self.new }
        ensures rows { (o : SomeOwner) → owned_at self.new o ≡ (if is_owners o owner then row else owned_at self.old o) }
    {
        match owner {
            Owner::Need { object, symbol } => {
                put_row(&mut self.symbols, object as usize, symbol as usize, row);
            }
            Owner::Definition { object, symbol } => {
                put_row(&mut self.symbols, object as usize, symbol as usize, row);
            }
            Owner::Alias { cell, alias, .. } => {
                put_row(&mut self.aliases, cell as usize, alias as usize, row);
            }
        }
    }

    /// Gives all of these the row.
    pub fn put_all(&mut self, namings: &[Naming], row: Row)
        requires { All (λ n. IsThere self.old n.owner) namings.now }
        ensures widths { HasSameWidths self.old self.new }
        ensures rows { (o : SomeOwner) → owned_at self.new o ≡ (if list_any (λ n. is_owners o n.owner) namings.now then row else owned_at self.old o) }
    {
        for index in 0..namings.len() {
            self.put(namings[index].owner(), row);
        }
    }
}
