//! The index of names.

ghost use Rattle.std.specs.Prelude.{◌≡◌, ◌++◌, List, All, IfOk, OnOk, filter_map};
ghost use Rattle.std.specs.List.{cons_option};
ghost use Rattle.cell_num.specs.Lists.{In};
ghost use Rattle.cell_bearers.specs.Index.{GetsRow, IsIndex, IsRowed, row_of_alias, row_of_symbol};
ghost use Rattle.cell_bearers.specs.Namings.{AreFaithful, AreInOrder, Named, bearer_of as bearer_by, borne, distinct, distinct_after, is_again as again};
ghost use Rattle.cell_bearers.specs.Rows.{IsThere, listed as listed_in};
ghost use Rattle.cell_bearers.specs.declared.bearer.Bearer.{Bearer as SomeBearer};

use crate::adding::namings_of;
use crate::bearer::Bearer;
use crate::named::{Naming, Owner, bearer_of};
use crate::order::{run_len, sort_by_name};
use crate::rows::{Row, Rows, row_at};
use cell_described::DescribedCell;
use cell_object::Object;
use std::alloc::{AllocError, Global};

/// The bearers of all names, those of one name next to each other, and the rows of the names. It has no name itself, so
/// objects may be moved.
#[derive(Drop)]
pub struct Index {
    pub bearers: Vec<Bearer>,
    pub rows: Rows,
}

/// Whether the bearer is again an alias of the last one's cell.
fn is_again(last: Option<Bearer>, bearer: Bearer) -> bool
    ensures { result ≡ again last bearer }
{
    match (last, bearer) {
        (Some(Bearer::Cell { cell: before, .. }), Bearer::Cell { cell, .. }) => before == cell,
        _ => false,
    }
}

/// Adds the bearer that the owner of a name is, if it is one and isn't another alias of the last one's cell. The answer is
/// the last one then.
fn add_bearer(
    bearers: &mut Vec<Bearer>,
    last: Option<Bearer>,
    owner: Owner,
) -> Result<Option<Bearer>, AllocError>
    ensures { IfOk result (λ next. (rest : List SomeBearer) → bearers.new.items ++ distinct_after next rest ≡ bearers.old.items ++ distinct_after last (cons_option (borne owner) rest)) }
{
    let Some(bearer) = bearer_of(owner) else {
        return Ok(last);
    };
    if is_again(last, bearer) {
        return Ok(last);
    }
    bearers.push(bearer)?;
    Ok(Some(bearer))
}

/// Adds the bearers of a name, of which these are the namings. Of a cell the first alias counts.
fn add_bearers(bearers: &mut Vec<Bearer>, namings: &[Naming]) -> Result<(), AllocError>
    ensures { OnOk result (bearers.new.items ≡ bearers.old.items ++ distinct (filter_map bearer_by namings.now)) }
{
    let mut last = None;
    for index in 0..namings.len() {
        last = add_bearer(bearers, last, namings[index].owner())?;
    }
    Ok(())
}

impl Index {
    /// Gives a name its row, where these are its namings.
    fn add_row(&mut self, namings: &[Naming]) -> Result<(), AllocError>
        requires { All (λ n. IsThere self.old.rows n.owner) namings.now }
        ensures { OnOk result (GetsRow namings.now self.old self.new) }
    {
        let start = self.bearers.len();
        add_bearers(&mut self.bearers, namings)?;
        let row = Row::between(start, self.bearers.len())?;
        self.rows.put_all(namings, row);
        Ok(())
    }

    /// Gives the names of all these their rows.
    fn add_rows(&mut self, namings: &[Naming]) -> Result<(), AllocError>
        requires order { AreInOrder namings.now }
        requires faithful { AreFaithful namings.now }
        requires there { (n : Named) → In n namings.now → IsThere self.old.rows n.owner }
        ensures { OnOk result ((n : Named) → In n namings.now → IsRowed namings.now self.new n) }
    {
        let mut start = 0;
        while start < namings.len() {
            let end = start + run_len(&namings[start..]);
            self.add_row(&namings[start..end])?;
            start = end;
        }
        Ok(())
    }

    fn listed(&self, row: Row) -> &[Bearer]
        ensures { result.now ≡ listed_in self.now.bearers.items row }
    {
        let (start, end) = (
            row.start as usize,
            (row.end as usize).min(self.bearers.len()),
        );
        if start < end {
            &self.bearers[start..end]
        } else {
            &[]
        }
    }

    /// Who bears the name of the object's GLOBAL at that place.
    pub fn of_symbol(&self, object: usize, symbol: usize) -> &[Bearer]
        ensures { result.now ≡ row_of_symbol self.now object symbol }
    {
        self.listed(row_at(&self.rows.symbols, object, symbol))
    }

    /// Who bears the name of the cell's alias, both told by their places.
    pub fn of_alias(&self, cell: usize, alias: usize) -> &[Bearer]
        ensures { result.now ≡ row_of_alias self.now cell alias }
    {
        self.listed(row_at(&self.rows.aliases, cell, alias))
    }
}

/// The index of these objects' names and these cells' aliases, which stand in the file.
pub fn index_of(
    alloc: Global,
    file: &[u8],
    objects: &[Object],
    cells: &[DescribedCell],
) -> Result<Index, AllocError>
    ensures { IfOk result (IsIndex file.now objects.now cells.now) }
{
    let mut namings = namings_of(alloc, file, objects, cells)?;
    sort_by_name(alloc, &mut namings)?;
    let mut index = Index {
        bearers: Vec::with_capacity(alloc, namings.len())?,
        rows: Rows::empty(alloc, objects, cells)?,
    };
    index.add_rows(&namings)?;
    Ok(index)
}
