//! Walks over the links of a section.

ghost use Rattle.std.specs.Prelude.{◌≡◌, ◌+◌, ◌<◌, Some, length};
ghost use Rattle.std.specs.Iterator.{YieldsFirst, item_count};
ghost use Rattle.std.specs.List.{AllByRecursion};
ghost use Rattle.slab.specs.Slab.{ContainsKey, get};

use crate::order::{RowPlace, is_same};
use crate::rows::{ChainRow, Rows};
use crate::steps::Steps;
use cell_num::SecKey;
use cell_world::LinkRow;
use std::marker::{Brand, Model};
use std::sync::ledger::{Blank, Ledger};

/// Links of one cell, as the list names them. The walks alone look at them.
#[derive(Drop)]
pub struct CellRows<'a> {
    list: &'a [RowPlace],
}

impl<'a> Model for CellRows<'a> {
    ghost use Rattle.std.specs.Prelude.{List};
    ghost use Rattle.cell_graph.specs.declared.order.RowPlace.{RowPlace};

    ghost Value = { List RowPlace };

    ghost view = { λ r. r.list.now };
}

impl<'a> CellRows<'a> {
    pub fn of(list: &'a [RowPlace]) -> CellRows<'a>
        ensures { result ≡ list.now }
    {
        CellRows { list }
    }
}

/// Reads a link with a counter of its own, which nobody else sees.
fn read_counted<L: Ledger>(rows: &Rows, place: usize, blank: Blank) -> ChainRow
    requires name { blank.name ≡ L.name }
    requires parts { blank.parts ≡ L.parts }
    requires countable { 0 < blank.parts }
    requires stands { ContainsKey rows.now place }
    ensures { get rows.now place ≡ Some result }
{
    let mut steps = Steps::<L>::new(blank);
    rows.read(place, &mut steps)
}

/// The links whose user is a section, each once. Contracts see those that are still to come.
#[derive(Drop)]
pub struct Deps<'a> {
    rows: &'a Rows,
    list: &'a [RowPlace],
    user: SecKey,
}

impl<'a> Model for Deps<'a> {
    ghost use Rattle.std.specs.Prelude.{List};
    ghost use Rattle.std.specs.List.{AllByRecursion};
    ghost use Rattle.slab.specs.Slab.{get};
    ghost use Rattle.cell_world.specs.declared.state.LinkRow.{LinkRow as Row};
    ghost use Rattle.cell_graph.specs.Listed.{IsListed};
    ghost use Rattle.cell_graph.specs.Walks.{named_deps};

    ghost Value = { List Row };

    ghost view = { λ d. named_deps (get d.rows.now) d.user d.list.now };

    ghost invariant = { λ d. AllByRecursion (λ r. IsListed (get d.rows.now) r) d.list.now };
}

impl<'a> Deps<'a> {
    ghost use Rattle.cell_graph.specs.Listed.{IsListed};
    ghost use Rattle.cell_graph.specs.Walks.{named_deps};

    pub(crate) fn of(rows: &'a Rows, list: CellRows<'a>, user: SecKey) -> Deps<'a>
        requires { AllByRecursion (λ r. IsListed (get rows.now) r) list }
        ensures { result ≡ named_deps (get rows.now) user list.entry }
    {
        Deps {
            rows,
            list: list.list,
            user,
        }
    }
}

impl<'a> Iterator for Deps<'a> {
    type Item = LinkRow;

    ghost next_gives = { YieldsFirst (λ s. s) };

    ghost remaining = { item_count (λ s. s) };

    fn next(&mut self) -> Option<LinkRow> {
        while let [at, rest @ ..] = self.list {
            self.list = rest;
            if is_same(at.user, self.user) {
                return Some(read_counted::<Brand>(self.rows, at.place, Blank::new(1)).row);
            }
        }
        None
    }
}

/// The links whose users are sections of a cell. Contracts see those that are still to come.
#[derive(Drop)]
pub struct CellDeps<'a> {
    rows: &'a Rows,
    list: &'a [RowPlace],
}

impl<'a> Model for CellDeps<'a> {
    ghost use Rattle.std.specs.Prelude.{List, map};
    ghost use Rattle.std.specs.List.{AllByRecursion};
    ghost use Rattle.slab.specs.Slab.{get};
    ghost use Rattle.cell_world.specs.declared.state.LinkRow.{LinkRow as Row};
    ghost use Rattle.cell_graph.specs.Listed.{IsListed};
    ghost use Rattle.cell_graph.specs.Places.{link_at};

    ghost Value = { List Row };

    ghost view = { λ d. map (link_at (get d.rows.now)) d.list.now };

    ghost invariant = { λ d. AllByRecursion (λ r. IsListed (get d.rows.now) r) d.list.now };
}

impl<'a> CellDeps<'a> {
    ghost use Rattle.std.specs.Prelude.{map};
    ghost use Rattle.cell_graph.specs.Listed.{IsListed};
    ghost use Rattle.cell_graph.specs.Places.{link_at};

    pub(crate) fn of(rows: &'a Rows, list: CellRows<'a>) -> CellDeps<'a>
        requires { AllByRecursion (λ r. IsListed (get rows.now) r) list }
        ensures { result ≡ map (link_at (get rows.now)) list.entry }
    {
        CellDeps {
            rows,
            list: list.list,
        }
    }
}

impl<'a> Iterator for CellDeps<'a> {
    type Item = LinkRow;

    ghost next_gives = { YieldsFirst (λ s. s) };

    ghost remaining = { item_count (λ s. s) };

    fn next(&mut self) -> Option<LinkRow> {
        let [at, rest @ ..] = self.list else {
            return None;
        };
        self.list = rest;
        Some(read_counted::<Brand>(self.rows, at.place, Blank::new(1)).row)
    }
}

/// The links whose target is a section, each once. Contracts see those that are still to come.
#[derive(Drop)]
pub struct Users<'a> {
    rows: &'a Rows,
    first: Option<usize>,
    left: usize,
}

impl<'a> Model for Users<'a> {
    ghost use Rattle.std.specs.Prelude.{List};
    ghost use Rattle.slab.specs.Slab.{get};
    ghost use Rattle.cell_world.specs.declared.state.LinkRow.{LinkRow as Row};
    ghost use Rattle.cell_graph.specs.Walks.{IsRun, walked};

    ghost Value = { List Row };

    ghost view = { λ u. walked (get u.rows.now) u.left u.first };

    ghost invariant = { λ u. IsRun (get u.rows.now) u.first u.left };
}

impl<'a> Users<'a> {
    ghost use Rattle.cell_graph.specs.Walks.{IsRun, walked};

    pub(crate) fn of(rows: &'a Rows, first: Option<usize>, left: usize) -> Users<'a>
        requires { IsRun (get rows.now) first left }
        ensures { result ≡ walked (get rows.now) left first }
    {
        Users { rows, first, left }
    }

    /// The next link, for a caller that counts. Each link that is given is one step.
    pub(crate) fn step<L: Ledger>(&mut self, steps: &mut Steps<L>) -> Option<LinkRow>
        ensures goes { YieldsFirst (λ s. s) self.old result self.new }
        ensures steps { steps.new + length self.new ≡ steps.old + length self.old }
    {
        let place = self.first?;
        let chain = self.rows.read(place, steps);
        self.left -= 1;
        self.first = chain.after;
        Some(chain.row)
    }
}

/// The next link, read with a counter of its own, which nobody else sees.
fn step_counted<L: Ledger>(users: &mut Users<'_>, blank: Blank) -> Option<LinkRow>
    requires name { blank.name ≡ L.name }
    requires parts { blank.parts ≡ L.parts }
    requires countable { 0 < blank.parts }
    ensures { YieldsFirst (λ s. s) users.old result users.new }
{
    let mut steps = Steps::<L>::new(blank);
    users.step(&mut steps)
}

impl<'a> Iterator for Users<'a> {
    type Item = LinkRow;

    ghost next_gives = { YieldsFirst (λ s. s) };

    ghost remaining = { item_count (λ s. s) };

    fn next(&mut self) -> Option<LinkRow> {
        step_counted::<Brand>(self, Blank::new(1))
    }
}
