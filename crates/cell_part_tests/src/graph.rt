//! Links that come and go, and keys of sections that went.

ghost use Rattle.std.specs.Prelude.{◌≡◌, ◌<◌, ◌≤◌, ◌∷◌, [], All, Contains, IfOk, length};
ghost use Rattle.cell_graph.specs.Order.{Rises, below_link};
ghost use Rattle.cell_graph.specs.Several.{AreNew, AreThere};
ghost use Rattle.cell_world.specs.World.{key_of};

use cell_graph::*;
use cell_num::{CellId, SecKey};
use std::alloc::{AllocError, Global};
use std::marker::Brand;
use std::sync::ledger::{Blank, Ledger};
use std::test::*;

fn key(cell: u32, section: u16) -> SecKey
    ensures { result ≡ key_of cell section }
{
    SecKey {
        cell: CellId(cell),
        section,
    }
}

fn link(user: SecKey, entry: u32, target: SecKey) -> LinkRow
    ensures { result ≡ record { user = user; entry = entry; target = target } }
{
    LinkRow {
        user,
        entry,
        target,
    }
}

/// A link to the first section of a cell.
fn row(cell: u32, section: u16, entry: u32, target: u32) -> LinkRow
    ensures { result ≡ record { user = key_of cell section; entry = entry; target = key_of target 1 } }
{
    link(key(cell, section), entry, key(target, 1))
}

/// Cell 1 with sections 1 and 3, cell 2 with 1 and 2, cell 3 with 1, and no links.
fn sections(alloc: Global) -> Result<Graph, AllocError>
    ensures sections { IfOk result (λ g. g.sections ≡ key_of 1 1 ∷ key_of 1 3 ∷ key_of 2 1 ∷ key_of 2 2 ∷ key_of 3 1 ∷ []) }
    ensures rows { IfOk result (λ g. g.rows ≡ []) }
    ensures room { IfOk result (λ g. 4 ≤ g.spare_rows) }
{
    let mut graph = Graph::new(alloc);
    graph.reserve(5, 4)?;
    graph.add_cell(CellId(1), &[1, 3]);
    graph.add_cell(CellId(2), &[1, 2]);
    graph.add_cell(CellId(3), &[1]);
    Ok(graph)
}

/// Takes links away, with a counter that nobody reads.
fn unbind_with<L: Ledger>(graph: &mut Graph, gone: &[LinkRow], blank: Blank)
    requires name { blank.name ≡ L.name }
    requires parts { blank.parts ≡ L.parts }
    requires countable { 0 < blank.parts }
    requires there { AreThere graph.old.rows gone.now }
{
    let mut steps = Steps::<L>::new(blank);
    graph.unbind_all(gone, &mut steps);
}

/// Adds links, with a counter that nobody reads.
fn bind_with<L: Ledger>(graph: &mut Graph, new: &[LinkRow], blank: Blank)
    requires name { blank.name ≡ L.name }
    requires parts { blank.parts ≡ L.parts }
    requires countable { 0 < blank.parts }
    requires rising { Rises below_link new.now }
    requires unbound { AreNew graph.old.rows new.now }
    requires target { All (λ r. Contains graph.old.sections r.target) new.now }
    requires room { length new.now ≤ graph.old.spare_rows }
{
    let mut steps = Steps::<L>::new(blank);
    graph.bind_all(new, &mut steps);
}

/// Two links come, one in front of the link that is there and one behind it.
#[test]
fn links_come_on_both_sides(rt: HostRuntime) -> Result<(), Fail> {
    let alloc = rt.alloc();
    let first = row(1, 1, 7, 3);
    let second = row(2, 2, 4, 3);
    let third = row(2, 1, 5, 3);
    let mut graph = sections(alloc)?;
    graph.bind(second);
    bind_with::<Brand>(&mut graph, &[first, third], Blank::new(1));
    let of_one: Vec<LinkRow> = graph.deps_of_cell(CellId(1)).collect(alloc)?;
    let of_two: Vec<LinkRow> = graph.deps_of_cell(CellId(2)).collect(alloc)?;
    let users: Vec<LinkRow> = graph.users_of(key(3, 1)).collect(alloc)?;
    assert_eq!(rt; &of_one[..], &[first][..]);
    assert_eq!(rt; &of_two[..], &[second, third][..]);
    assert_eq!(rt; users.len(), 3);
    Ok(())
}

/// A link goes again.
#[test]
fn a_link_goes(rt: HostRuntime) -> Result<(), Fail> {
    let alloc = rt.alloc();
    let row = link(key(1, 1), 0, key(2, 1));
    let mut graph = sections(alloc)?;
    graph.bind(row);
    unbind_with::<Brand>(&mut graph, &[row], Blank::new(1));
    let left: Vec<LinkRow> = graph.deps_of_cell(CellId(1)).collect(alloc)?;
    assert!(rt; left.is_empty());
    Ok(())
}

/// Cells 2 and 3 need each other.
#[test]
fn cells_go_together(rt: HostRuntime) -> Result<(), Fail> {
    let alloc = rt.alloc();
    let (a, b, c) = (key(1, 1), key(2, 1), key(3, 1));
    let mut graph = sections(alloc)?;
    graph.bind(link(b, 0, c));
    graph.bind(link(c, 0, b));
    let (kept, gone) = (graph.weak(a), graph.weak(b));
    assert_eq!(rt;
        graph.remove_cells(&[CellId(3)]),
        Err(StillUsed { user: b })
    );
    assert_eq!(rt; graph.upgrade(gone), Some(b));
    assert_eq!(rt; graph.remove_cells(&[CellId(3), CellId(2)]), Ok(()));
    assert_eq!(rt; graph.upgrade(gone), None);
    assert_eq!(rt; graph.upgrade(kept), Some(a));
    Ok(())
}
