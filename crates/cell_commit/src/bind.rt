//! The links of the graph.

ghost use Rattle.std.specs.Prelude.{◌≡◌, ◌<◌, ◌≤◌, ◌+◌, ◌++◌, All, Contains, IsTrue, length};
ghost use Rattle.cell_graph.specs.Links.{is_bound};
ghost use Rattle.cell_graph.specs.Moves.{AreApart, moved};
ghost use Rattle.cell_graph.specs.Order.{below_link, Rises};
ghost use Rattle.cell_graph.specs.Several.{AreNew, AreThere, all_linked, all_unlinked};

use cell_graph::{Graph, LinkRow, Steps};
use std::marker::Brand;
use std::sync::ledger::{Blank, Ledger};

/// Adds the links, each of which comes after all others that are there by then.
pub fn bind_rows(graph: &mut Graph, rows: &[LinkRow])
    requires room { length rows.now ≤ graph.old.spare_rows }
    requires present { All (λ r. Contains graph.old.sections r.user × Contains graph.old.sections r.target) rows.now }
    requires rising { Rises below_link (graph.old.rows ++ rows.now) }
    ensures rows { graph.new.rows ≡ graph.old.rows ++ rows.now }
    ensures sections { graph.new.sections ≡ graph.old.sections }
    ensures room_for_rows { graph.old.spare_rows ≤ graph.new.spare_rows + length rows.now }
{
    for row in rows {
        graph.bind(*row);
    }
}

/// Takes links away that are there, with a counter that nobody reads.
fn unbind_with<L: Ledger>(graph: &mut Graph, gone: &[LinkRow], blank: Blank)
    requires name { blank.name ≡ L.name }
    requires parts { blank.parts ≡ L.parts }
    requires countable { 0 < blank.parts }
    requires there { AreThere graph.old.rows gone.now }
    ensures rows { graph.new.rows ≡ all_unlinked graph.old.rows gone.now }
    ensures sections { graph.new.sections ≡ graph.old.sections }
    ensures room_for_rows { graph.old.spare_rows + length gone.now ≤ graph.new.spare_rows }
    ensures room_for_sections { graph.old.spare_sections ≤ graph.new.spare_sections }
{
    let mut steps = Steps::<L>::new(blank);
    graph.unbind_all(gone, &mut steps);
}

/// Takes links away that are there. Their room is in reserve again.
pub fn unbind_rows(graph: &mut Graph, gone: &[LinkRow])
    requires { AreThere graph.old.rows gone.now }
    ensures rows { graph.new.rows ≡ all_unlinked graph.old.rows gone.now }
    ensures sections { graph.new.sections ≡ graph.old.sections }
    ensures room_for_rows { graph.old.spare_rows + length gone.now ≤ graph.new.spare_rows }
    ensures room_for_sections { graph.old.spare_sections ≤ graph.new.spare_sections }
{
    unbind_with::<Brand>(graph, gone, Blank::new(1));
}

/// Adds links that aren't there, with a counter that nobody reads.
fn insert_with<L: Ledger>(graph: &mut Graph, new: &[LinkRow], blank: Blank)
    requires name { blank.name ≡ L.name }
    requires parts { blank.parts ≡ L.parts }
    requires countable { 0 < blank.parts }
    requires rising { Rises below_link new.now }
    requires new { AreNew graph.old.rows new.now }
    requires present { All (λ r. Contains graph.old.sections r.target) new.now }
    requires room { length new.now ≤ graph.old.spare_rows }
    ensures rows { graph.new.rows ≡ all_linked graph.old.rows new.now }
    ensures sections { graph.new.sections ≡ graph.old.sections }
    ensures room_for_rows { graph.old.spare_rows ≤ graph.new.spare_rows + length new.now }
    ensures room_for_sections { graph.old.spare_sections ≤ graph.new.spare_sections }
{
    let mut steps = Steps::<L>::new(blank);
    graph.bind_all(new, &mut steps);
}

/// Adds links that aren't there, each in its place.
pub fn insert_rows(graph: &mut Graph, new: &[LinkRow])
    requires rising { Rises below_link new.now }
    requires new { AreNew graph.old.rows new.now }
    requires present { All (λ r. Contains graph.old.sections r.target) new.now }
    requires room { length new.now ≤ graph.old.spare_rows }
    ensures rows { graph.new.rows ≡ all_linked graph.old.rows new.now }
    ensures sections { graph.new.sections ≡ graph.old.sections }
    ensures room_for_rows { graph.old.spare_rows ≤ graph.new.spare_rows + length new.now }
    ensures room_for_sections { graph.old.spare_sections ≤ graph.new.spare_sections }
{
    insert_with::<Brand>(graph, new, Blank::new(1));
}

/// Gives links their new targets, with a counter that nobody reads.
fn move_with<L: Ledger>(graph: &mut Graph, moves: &[LinkRow], blank: Blank)
    requires name { blank.name ≡ L.name }
    requires parts { blank.parts ≡ L.parts }
    requires countable { 0 < blank.parts }
    requires bound { All (λ m. IsTrue (is_bound graph.old.rows m.user m.entry)) moves.now }
    requires distinct { AreApart moves.now }
    requires present { All (λ m. Contains graph.old.sections m.target) moves.now }
    ensures rows { graph.new.rows ≡ moved graph.old.rows moves.now }
    ensures sections { graph.new.sections ≡ graph.old.sections }
    ensures room_for_rows { graph.old.spare_rows ≤ graph.new.spare_rows }
    ensures room_for_sections { graph.old.spare_sections ≤ graph.new.spare_sections }
{
    let mut steps = Steps::<L>::new(blank);
    graph.move_users(moves, &mut steps);
}

/// Gives the links of these users and entries their new targets.
pub fn move_rows(graph: &mut Graph, moves: &[LinkRow])
    requires bound { All (λ m. IsTrue (is_bound graph.old.rows m.user m.entry)) moves.now }
    requires distinct { AreApart moves.now }
    requires present { All (λ m. Contains graph.old.sections m.target) moves.now }
    ensures rows { graph.new.rows ≡ moved graph.old.rows moves.now }
    ensures sections { graph.new.sections ≡ graph.old.sections }
    ensures room_for_rows { graph.old.spare_rows ≤ graph.new.spare_rows }
    ensures room_for_sections { graph.old.spare_sections ≤ graph.new.spare_sections }
{
    move_with::<Brand>(graph, moves, Blank::new(1));
}
