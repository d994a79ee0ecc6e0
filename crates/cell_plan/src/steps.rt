//! What becomes of the links of a cell, entry by entry.

ghost use Rattle.std.specs.Prelude.{◌≡◌, ◌≤◌, ◌<◌, ◌^◌, [], ◌∷◌, None, Some, IfOk, OnOk, drop, length, not};
ghost use Rattle.cell_world.specs.Changed.{is_same_key};
ghost use Rattle.cell_plan.specs.Steps.{HasSteps, behind, front, is_change, marks_of, steps_of};

use cell_commit::{Rewiring, link_row};
use cell_num::SecKey;
use cell_world::{LinkRow, NewCell, Target};
use std::alloc::AllocError;

/// The link at a place of the list, where it is of the entry, and the place behind it.
fn next_link(links: &[LinkRow], place: usize, entry: u32) -> (Option<LinkRow>, usize)
    requires { place ≤ length links.now }
    ensures link { result.0 ≡ front entry (drop place links.now) }
    ensures rest { drop result.1 links.now ≡ behind entry (drop place links.now) }
    ensures within { result.1 ≤ length links.now }
{
    if place == links.len() {
        return (None, place);
    }
    let link = links[place];
    if link.entry == entry {
        (Some(link), place + 1)
    } else {
        (None, place)
    }
}

fn is_same(a: SecKey, b: SecKey) -> bool
    ensures { result ≡ is_same_key a b }
{
    a.cell.0 == b.cell.0 && a.section == b.section
}

/// Adds a link that stays, where it leads to another section, and tells whether it does.
fn add_move(into: &mut Rewiring, link: LinkRow, moved: LinkRow) -> Result<bool, AllocError>
    ensures change { IfOk result (λ change. change ≡ not (is_same_key link.target moved.target)) }
    ensures links { OnOk result (HasSteps (record { before = Some link; after = Some moved } ∷ []) into.old into.new) }
{
    if is_same(link.target, moved.target) {
        return Ok(false);
    }
    into.moves.push(moved)?;
    into.backs.push(link)?;
    Ok(true)
}

/// Adds what becomes of a link, and tells whether anything does.
fn add_old(into: &mut Rewiring, link: LinkRow, after: Option<LinkRow>) -> Result<bool, AllocError>
    ensures change { IfOk result (λ change. change ≡ is_change (record { before = Some link; after = after })) }
    ensures links { OnOk result (HasSteps (record { before = Some link; after = after } ∷ []) into.old into.new) }
{
    match after {
        Some(moved) => add_move(into, link, moved),
        None => {
            into.unbinds.push(link)?;
            Ok(true)
        }
    }
}

/// Adds the link of an entry that had none, and tells whether there is one.
fn add_new(into: &mut Rewiring, after: Option<LinkRow>) -> Result<bool, AllocError>
    ensures change { IfOk result (λ change. change ≡ is_change (record { before = None; after = after })) }
    ensures links { OnOk result (HasSteps (record { before = None; after = after } ∷ []) into.old into.new) }
{
    match after {
        Some(link) => {
            into.binds.push(link)?;
            Ok(true)
        }
        None => Ok(false),
    }
}

/// Adds what becomes of an entry's link, and tells whether anything does.
fn add_step(
    into: &mut Rewiring,
    before: Option<LinkRow>,
    after: Option<LinkRow>,
) -> Result<bool, AllocError>
    ensures change { IfOk result (λ change. change ≡ is_change (record { before = before; after = after })) }
    ensures links { OnOk result (HasSteps (record { before = before; after = after } ∷ []) into.old into.new) }
{
    match before {
        Some(link) => add_old(into, link, after),
        None => add_new(into, after),
    }
}

/// Adds what becomes of the links of a cell, by what its entries name by now and the links that they had,
/// and makes the list one of marks for its entries, whatever it was.
pub fn take_steps(
    marks: &mut Vec<bool>,
    into: &mut Rewiring,
    cell: &NewCell,
    targets: &[Target],
    links: &[LinkRow],
) -> Result<(), AllocError>
    requires each { length targets.now ≡ length cell.now.object.entries }
    requires few { length cell.now.object.entries < 2 ^ 32 }
    ensures marks { OnOk result (marks.new.items ≡ marks_of cell.now targets.now links.now) }
    ensures links { OnOk result (HasSteps (steps_of cell.now targets.now links.now) into.old into.new) }
{
    marks.clear();
    let entries = cell.object.entries.as_slice();
    let mut place = 0;
    for index in 0..entries.len() {
        let (before, next) = next_link(links, place, index as u32);
        let after = link_row(cell, index, &entries[index], &targets[index]);
        let change = add_step(into, before, after)?;
        marks.push(change)?;
        place = next;
    }
    Ok(())
}
