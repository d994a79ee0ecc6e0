//! The links of a cell, and those into it.

ghost use Rattle.std.specs.Prelude.{◌≡◌, ◌==◌, ◌++◌, ◌∷◌, [], Contains, IfOk, OnOk, filter, filter_map, option_map};
ghost use Rattle.std.specs.List.Sorted.{IsPermutation};
ghost use Rattle.cell_world.specs.Commands.LinkCommands.{link_line as line_of, next_deps, next_users};
ghost use Rattle.cell_graph.specs.Links.{links_to};
ghost use Rattle.cell_machine.specs.Machine.{IsSound, section_keys, world_of};
ghost use Rattle.cell_view.specs.Links.{AreInOrder, HasSections, links_in};
ghost use Rattle.cell_world.specs.Following.{Follows};
ghost use Rattle.cell_machine.specs.Does.{answer_in};

use cell_graph::Graph;
use cell_machine::{Machine, unknown_number};
use cell_num::{CellId, Listed, SecKey};
use cell_world::{Fail, LinkLine, LinkRow, NewCell, Reply};
use std::alloc::{AllocError, Global};

/// Adds the links into a section.
fn add_links_to(graph: &Graph, section: SecKey, rows: &mut Vec<LinkRow>) -> Result<(), AllocError>
    requires { Contains graph.now.sections section }
    ensures { OnOk result (IsPermutation (rows.old.items ++ links_to section graph.now.rows) rows.new.items) }
{
    let links = graph.users_of(section);
    for link in links {
        rows.push(link)?;
    }
    Ok(())
}

/// The links into a cell, section by section.
fn gather_users(alloc: Global, graph: &Graph, cell: &NewCell) -> Result<Vec<LinkRow>, AllocError>
    requires { HasSections graph.now cell.now }
    ensures { IfOk result (λ rows. IsPermutation (links_in graph.now.rows (section_keys cell.now)) rows.items) }
{
    let targets = cell.object.sections.as_slice();
    let mut rows = Vec::new(alloc);
    for target in targets {
        let key = SecKey {
            cell: cell.id,
            section: target.number,
        };
        add_links_to(graph, key, &mut rows)?;
    }
    Ok(rows)
}

/// The links in the order of their users' cells and their entries; the graph states none.
fn in_order(mut rows: Vec<LinkRow>) -> Vec<LinkRow>
    ensures links { IsPermutation rows.items result.items }
    ensures order { AreInOrder result.items }
{
    rows.sort_unstable_by_key(|row| (row.user.cell.0, row.entry));
    rows
}

/// The links into a cell, by user cell and entry.
fn sorted_users(alloc: Global, graph: &Graph, cell: &NewCell) -> Result<Vec<LinkRow>, AllocError>
    requires { HasSections graph.now cell.now }
    ensures links { IfOk result (λ rows. IsPermutation (links_in graph.now.rows (section_keys cell.now)) rows.items) }
    ensures order { IfOk result (λ rows. AreInOrder rows.items) }
{
    let rows = gather_users(alloc, graph, cell)?;
    Ok(in_order(rows))
}

/// The link with the offset and the kind of its entry, which is one of the user's cell.
fn link_line(machine: &Machine, row: &LinkRow) -> Option<LinkLine>
    requires { IsSound machine.now }
    ensures { result ≡ line_of (world_of machine.now) row.now }
{
    let user = machine.cell(row.user.cell.0)?;
    let entry = user.object.entries.as_slice().get(row.entry as usize)?;
    Some(LinkLine {
        user: row.user,
        offset: entry.offset,
        kind: entry.kind,
        target: row.target,
    })
}

/// Adds the line of a link.
fn add_line(machine: &Machine, row: &LinkRow, lines: &mut Vec<LinkLine>) -> Result<(), AllocError>
    requires { IsSound machine.now }
    ensures { OnOk result (lines.new.items ≡ lines.old.items ++ filter_map (line_of (world_of machine.now)) (row.now ∷ [])) }
{
    if let Some(line) = link_line(machine, row) {
        lines.push(line)?;
    }
    Ok(())
}

fn link_lines(
    alloc: Global,
    machine: &Machine,
    rows: &[LinkRow],
) -> Result<Vec<LinkLine>, AllocError>
    requires { IsSound machine.now }
    ensures { IfOk result (λ lines. lines.items ≡ filter_map (line_of (world_of machine.now)) rows.now) }
{
    let mut lines = Vec::new(alloc);
    for row in rows {
        add_line(machine, row, &mut lines)?;
    }
    Ok(lines)
}

/// The lines of a cell's links, in the order of its entries.
fn deps_lines(alloc: Global, machine: &Machine, cell: CellId) -> Result<Vec<LinkLine>, AllocError>
    requires { IsSound machine.now }
    ensures { IfOk result (λ lines. lines.items ≡ filter_map (line_of (world_of machine.now)) (filter (λ r. r.user.cell.0 == cell.0) machine.now.graph.rows)) }
{
    let mut lines = Vec::new(alloc);
    let links = machine.graph.deps_of_cell(cell);
    for link in links {
        add_line(machine, &link, &mut lines)?;
    }
    Ok(lines)
}

/// Shows the links of a cell, in the order of its entries.
pub fn deps(alloc: Global, machine: &Machine, cell: u32) -> Result<Reply, Fail>
    requires { IsSound machine.now }
    ensures { Follows (answer_in (world_of machine.now)) result (next_deps (world_of machine.now) cell) }
{
    let Some(_) = machine.cell(cell) else {
        return Err(unknown_number(alloc, cell));
    };
    let lines = deps_lines(alloc, machine, CellId(cell))?;
    Ok(Reply::Deps {
        cell: CellId(cell),
        links: Listed::from_vec(lines),
    })
}

/// Shows the links into a cell, by user cell and entry.
pub fn users(alloc: Global, machine: &Machine, cell: u32) -> Result<Reply, Fail>
    requires { IsSound machine.now }
    ensures { Follows (answer_in (world_of machine.now)) result (next_users (world_of machine.now) cell) }
{
    let Some(present) = machine.cell(cell) else {
        return Err(unknown_number(alloc, cell));
    };
    let rows = sorted_users(alloc, &machine.graph, present)?;
    let lines = link_lines(alloc, machine, &rows)?;
    Ok(Reply::Users {
        cell: CellId(cell),
        links: Listed::from_vec(lines),
    })
}
