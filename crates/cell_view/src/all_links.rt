//! All links in a dump.

ghost use Rattle.std.specs.Prelude.{◌≡◌, ◌==◌, ◌++◌, OnOk, filter, flat_map, map};
ghost use Rattle.cell_world.specs.DumpLines.{link_line as line_of, part_of as part_in};
ghost use Rattle.cell_machine.specs.Machine.{IsSound, world_of};
ghost use Rattle.cell_view.specs.Whole.{links_shown};

use cell_graph::Graph;
use cell_machine::Machine;
use cell_num::{CellId, SecKey};
use cell_world::{DumpLine, LinkRow, NewCell, Part};
use std::alloc::AllocError;

/// The section as lines have it.
pub fn part_of(key: SecKey) -> Part
    ensures { result ≡ part_in key }
{
    Part {
        cell: u64::from(key.cell.0),
        section: u64::from(key.section),
    }
}

fn link_line(link: LinkRow) -> DumpLine
    ensures { result ≡ line_of link }
{
    DumpLine::Link {
        user: part_of(link.user),
        entry: u64::from(link.entry),
        target: part_of(link.target),
    }
}

/// Adds the links of a cell, in the order of its entries.
fn add_links_of(graph: &Graph, cell: CellId, lines: &mut Vec<DumpLine>) -> Result<(), AllocError>
    ensures { OnOk result (lines.new.items ≡ lines.old.items ++ map line_of (filter (λ r. r.user.cell.0 == cell.0) graph.now.rows)) }
{
    let links = graph.deps_of_cell(cell);
    for link in links {
        lines.push(link_line(link))?;
    }
    Ok(())
}

/// Adds the links of each of the cells.
fn add_links_of_cells(
    graph: &Graph,
    cells: &[NewCell],
    lines: &mut Vec<DumpLine>,
) -> Result<(), AllocError>
    ensures { OnOk result (lines.new.items ≡ lines.old.items ++ flat_map (links_shown graph.now.rows) cells.now) }
{
    for cell in cells {
        add_links_of(graph, cell.id, lines)?;
    }
    Ok(())
}

/// Adds all links, by user cell and entry.
pub fn add_links(machine: &Machine, lines: &mut Vec<DumpLine>) -> Result<(), AllocError>
    requires { IsSound machine.now }
    ensures { OnOk result (lines.new.items ≡ lines.old.items ++ map line_of (world_of machine.now).links) }
{
    add_links_of_cells(&machine.graph, &machine.cells, lines)
}
