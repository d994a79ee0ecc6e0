//! The sections of new cells.

ghost use Rattle.std.specs.Prelude.{◌≡◌, ◌+◌, ◌≤◌, ◌++◌, flat_map};
ghost use Rattle.cell_commit.specs.Cells.{AreAbove, keys_in, section_count};

use cell_graph::Graph;
use cell_num::CellId;

/// The numbers of a cell's sections.
#[derive(Drop)]
pub struct CellSections {
    pub cell: CellId,
    pub sections: Vec<u16>,
}

/// Adds the sections of the cells, cell by cell.
pub fn add_sections(graph: &mut Graph, cells: &[CellSections])
    requires above { AreAbove graph.old.sections cells.now }
    requires room { section_count cells.now ≤ graph.old.spare_sections }
    ensures sections { graph.new.sections ≡ graph.old.sections ++ flat_map keys_in cells.now }
    ensures rows { graph.new.rows ≡ graph.old.rows }
    ensures room_for_rows { graph.old.spare_rows ≤ graph.new.spare_rows }
{
    for cell in cells {
        graph.add_cell(cell.cell, &cell.sections);
    }
}
