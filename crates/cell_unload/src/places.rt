//! The sections of cells.

ghost use Rattle.std.specs.Prelude.{◌≡◌, ◌++◌, IfOk, IsTrue, OnOk, flat_map, nat_lt};
ghost use Rattle.cell_num.specs.Lists.{each_pair, In};
ghost use Rattle.cell_world.specs.Kept.{placed_at, placed_in};
ghost use Rattle.cell_world.specs.World.{attached};
ghost use Rattle.cell_world.specs.declared.state.NewCell.{NewCell};

use cell_hold::Places;
use cell_num::SecKey;
use cell_object::Section;
use cell_placed::start_of;
use cell_world::{NewCell, Placed};
use std::alloc::{AllocError, Global};

fn placed(cell: &NewCell, section: &Section) -> Placed
    requires { IsTrue (each_pair (λ a b. nat_lt a.section b.section) cell.now.places) }
    ensures { result ≡ placed_at (attached cell.now) section.now }
{
    Placed {
        key: SecKey {
            cell: cell.id,
            section: section.number,
        },
        start: start_of(cell, section.number),
        size: section.size,
        write: section.write,
    }
}

/// Adds the sections of a cell.
fn add_sections(cell: &NewCell, into: &mut Vec<Placed>) -> Result<(), AllocError>
    requires { IsTrue (each_pair (λ a b. nat_lt a.section b.section) cell.now.places) }
    ensures { OnOk result (into.new.items ≡ into.old.items ++ placed_in (attached cell.now)) }
{
    for section in cell.object.sections.as_slice() {
        into.push(placed(cell, section))?;
    }
    Ok(())
}

/// Adds the sections of the cells.
fn add_cells(cells: &[NewCell], into: &mut Vec<Placed>) -> Result<(), AllocError>
    requires { (c : NewCell) → In c cells.now → IsTrue (each_pair (λ a b. nat_lt a.section b.section) c.places) }
    ensures { OnOk result (into.new.items ≡ into.old.items ++ flat_map (λ c. placed_in (attached c)) cells.now) }
{
    for place in 0..cells.len() {
        add_sections(&cells[place], into)?;
    }
    Ok(())
}

/// The sections of present cells, and then those of new ones.
pub fn places_of(
    alloc: Global,
    present: &[NewCell],
    fresh: &[NewCell],
) -> Result<Places, AllocError>
    requires { (c : NewCell) → In c (present.now ++ fresh.now) → IsTrue (each_pair (λ a b. nat_lt a.section b.section) c.places) }
    ensures { IfOk result (λ places. places ≡ flat_map (λ c. placed_in (attached c)) (present.now ++ fresh.now)) }
{
    // Most cells have one section or two.
    let mut sections = Vec::with_capacity(alloc, present.len())?;
    add_cells(present, &mut sections)?;
    add_cells(fresh, &mut sections)?;
    Places::of(alloc, sections)
}
