//! The cell that a task stands in.

ghost use Rattle.std.specs.Prelude.{◌≡◌, ◌+◌, ◌&&◌, All, IsTrue, find, map, nat_le, nat_lt, option_map};
ghost use Rattle.cell_num.specs.Lists.{each_pair};
ghost use Rattle.cell_world.specs.Commands.Recovery.{is_run_at as is_run, runs_at as runs};
ghost use Rattle.cell_world.specs.World.{attached};

use cell_object::Section;
use cell_placed::start_of;
use cell_world::NewCell;

/// Whether the section, which stands at `start`, is executable and has the pc inside.
fn is_inside(section: &Section, start: u64, pc: u64) -> bool
    ensures { result ≡ (section.now.exec && nat_le start pc && nat_lt pc (start + section.now.size)) }
{
    section.exec && start <= pc && pc - start < u64::from(section.size)
}

fn is_run_at(cell: &NewCell, section: &Section, pc: u64) -> bool
    requires { IsTrue (each_pair (λ a b. nat_lt a.section b.section) cell.now.places) }
    ensures { result ≡ is_run pc (attached cell.now) section.now }
{
    is_inside(section, start_of(cell, section.number), pc)
}

/// Whether the cell, which is attached, has the pc in an executable section.
fn runs_at(cell: &NewCell, pc: u64) -> bool
    requires { IsTrue (each_pair (λ a b. nat_lt a.section b.section) cell.now.places) }
    ensures { result ≡ runs pc (attached cell.now) }
{
    for section in cell.object.sections.as_slice() {
        if is_run_at(cell, section, pc) {
            return true;
        }
    }
    false
}

/// The first of the cells, which are attached, that has the pc in an executable section.
pub fn plan_recovery<'a>(cells: &[&'a NewCell], pc: u64) -> Option<&'a NewCell>
    requires { All (λ c. IsTrue (each_pair (λ a b. nat_lt a.section b.section) c.now.places)) cells.now }
    ensures { option_map (λ c. c.now) result ≡ find (λ c. runs pc (attached c)) (map (λ c. c.now) cells.now) }
{
    for place in 0..cells.len() {
        if runs_at(cells[place], pc) {
            return Some(cells[place]);
        }
    }
    None
}
