//! The regions of a cell, and their pages.

ghost use Rattle.std.specs.Prelude.{◌≡◌, IsTrue, is_some, nat_lt, true};
ghost use Rattle.cell_mem.specs.State.{region_from, unmapped};
ghost use Rattle.cell_num.specs.Lists.{each_pair};
ghost use Rattle.cell_world.specs.Linked.Relink.{class_start};
ghost use Rattle.cell_world.specs.Commands.UnloadCommand.{starts_of};
ghost use Rattle.cell_world.specs.World.{attached};
ghost use Rattle.cell_unload.specs.Unmapped.{CanLeave, IsTabled, class_starts, without_regions};

use cell_mem::Memory;
use cell_num::PAGE_SIZE;
use cell_place::{Run, Space};
use cell_placed::start_of;
use cell_world::{Class, NewCell};

/// Where the region of a class starts. A class without a section has none.
fn class_start(cell: &NewCell, class: Class) -> Option<u64>
    requires { IsTrue (each_pair (λ a b. nat_lt a.section b.section) cell.now.places) }
    ensures { result ≡ class_start (attached cell.now) class }
{
    for section in cell.object.sections.as_slice() {
        if class.has(section) {
            return Some(start_of(cell, section.number));
        }
    }
    None
}

/// Unmaps the region that starts there, and gives its pages back.
fn unmap(memory: &mut Memory, space: &mut Space, start: u64)
    requires tabled { IsTabled memory.old space.old }
    requires there { is_some (region_from memory.old start) ≡ true }
    ensures memory { memory.new ≡ unmapped memory.old start }
    ensures tabled { IsTabled memory.new space.new }
{
    // The regions are whole pages of the space and stand apart.
    memory.laid_out();
    let page = ((start - space.base()) / PAGE_SIZE) as u32;
    let count = (memory.size_from(start) / PAGE_SIZE) as u32;
    memory.unmap(start);
    space.give(Run { page, count });
}

/// Unmaps the region of a class, if the class has a section.
fn unmap_class(memory: &mut Memory, space: &mut Space, cell: &NewCell, class: Class)
    requires places { IsTrue (each_pair (λ a b. nat_lt a.section b.section) cell.now.places) }
    requires tabled { IsTabled memory.old space.old }
    requires there { CanLeave memory.old (class_starts (attached cell.now) class) }
    ensures memory { memory.new ≡ without_regions memory.old (class_starts (attached cell.now) class) }
    ensures tabled { IsTabled memory.new space.new }
{
    if let Some(start) = class_start(cell, class) {
        unmap(memory, space, start);
    }
}

/// Unmaps the regions of a cell.
pub fn unmap_cell(memory: &mut Memory, space: &mut Space, cell: &NewCell)
    requires places { IsTrue (each_pair (λ a b. nat_lt a.section b.section) cell.now.places) }
    requires tabled { IsTabled memory.old space.old }
    requires there { CanLeave memory.old (starts_of (attached cell.now)) }
    ensures memory { memory.new ≡ without_regions memory.old (starts_of (attached cell.now)) }
    ensures tabled { IsTabled memory.new space.new }
{
    unmap_class(memory, space, cell, Class::Text);
    unmap_class(memory, space, cell, Class::ReadOnly);
    unmap_class(memory, space, cell, Class::Writable);
}
