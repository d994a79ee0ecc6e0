//! The pages of stacks.

ghost use Rattle.std.specs.Prelude.{◌≡◌, ◌<◌, ◌≤◌, true, false};
ghost use Rattle.cell_num.specs.Limits.{max_pages};
ghost use Rattle.cell_world.specs.Placed.Pages.{is_taken_run};
ghost use Rattle.cell_place.specs.Space.{with_run};
ghost use Rattle.cell_schedule.specs.Ends.{stack_run};

use cell_num::{PAGE_SIZE, STACK_PAGES};
use cell_place::{Run, Space};

/// Gives the pages of the stack that begins there back.
pub fn give_back(space: &mut Space, stack: u64)
    requires above { space.old.base ≤ stack }
    requires low { (stack_run space.old.base stack).page < max_pages }
    requires taken { is_taken_run space.old.taken (stack_run space.old.base stack).page 4 ≡ true }
    ensures { space.new ≡ with_run space.old (stack_run space.old.base stack) false }
{
    let page = ((stack - space.base()) / PAGE_SIZE) as u32;
    space.give(Run {
        page,
        count: STACK_PAGES,
    });
}
