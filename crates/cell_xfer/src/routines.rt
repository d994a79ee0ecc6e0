//! The routines of a swap, one after the other.

ghost use Rattle.std.specs.Prelude.{◌≡◌, ◌+◌, ◌-◌, ◌<◌, ◌≤◌, ◌^◌, List, ℕ};
ghost use Rattle.cell_hart.specs.Step.{seen_of};
ghost use Rattle.cell_mem.specs.State.{HasWrites};
ghost use Rattle.cell_world.specs.Running.Transfer.{is_success as succeeds, routine_from};
ghost use Rattle.cell_num.specs.Limits.{stack_size};
ghost use Rattle.cell_xfer.specs.Named.{AnswersAs, addresses_as};
ghost use Rattle.cell_xfer.specs.Ran.{ending_of, hart_as, tables_of, why_of as why_in};
ghost use Rattle.cell_xfer.specs.Transfers.{Transfers};
ghost use Rattle.cell_xfer.specs.Written.{HasWritten};

use crate::Addresses;
use crate::turn::turn;
use cell_hart::Hart;
use cell_mem::Memory;
use cell_num::Why;
use cell_world::{Failure, Routine, TaskState};

/// How a routine ended, and how many turns are left.
#[derive(Clone, Copy, Debug, PartialEq, Eq)]
struct Ended {
    why: Why,
    left: u32,
}

/// Why a routine that stands so has ended.
fn why_of(state: TaskState) -> Option<Why>
    ensures { result ≡ why_in state }
{
    match state {
        TaskState::Ready => None,
        TaskState::Done(code) => Some(Why::Returned(code)),
        TaskState::Fault(cause, pc) => Some(Why::Trap(cause, pc)),
    }
}

/// Whether a routine succeeded.
fn is_success(why: Why) -> bool
    ensures { result ≡ succeeds why }
{
    matches!(why, Why::Returned(0))
}

/// Gives a routine at most so many turns.
fn run(hart: &mut Hart, turns: u32, memory: &mut Memory, addresses: &Addresses) -> Ended
    requires { HasWrites memory.old turns }
    ensures ended { ending_of result memory.new.regions ≡ routine_from turns (tables_of addresses.now) (seen_of memory.old) (hart_as hart.old) }
    ensures written { HasWritten memory.old memory.new (turns - result.left) }
    ensures left { result.left ≤ turns }
{
    for done in 0..turns {
        let state = turn(hart, memory, addresses);
        if let Some(why) = why_of(state) {
            return Ended {
                why,
                left: turns - done - 1,
            };
        }
    }
    Ended {
        why: Why::Budget,
        left: 0,
    }
}

/// Runs the routines one after the other, with so many turns for all together, each from the
/// registers of a spawn on that stack. The first that doesn't end with 0 fails, and no other comes
/// after it. What was written by then stays. This takes no memory.
pub fn transfer(
    routines: &[Routine],
    budget: u32,
    stack: u64,
    memory: &mut Memory,
    addresses: &Addresses,
) -> Result<(), Failure>
    requires undo { HasWrites memory.old budget }
    requires stack { stack + stack_size < 2 ^ 64 }
    ensures written { HasWritten memory.old memory.new budget }
    ensures answer { (old new : List (List ℕ × ℕ)) → AnswersAs addresses.now.old old → AnswersAs addresses.now.new new → Transfers budget (record { old = addresses_as old; new = addresses_as new }) memory.old stack routines.now result memory.new }
{
    let mut left = budget;
    for routine in routines {
        let mut hart = Hart::begin(routine.entry, 0, stack);
        let ended = run(&mut hart, left, memory, addresses);
        if !is_success(ended.why) {
            return Err(Failure {
                routine: routine.name,
                why: ended.why,
            });
        }
        left = ended.left;
    }
    Ok(())
}
