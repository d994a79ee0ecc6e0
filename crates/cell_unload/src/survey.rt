//! What is read of a machine before cells go.

ghost use Rattle.std.specs.Prelude.{◌≡◌, ◌≤◌, ◌<◌, ◌+◌, ◌++◌, [], List, length, map, vec_capacity, vec_len};
ghost use Rattle.cell_machine.specs.Machine.{IsSound, IsWhole};
ghost use Rattle.cell_num.specs.Lists.{holds};
ghost use Rattle.cell_num.specs.declared.ids.CellId.{CellId as IdOfCell};
ghost use Rattle.cell_world.specs.Commands.UnloadCommand.{first_held, garbage_of};
ghost use Rattle.cell_world.specs.declared.refusal.Refusal.TheVariants.{Held};
ghost use Rattle.cell_unload.specs.Sweep.{IsOutlook, IsSurvey, SomeOutlook, SomeSurvey, after_next, aside_in, holding_in, refusal_of, unless_next};

use crate::outlook::Outlook;
use cell_hold::{holder_of, kept};
use cell_machine::Machine;
use cell_num::{CellId, Holder};
use cell_world::Refusal;

/// Where holding was read from, and the cells that are kept, ascending.
#[derive(Drop)]
pub struct Survey {
    pub outlook: Outlook,
    pub kept: Vec<CellId>,
}

/// E15: the cell has to stay, by that holder.
fn held(cell: CellId, holder: Holder) -> Refusal
    ensures { result ≡ Held cell holder }
{
    Refusal::Held { cell, holder }
}

/// Adds the cell to a list with room for it, unless it is the next of the kept ones. The answer are the
/// kept ones that come after it.
fn add_unless_next<'a>(cell: CellId, kept: &'a [CellId], into: &mut Vec<CellId>) -> &'a [CellId]
    requires { vec_len into.old < vec_capacity into.old }
    ensures cells { map (λ c. c.0) into.new.items ≡ map (λ c. c.0) into.old.items ++ unless_next cell.0 (map (λ c. c.0) kept.now) }
    ensures kept { map (λ c. c.0) result.now ≡ after_next cell.0 (map (λ c. c.0) kept.now) }
    ensures room { vec_capacity into.old ≤ vec_capacity into.new }
    ensures more { vec_len into.new ≤ vec_len into.old + 1 }
{
    match kept {
        [next, rest @ ..] if next.0 == cell.0 => rest,
        _ => {
            into.push_reserved(cell);
            kept
        }
    }
}

impl Survey {
    /// Reads which cells are kept into a list that is empty and has room for all. This takes no memory.
    pub fn read(machine: &Machine, mut outlook: Outlook, mut cells: Vec<CellId>) -> Survey
        requires whole { IsWhole machine.now }
        requires outlook { SomeOutlook machine.now outlook }
        requires empty { cells.items ≡ [] }
        requires room { length machine.now.cells.items ≤ vec_capacity cells }
        ensures { (aside : List IdOfCell) → IsOutlook machine.now aside outlook → IsSurvey machine.now aside result }
    {
        kept(
            &machine.graph,
            &machine.memory,
            &mut outlook.places,
            &outlook.roots,
            &mut cells,
        );
        Survey {
            outlook,
            kept: cells,
        }
    }

    /// Whether the cell is kept.
    fn keeps(&self, cell: CellId) -> bool
        ensures { result ≡ holds (map (λ c. c.0) self.now.kept.items) cell.0 }
    {
        self.kept.contains(&cell)
    }

    /// The refusal for the cell, if it is kept.
    fn refusal(&self, machine: &Machine, cell: CellId) -> Option<Refusal>
        ensures { (aside : List IdOfCell) → IsSurvey machine.now aside self.now → result ≡ refusal_of (holding_in machine.now aside) cell.0 }
    {
        if !self.keeps(cell) {
            return None;
        }
        let holder = holder_of(
            &machine.graph,
            &machine.memory,
            &self.outlook.places,
            &self.outlook.roots,
            &self.kept,
            cell,
        )?;
        Some(held(cell, holder))
    }

    /// The refusal for the first of the cells that is kept.
    pub fn first_held(&self, machine: &Machine, cells: &[CellId]) -> Option<Refusal>
        ensures { (aside : List IdOfCell) → IsSurvey machine.now aside self.now → result ≡ first_held (holding_in machine.now aside) (map (λ c. c.0) cells.now) }
    {
        for cell in cells {
            if let Some(refusal) = self.refusal(machine, *cell) {
                return Some(refusal);
            }
        }
        None
    }

    /// Lists the cells that nobody keeps, ascending, in a list that is empty and has room for all. Both
    /// lists ascend, so one walk goes over the two. This takes no memory.
    pub fn list_unkept(&self, machine: &Machine, into: &mut Vec<CellId>)
        requires sound { IsSound machine.now }
        requires survey { SomeSurvey machine.now self.now }
        requires empty { into.old.items ≡ [] }
        requires room { length machine.now.cells.items ≤ vec_capacity into.old }
        ensures { (aside : List IdOfCell) → IsSurvey machine.now aside self.now → map (λ c. c.0) into.new.items ≡ garbage_of (aside_in machine.now aside) }
    {
        let mut kept = self.kept.as_slice();
        for place in 0..machine.cells.len() {
            kept = add_unless_next(machine.cells[place].id, kept, into);
        }
    }
}
