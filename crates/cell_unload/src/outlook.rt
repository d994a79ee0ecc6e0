//! Where holding is read from.

ghost use Rattle.std.specs.Prelude.{◌≡◌, ◌++◌, IfOk, IsTrue, OnOk, flat_map, map, nat_lt};
ghost use Rattle.cell_num.specs.Lists.{In, each_pair};
ghost use Rattle.cell_machine.specs.Machine.{IsSound};
ghost use Rattle.cell_world.specs.Kept.{placed_in};
ghost use Rattle.cell_world.specs.World.{attached};
ghost use Rattle.cell_world.specs.declared.state.NewCell.{NewCell as Cell};
ghost use Rattle.cell_hold.specs.declared.roots.Root.TheVariants.{Attached};
ghost use Rattle.cell_unload.specs.Begun.{renewed_root};
ghost use Rattle.cell_unload.specs.Sweep.{IsOutlook};

use crate::holding::roots;
use crate::places::places_of;
use cell_hold::{Places, Root, TaskView};
use cell_machine::Machine;
use cell_num::CellId;
use cell_world::NewCell;
use std::alloc::{AllocError, Global};

/// The sections of all cells, and where holding begins.
#[derive(Drop)]
pub struct Outlook {
    pub places: Places,
    pub roots: Vec<Root>,
}

/// Adds the cells, which are attached then.
fn add_attached(roots: &mut Vec<Root>, fresh: &[NewCell]) -> Result<(), AllocError>
    ensures { OnOk result (roots.new.items ≡ roots.old.items ++ map (λ c. Attached c.id) fresh.now) }
{
    for cell in fresh {
        roots.push(Root::Attached(cell.id))?;
    }
    Ok(())
}

/// Has the root be the view, if it is the task of the view.
fn renew_root(root: &mut Root, view: &TaskView)
    ensures { root.new ≡ renewed_root view.now root.old }
{
    if let Root::Task(seen) = root {
        if seen.get().task == view.task {
            seen.set(*view);
        }
    }
}

impl Outlook {
    /// On the machine as it is with the cells put aside.
    pub fn of(alloc: Global, machine: &Machine, aside: &[CellId]) -> Result<Outlook, AllocError>
        requires { IsSound machine.now }
        ensures { IfOk result (IsOutlook machine.now aside.now) }
    {
        let places = places_of(alloc, &machine.cells, &[])?;
        let roots = roots(alloc, machine, aside)?;
        Ok(Outlook { places, roots })
    }

    /// On present cells and attached new ones, where holding begins there and in the new ones.
    pub fn with(
        alloc: Global,
        present: &[NewCell],
        fresh: &[NewCell],
        mut roots: Vec<Root>,
    ) -> Result<Outlook, AllocError>
        requires { (c : Cell) → In c (present.now ++ fresh.now) → IsTrue (each_pair (λ a b. nat_lt a.section b.section) c.places) }
        ensures places { IfOk result (λ o. o.places ≡ flat_map (λ c. placed_in (attached c)) (present.now ++ fresh.now)) }
        ensures roots { IfOk result (λ o. o.roots.items ≡ roots.items ++ map (λ c. Attached c.id) fresh.now) }
    {
        add_attached(&mut roots, fresh)?;
        let places = places_of(alloc, present, fresh)?;
        Ok(Outlook { places, roots })
    }

    /// Has holding begin where the task of the view is seen now. This takes no memory.
    pub fn renew(&mut self, view: TaskView)
        ensures places { self.new.places ≡ self.old.places }
        ensures roots { self.new.roots.items ≡ map (renewed_root view) self.old.roots.items }
    {
        for root in self.roots.iter_mut() {
            renew_root(root, &view);
        }
    }
}
