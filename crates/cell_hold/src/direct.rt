//! What roots hold.

ghost use Rattle.std.specs.Prelude.{◌≡◌};
ghost use Rattle.std.specs.List.{list_any};
ghost use Rattle.cell_world.specs.Kept.{is_held_directly};
ghost use Rattle.cell_hold.specs.Adds.{Adds};
ghost use Rattle.cell_hold.specs.Reached.{root_holds, rooted, task_holds};
ghost use Rattle.cell_hold.specs.Roots.{is_attached};

use crate::bytes::stack_of;
use crate::found::Found;
use crate::others::Others;
use crate::roots::{Root, TaskView};
use crate::words::{add_numbers, add_word, add_words};
use cell_mem::Memory;
use cell_num::CellId;

/// Adds the cell that a task began in, and those that its pc, registers and stack lead into.
fn add_task(memory: &Memory, others: &Others, task: &TaskView, into: &mut Found)
    ensures added { Adds (task_holds memory.now others.now.items task.now) into.old.room into.old.items into.new.items }
    ensures room { into.new.room ≡ into.old.room }
{
    into.add(task.root);
    add_word(others, task.pc, into);
    let numbers = &task.x[1..];
    add_numbers(others, numbers, into);
    let bytes = stack_of(memory, task);
    add_words(others, bytes, into);
}

/// Adds the cells that a root holds.
fn add_root(memory: &Memory, others: &Others, root: &Root, into: &mut Found)
    ensures added { Adds (root_holds memory.now others.now.items root.now) into.old.room into.old.items into.new.items }
    ensures room { into.new.room ≡ into.old.room }
{
    match root {
        Root::Attached(cell) => into.add(*cell),
        Root::Task(task) => add_task(memory, others, task.get(), into),
        Root::Word(_, word) => add_word(others, *word, into),
    }
}

/// Adds the cell of a root that is an attached cell.
fn add_if_attached(root: &Root, into: &mut Found)
    ensures added { Adds (is_attached root.now) into.old.room into.old.items into.new.items }
    ensures room { into.new.room ≡ into.old.room }
{
    match root {
        Root::Attached(cell) => into.add(*cell),
        Root::Task(_) | Root::Word(_, _) => {}
    }
}

/// Adds the attached cells.
pub fn add_attached(roots: &[Root], into: &mut Found)
    ensures added { Adds (λ c. list_any (λ root. is_attached root c) roots.now) into.old.room into.old.items into.new.items }
    ensures room { into.new.room ≡ into.old.room }
{
    for root in roots {
        add_if_attached(root, into);
    }
}

/// Adds the cells that are held directly.
pub fn add_held(memory: &Memory, others: &Others, roots: &[Root], into: &mut Found)
    ensures added { Adds (is_held_directly (rooted memory.now others.now.items roots.now)) into.old.room into.old.items into.new.items }
    ensures room { into.new.room ≡ into.old.room }
{
    for root in roots {
        add_root(memory, others, root, into);
    }
}
