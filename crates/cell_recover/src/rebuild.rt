//! The cells that a task holds.

ghost use Rattle.std.specs.Prelude.{◌≡◌, ◌++◌, ◌∷◌, [], All, IfOk, IsTrue, OnOk, filter, map, nat_lt};
ghost use Rattle.std.specs.List.{list_any};
ghost use Rattle.cell_num.specs.Lists.{each_pair};
ghost use Rattle.cell_world.specs.Kept.{placed_at};
ghost use Rattle.cell_world.specs.World.{attached};
ghost use Rattle.cell_recover.specs.Rebuild.{has_word as has_word_in, is_at, is_held_by};

use cell_num::CellId;
use cell_object::Section;
use cell_placed::start_of;
use cell_world::NewCell;
use std::alloc::{AllocError, Global};

/// Whether the word lies in the section of the cell, both ends included.
fn is_at(cell: &NewCell, section: &Section, word: u64) -> bool
    requires { IsTrue (each_pair (λ a b. nat_lt a.section b.section) cell.now.places) }
    ensures { result ≡ is_at word (placed_at (attached cell.now) section.now) }
{
    let start = start_of(cell, section.number);
    start <= word && word - start <= u64::from(section.size)
}

/// Whether the word lies in a section of the cell.
fn has_word(cell: &NewCell, word: u64) -> bool
    requires { IsTrue (each_pair (λ a b. nat_lt a.section b.section) cell.now.places) }
    ensures { result ≡ has_word_in cell.now word }
{
    for section in cell.object.sections.as_slice() {
        if is_at(cell, section, word) {
            return true;
        }
    }
    false
}

/// Whether one of the words lies in a section of the cell.
fn has_one(cell: &NewCell, words: &[u64]) -> bool
    requires { IsTrue (each_pair (λ a b. nat_lt a.section b.section) cell.now.places) }
    ensures { result ≡ list_any (has_word_in cell.now) words.now }
{
    for word in words {
        if has_word(cell, *word) {
            return true;
        }
    }
    false
}

/// Whether the cell is the root of a task, or one of the task's words lies in it.
fn is_held(cell: &NewCell, root: CellId, words: &[u64]) -> bool
    requires { IsTrue (each_pair (λ a b. nat_lt a.section b.section) cell.now.places) }
    ensures { result ≡ is_held_by root.0 words.now cell.now }
{
    root.0 == cell.id.0 || has_one(cell, words)
}

/// Adds the cell, if the task of the root and the words holds it.
fn add_held<'a>(
    items: &mut Vec<&'a NewCell>,
    cell: &'a NewCell,
    root: CellId,
    words: &[u64],
) -> Result<(), AllocError>
    requires { IsTrue (each_pair (λ a b. nat_lt a.section b.section) cell.now.places) }
    ensures { OnOk result (map (λ c. c.now) items.new.items ≡ map (λ c. c.now) items.old.items ++ filter (is_held_by root.0 words.now) (cell.now ∷ [])) }
{
    if is_held(cell, root, words) {
        items.push(cell)?;
    }
    Ok(())
}

/// Those of the cells, which are attached, that a task holds that has the root and the words.
pub fn plan_rebuild<'a>(
    alloc: Global,
    cells: &[&'a NewCell],
    root: CellId,
    words: &[u64],
) -> Result<Vec<&'a NewCell>, AllocError>
    requires { All (λ c. IsTrue (each_pair (λ a b. nat_lt a.section b.section) c.now.places)) cells.now }
    ensures { IfOk result (λ items. map (λ c. c.now) items.items ≡ filter (is_held_by root.0 words.now) (map (λ c. c.now) cells.now)) }
{
    let mut items = Vec::new(alloc);
    for place in 0..cells.len() {
        add_held(&mut items, cells[place], root, words)?;
    }
    Ok(items)
}
