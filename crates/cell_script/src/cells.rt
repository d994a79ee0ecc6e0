//! The cells that the words of a line name.

ghost use Rattle.std.specs.Prelude.{◌≡◌, ◌==◌, map, IfOk};
ghost use Rattle.std.specs.List.{slice_split};
ghost use Rattle.cell_script.specs.Grammar.{name, both, cell_called, cell_name, each_said, are_different, cell_names};

use crate::words::is_name;
use cell_num::{Listed, Name};
use cell_world::CellName;
use std::alloc::{AllocError, Global};
use std::collections::BTreeSet;

/// The cells of these words, if each word names one and no word stands twice.
pub fn read_cells(alloc: Global, words: &[&[u8]]) -> Result<Option<Listed<CellName>>, AllocError>
    ensures { IfOk result (λ cells. cells ≡ cell_names (map (λ word. word.now) words.now)) }
{
    if !are_different(alloc, words)? {
        return Ok(None);
    }
    read_each(alloc, words)
}

/// Whether no word stands twice.
pub fn are_different(alloc: Global, words: &[&[u8]]) -> Result<bool, AllocError>
    ensures { IfOk result (λ different. different ≡ are_different (map (λ word. word.now) words.now)) }
{
    let mut seen = BTreeSet::new(alloc);
    for word in words {
        if !seen.insert(*word)? {
            return Ok(false);
        }
    }
    Ok(true)
}

/// The cell of each word, if each names one.
fn read_each(alloc: Global, words: &[&[u8]]) -> Result<Option<Listed<CellName>>, AllocError>
    ensures { IfOk result (λ cells. cells ≡ each_said cell_name (map (λ word. word.now) words.now)) }
{
    let mut cells = Vec::new(alloc);
    for word in words {
        let Some(cell) = cell_of_word(alloc, word)? else {
            return Ok(None);
        };
        cells.push(cell)?;
    }
    Ok(Some(Listed::from_vec(cells)))
}

/// `NS/STEM`
pub fn cell_of_word(alloc: Global, word: &[u8]) -> Result<Option<CellName>, AllocError>
    ensures { IfOk result (λ cell. cell ≡ cell_name word.now) }
{
    let parts = parts_of(alloc, word)?;
    cell_of(alloc, parts.as_slice())
}

/// What stands between the slashes.
fn parts_of<'a>(alloc: Global, word: &'a [u8]) -> Result<Vec<&'a [u8]>, AllocError>
    ensures { IfOk result (λ parts. map (λ part. part.now) parts.items ≡ slice_split (λ b. b == 47) word.now) }
{
    word.split(|b| *b == b'/').collect(alloc)
}

/// The cell of a namespace and a stem.
fn cell_of(alloc: Global, parts: &[&[u8]]) -> Result<Option<CellName>, AllocError>
    ensures { IfOk result (λ cell. cell ≡ both name name cell_called (map (λ part. part.now) parts.now)) }
{
    let [ns, stem] = parts else {
        return Ok(None);
    };
    if !is_name(ns) || !is_name(stem) {
        return Ok(None);
    }
    let ns = Name::of(alloc, ns)?;
    let stem = Name::of(alloc, stem)?;
    Ok(Some(CellName { ns, stem }))
}
