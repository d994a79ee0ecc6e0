//! The words of a swap.

ghost use Rattle.std.specs.Prelude.{◌≡◌, ◌<◌, ◌≤◌, IfOk, IfSome, is_none, length, map, position};
ghost use Rattle.cell_script.specs.Grammar.{after_option, are_different, cell_part, each_said, end_of_cell, has_option, is_equals, item_count, swap_item, swap_items, swap_words};

use crate::cells::{are_different, cell_of_word};
use crate::transfer::read_transfer;
use crate::words::is_file;
use cell_num::{Listed, Name};
use cell_world::{Command, SwapItem};
use std::alloc::{AllocError, Global};

/// `NS/OLD=FILE ... [reexport] [strict] [transfer SYMBOL]... [budget N]`
pub fn read_swap(alloc: Global, words: &[&[u8]]) -> Result<Option<Command>, AllocError>
    ensures { IfOk result (λ command. command ≡ swap_words (map (λ word. word.now) words.now)) }
{
    let count = item_count(words);
    let Some(items) = read_items(alloc, &words[..count])? else {
        return Ok(None);
    };
    let (reexport, options) = take_option(b"reexport".as_slice(), &words[count..]);
    let (strict, options) = take_option(b"strict".as_slice(), options);
    let Some(transfer) = read_transfer(alloc, options)? else {
        return Ok(None);
    };
    Ok(Some(Command::Swap {
        items,
        reexport,
        strict,
        routines: transfer.routines,
        budget: transfer.budget,
    }))
}

/// How many words there are before the first without an equals sign.
fn item_count(words: &[&[u8]]) -> usize
    ensures count { result ≡ item_count (map (λ word. word.now) words.now) }
    ensures inside { result ≤ length words.now }
{
    match first_option(words) {
        Some(place) => place,
        None => words.len(),
    }
}

/// Where the first word without an equals sign stands.
fn first_option(words: &[&[u8]]) -> Option<usize>
    ensures place { result ≡ position (λ word. is_none (position is_equals word.now)) words.now }
    ensures inside { IfSome result (λ i. i < length words.now) }
{
    words.iter().position(|word| first_equals(word).is_none())
}

/// Where the first equals sign stands.
fn first_equals(word: &[u8]) -> Option<usize>
    ensures place { result ≡ position is_equals word.now }
    ensures inside { IfSome result (λ i. i < length word.now) }
{
    word.iter().position(|b| *b == b'=')
}

/// Where the first equals sign stands, or the end of the word.
fn end_of_cell(word: &[u8]) -> usize
    ensures end { result ≡ end_of_cell word.now }
    ensures inside { result ≤ length word.now }
{
    match first_equals(word) {
        Some(place) => place,
        None => word.len(),
    }
}

/// Whether the words begin with an option, and the words after it.
fn take_option<'a, 'b>(option: &[u8], words: &'a [&'b [u8]]) -> (bool, &'a [&'b [u8]])
    ensures given { result.0 ≡ has_option option.now (map (λ word. word.now) words.now) }
    ensures rest { map (λ word. word.now) result.1.now ≡ after_option option.now (map (λ word. word.now) words.now) }
{
    match words {
        [word, rest @ ..] if *word == option => (true, rest),
        _ => (false, words),
    }
}

/// The items of the words, at least one, if each word is one and no cell is named twice.
fn read_items(alloc: Global, words: &[&[u8]]) -> Result<Option<Listed<SwapItem>>, AllocError>
    ensures { IfOk result (λ items. items ≡ swap_items (map (λ word. word.now) words.now)) }
{
    if words.is_empty() || !name_different_cells(alloc, words)? {
        return Ok(None);
    }
    read_each(alloc, words)
}

/// Whether what stands before the first equals sign differs from word to word.
fn name_different_cells(alloc: Global, words: &[&[u8]]) -> Result<bool, AllocError>
    ensures { IfOk result (λ different. different ≡ are_different (map cell_part (map (λ word. word.now) words.now))) }
{
    let parts = cell_parts(alloc, words)?;
    are_different(alloc, parts.as_slice())
}

/// What stands before the first equals sign of each word.
fn cell_parts<'a>(alloc: Global, words: &[&'a [u8]]) -> Result<Vec<&'a [u8]>, AllocError>
    ensures { IfOk result (λ parts. map (λ part. part.now) parts.items ≡ map cell_part (map (λ word. word.now) words.now)) }
{
    let mut parts = Vec::new(alloc);
    for word in words {
        parts.push(cell_part(*word))?;
    }
    Ok(parts)
}

/// What stands before the first equals sign, or all of the word.
fn cell_part<'a>(word: &'a [u8]) -> &'a [u8]
    ensures { result.now ≡ cell_part word.now }
{
    &word[..end_of_cell(word)]
}

/// The item of each word, if each is one.
fn read_each(alloc: Global, words: &[&[u8]]) -> Result<Option<Listed<SwapItem>>, AllocError>
    ensures { IfOk result (λ items. items ≡ each_said swap_item (map (λ word. word.now) words.now)) }
{
    let mut items = Vec::new(alloc);
    for word in words {
        let Some(item) = read_item(alloc, word)? else {
            return Ok(None);
        };
        items.push(item)?;
    }
    Ok(Some(Listed::from_vec(items)))
}

/// `NS/OLD=FILE`
fn read_item(alloc: Global, word: &[u8]) -> Result<Option<SwapItem>, AllocError>
    ensures { IfOk result (λ item. item ≡ swap_item word.now) }
{
    let end = end_of_cell(word);
    let Some(cell) = cell_of_word(alloc, &word[..end])? else {
        return Ok(None);
    };
    if end == word.len() {
        return Ok(None);
    }
    let file = &word[end + 1..];
    if !is_file(file) {
        return Ok(None);
    }
    Ok(Some(SwapItem {
        ns: cell.ns,
        stem: cell.stem,
        file: Name::of(alloc, file)?,
    }))
}
