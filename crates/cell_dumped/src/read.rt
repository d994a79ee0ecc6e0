//! A line of a dump from its text.

ghost use Rattle.std.specs.Prelude.{◌≡◌, ◌==◌, map, filter, length, IfOk};
ghost use Rattle.std.specs.List.{slice_split};
ghost use Rattle.cell_dumped.specs.Readings.{alias_said, cell_said, content_said, end_said, forms, line_said, link_said, ns_said, place_said, provider_said, said_by, said_in, space_said};

use crate::content::read_content;
use crate::word::{around, read_group, read_number, read_parent, read_part};
use cell_num::Name;
use cell_script::{is_file, is_name, is_symbol};
use cell_text::read_hex;
use cell_world::DumpLine;
use std::alloc::{AllocError, Global};

/// What the text says, if it is that of a line. The two spaces before a line in a transcript are no part of its text.
#[tactic(auto, using(crate::proofs::Long::longs))]
pub fn read_line(alloc: Global, text: &[u8]) -> Result<Option<DumpLine>, AllocError>
    ensures { IfOk result (λ line. line ≡ line_said text.now) }
{
    if space_count(text) > MOST_SPACES {
        return Ok(None);
    }
    let words = words_of(alloc, text)?;
    read_words(alloc, words.as_slice())
}

/// The most spaces of a line: a cell's that a swap put aside has seven words.
const MOST_SPACES: usize = 6;

fn space_count(text: &[u8]) -> usize
    ensures { result ≡ length (filter (λ b. b == 32) text.now) }
{
    text.iter().filter(|b| **b == b' ').count()
}

/// What stands between the spaces.
fn words_of<'a>(alloc: Global, text: &'a [u8]) -> Result<Vec<&'a [u8]>, AllocError>
    ensures { IfOk result (λ words. map (λ word. word.now) words.items ≡ slice_split (λ b. b == 32) text.now) }
{
    text.split(|b| *b == b' ').collect(alloc)
}

fn read_words(alloc: Global, words: &[&[u8]]) -> Result<Option<DumpLine>, AllocError>
    ensures { IfOk result (λ line. line ≡ said_by (map (λ word. word.now) words.now)) }
{
    match words {
        [] => Ok(None),
        [word, rest @ ..] => read_form(alloc, word, rest),
    }
}

/// The line with this first word, if its other words fit it.
fn read_form(alloc: Global, word: &[u8], rest: &[&[u8]]) -> Result<Option<DumpLine>, AllocError>
    ensures { IfOk result (λ line. line ≡ said_in forms word.now (map (λ word. word.now) rest.now)) }
{
    if word == b"space".as_slice() {
        Ok(read_space(rest))
    } else if word == b"ns".as_slice() {
        read_ns(alloc, rest)
    } else if word == b"cell".as_slice() {
        read_cell(alloc, rest)
    } else if word == b"place".as_slice() {
        Ok(read_place(rest))
    } else if word == b"alias".as_slice() {
        read_alias(alloc, rest)
    } else if word == b"link".as_slice() {
        Ok(read_link(rest))
    } else if word == b"name".as_slice() {
        read_provider(alloc, rest)
    } else if word == b"bytes".as_slice() {
        read_bytes(alloc, rest)
    } else if word == b"end".as_slice() {
        Ok(read_end(rest))
    } else {
        Ok(None)
    }
}

/// `space BASE PAGES`
fn read_space(rest: &[&[u8]]) -> Option<DumpLine>
    ensures { result ≡ space_said (map (λ word. word.now) rest.now) }
{
    let [base, pages] = rest else {
        return None;
    };
    let base = read_hex(base)?;
    let pages = read_number(pages)?;
    Some(DumpLine::Space { base, pages })
}

/// `ns NUMBER NAME PARENT`
fn read_ns(alloc: Global, rest: &[&[u8]]) -> Result<Option<DumpLine>, AllocError>
    ensures { IfOk result (λ line. line ≡ ns_said (map (λ word. word.now) rest.now)) }
{
    let [number, name, parent] = rest else {
        return Ok(None);
    };
    let Some(number) = read_number(number) else {
        return Ok(None);
    };
    if !is_name(name) {
        return Ok(None);
    }
    let Some(parent) = read_parent(parent) else {
        return Ok(None);
    };
    let name = Name::of(alloc, name)?;
    Ok(Some(DumpLine::Ns {
        number,
        name,
        parent,
    }))
}

/// `cell CELL NS STEM FILE attached`, or `cell CELL NS STEM FILE group SWAP`
fn read_cell(alloc: Global, rest: &[&[u8]]) -> Result<Option<DumpLine>, AllocError>
    ensures { IfOk result (λ line. line ≡ cell_said (map (λ word. word.now) rest.now)) }
{
    let [cell, ns, stem, file, group @ ..] = rest else {
        return Ok(None);
    };
    let Some(cell) = read_number(cell) else {
        return Ok(None);
    };
    let Some(ns) = read_number(ns) else {
        return Ok(None);
    };
    if !is_name(stem) || !is_file(file) {
        return Ok(None);
    }
    let Some(group) = read_group(group) else {
        return Ok(None);
    };
    let stem = Name::of(alloc, stem)?;
    let file = Name::of(alloc, file)?;
    Ok(Some(DumpLine::Cell {
        cell,
        ns,
        stem,
        file,
        group,
    }))
}

/// `place CELL SECTION START`
fn read_place(rest: &[&[u8]]) -> Option<DumpLine>
    ensures { result ≡ place_said (map (λ word. word.now) rest.now) }
{
    let [cell, section, start] = rest else {
        return None;
    };
    let cell = read_number(cell)?;
    let section = read_number(section)?;
    let start = read_hex(start)?;
    Some(DumpLine::Place {
        cell,
        section,
        start,
    })
}

/// `alias CELL SYMBOL NAME`
fn read_alias(alloc: Global, rest: &[&[u8]]) -> Result<Option<DumpLine>, AllocError>
    ensures { IfOk result (λ line. line ≡ alias_said (map (λ word. word.now) rest.now)) }
{
    let [cell, symbol, name] = rest else {
        return Ok(None);
    };
    let Some(cell) = read_number(cell) else {
        return Ok(None);
    };
    let Some(symbol) = read_number(symbol) else {
        return Ok(None);
    };
    if !is_symbol(name) {
        return Ok(None);
    }
    let name = Name::of(alloc, name)?;
    Ok(Some(DumpLine::Alias { cell, symbol, name }))
}

/// `link CELL.SECTION ENTRY CELL.SECTION`
fn read_link(rest: &[&[u8]]) -> Option<DumpLine>
    ensures { result ≡ link_said (map (λ word. word.now) rest.now) }
{
    let [user, entry, target] = rest else {
        return None;
    };
    let user = read_part(user)?;
    let entry = read_number(entry)?;
    let target = read_part(target)?;
    Some(DumpLine::Link {
        user,
        entry,
        target,
    })
}

/// `name NS NAME CELL.SECTION+OFFSET`
fn read_provider(alloc: Global, rest: &[&[u8]]) -> Result<Option<DumpLine>, AllocError>
    ensures { IfOk result (λ line. line ≡ provider_said (map (λ word. word.now) rest.now)) }
{
    let [ns, name, place] = rest else {
        return Ok(None);
    };
    let Some(ns) = read_number(ns) else {
        return Ok(None);
    };
    if !is_symbol(name) {
        return Ok(None);
    }
    let Some((at, offset)) = around(place, b'+') else {
        return Ok(None);
    };
    let Some(at) = read_part(at) else {
        return Ok(None);
    };
    let Some(offset) = read_hex(offset) else {
        return Ok(None);
    };
    let name = Name::of(alloc, name)?;
    Ok(Some(DumpLine::Provider {
        ns,
        name,
        at,
        offset,
    }))
}

/// `bytes CELL.SECTION ADDR BYTES`
fn read_bytes(alloc: Global, rest: &[&[u8]]) -> Result<Option<DumpLine>, AllocError>
    ensures { IfOk result (λ line. line ≡ content_said (map (λ word. word.now) rest.now)) }
{
    let [at, addr, bytes] = rest else {
        return Ok(None);
    };
    let Some(at) = read_part(at) else {
        return Ok(None);
    };
    let Some(addr) = read_hex(addr) else {
        return Ok(None);
    };
    let Some(bytes) = read_content(alloc, bytes)? else {
        return Ok(None);
    };
    Ok(Some(DumpLine::Content { at, addr, bytes }))
}

/// `end`
fn read_end(rest: &[&[u8]]) -> Option<DumpLine>
    ensures { result ≡ end_said (map (λ word. word.now) rest.now) }
{
    match rest {
        [] => Some(DumpLine::End),
        [_, ..] => None,
    }
}
