//! Lines of a dump as text.

ghost use Rattle.std.specs.Prelude.{◌≡◌, [], ◌∷◌, ◌++◌, codes, OnOk};
ghost use Rattle.std.specs.List.{flat_map};
ghost use Rattle.std.specs.Fmt.{decimal};
ghost use Rattle.cell_text.specs.Number.{hex, hex_byte};
ghost use Rattle.cell_world.specs.declared.line.DumpLine.TheVariants.{Space, Ns, Place, Alias, Link, Provider, Content};
ghost use Rattle.cell_dumped.specs.Texts.{group_words, joined, line_text, parent_word, part_word};

use cell_num::Name;
use cell_text::{put_dec, put_hex, put_hex_byte};
use cell_world::{DumpLine, Part};
use std::alloc::AllocError;

/// Appends the text of a line, without what stands before it and the line feed.
pub fn put_line(text: &mut Vec<u8>, line: &DumpLine) -> Result<(), AllocError>
    ensures { OnOk result (text.new.items ≡ text.old.items ++ line_text line.now) }
{
    match line {
        DumpLine::Space { base, pages } => put_space(text, *base, *pages),
        DumpLine::Ns {
            number,
            name,
            parent,
        } => put_ns(text, *number, name, *parent),
        DumpLine::Cell {
            cell,
            ns,
            stem,
            file,
            group,
        } => {
            put_cell(text, *cell, *ns, stem)?;
            put_file(text, file, *group)
        }
        DumpLine::Place {
            cell,
            section,
            start,
        } => put_place(text, *cell, *section, *start),
        DumpLine::Alias { cell, symbol, name } => put_alias(text, *cell, *symbol, name),
        DumpLine::Link {
            user,
            entry,
            target,
        } => put_link(text, *user, *entry, *target),
        DumpLine::Provider {
            ns,
            name,
            at,
            offset,
        } => put_provider(text, *ns, name, *at, *offset),
        DumpLine::Content { at, addr, bytes } => put_content(text, *at, *addr, bytes.as_slice()),
        DumpLine::End => text.extend_from_slice(b"end"),
    }
}

fn put_space(text: &mut Vec<u8>, base: u64, pages: u64) -> Result<(), AllocError>
    ensures { OnOk result (text.new.items ≡ text.old.items ++ line_text (Space base pages)) }
{
    text.extend_from_slice(b"space")?;
    put_address(text, base)?;
    put_number(text, pages)
}

fn put_ns(
    text: &mut Vec<u8>,
    number: u64,
    name: &Name,
    parent: Option<u64>,
) -> Result<(), AllocError>
    ensures { OnOk result (text.new.items ≡ text.old.items ++ line_text (Ns number name.now parent)) }
{
    text.extend_from_slice(b"ns")?;
    put_number(text, number)?;
    put_word(text, name.bytes())?;
    put_parent(text, parent)
}

/// Appends the front of a cell's line, up to its stem.
fn put_cell(text: &mut Vec<u8>, cell: u64, ns: u64, stem: &Name) -> Result<(), AllocError>
    ensures { OnOk result (text.new.items ≡ text.old.items ++ joined (codes "cell" ∷ decimal cell ∷ decimal ns ∷ stem.now ∷ [])) }
{
    text.extend_from_slice(b"cell")?;
    put_number(text, cell)?;
    put_number(text, ns)?;
    put_word(text, stem.bytes())
}

/// Appends the rest of that line.
fn put_file(text: &mut Vec<u8>, file: &Name, group: Option<u64>) -> Result<(), AllocError>
    ensures { OnOk result (text.new.items ≡ text.old.items ++ flat_map (λ w. 32 ∷ w) (file.now ∷ group_words group)) }
{
    put_word(text, file.bytes())?;
    put_group(text, group)
}

fn put_place(text: &mut Vec<u8>, cell: u64, section: u64, start: u64) -> Result<(), AllocError>
    ensures { OnOk result (text.new.items ≡ text.old.items ++ line_text (Place cell section start)) }
{
    text.extend_from_slice(b"place")?;
    put_number(text, cell)?;
    put_number(text, section)?;
    put_address(text, start)
}

fn put_alias(text: &mut Vec<u8>, cell: u64, symbol: u64, name: &Name) -> Result<(), AllocError>
    ensures { OnOk result (text.new.items ≡ text.old.items ++ line_text (Alias cell symbol name.now)) }
{
    text.extend_from_slice(b"alias")?;
    put_number(text, cell)?;
    put_number(text, symbol)?;
    put_word(text, name.bytes())
}

fn put_link(text: &mut Vec<u8>, user: Part, entry: u64, target: Part) -> Result<(), AllocError>
    ensures { OnOk result (text.new.items ≡ text.old.items ++ line_text (Link user entry target)) }
{
    text.extend_from_slice(b"link")?;
    put_part(text, user)?;
    put_number(text, entry)?;
    put_part(text, target)
}

fn put_provider(
    text: &mut Vec<u8>,
    ns: u64,
    name: &Name,
    at: Part,
    offset: u64,
) -> Result<(), AllocError>
    ensures { OnOk result (text.new.items ≡ text.old.items ++ line_text (Provider ns name.now at offset)) }
{
    text.extend_from_slice(b"name")?;
    put_number(text, ns)?;
    put_word(text, name.bytes())?;
    put_part(text, at)?;
    text.extend_from_slice(b"+")?;
    put_hex(offset, text)
}

fn put_content(text: &mut Vec<u8>, at: Part, addr: u64, bytes: &[u8]) -> Result<(), AllocError>
    ensures { OnOk result (text.new.items ≡ text.old.items ++ line_text (Content at addr bytes.now)) }
{
    text.extend_from_slice(b"bytes")?;
    put_part(text, at)?;
    put_address(text, addr)?;
    text.push(b' ')?;
    put_bytes(text, bytes)
}

/// Appends a space and a word.
fn put_word(text: &mut Vec<u8>, word: &[u8]) -> Result<(), AllocError>
    ensures { OnOk result (text.new.items ≡ text.old.items ++ 32 ∷ word.now) }
{
    text.push(b' ')?;
    text.extend_from_slice(word)
}

/// Appends a space and a number in decimal.
fn put_number(text: &mut Vec<u8>, number: u64) -> Result<(), AllocError>
    ensures { OnOk result (text.new.items ≡ text.old.items ++ 32 ∷ decimal number) }
{
    text.push(b' ')?;
    put_dec(number, text)
}

/// Appends a space and a number in hex.
fn put_address(text: &mut Vec<u8>, address: u64) -> Result<(), AllocError>
    ensures { OnOk result (text.new.items ≡ text.old.items ++ 32 ∷ hex address) }
{
    text.push(b' ')?;
    put_hex(address, text)
}

/// Appends a space, a cell, and its section.
fn put_part(text: &mut Vec<u8>, part: Part) -> Result<(), AllocError>
    ensures { OnOk result (text.new.items ≡ text.old.items ++ 32 ∷ part_word part) }
{
    put_number(text, part.cell)?;
    text.extend_from_slice(b".")?;
    put_dec(part.section, text)
}

/// Appends a space and the number of a parent, or a dash.
fn put_parent(text: &mut Vec<u8>, parent: Option<u64>) -> Result<(), AllocError>
    ensures { OnOk result (text.new.items ≡ text.old.items ++ 32 ∷ parent_word parent) }
{
    match parent {
        Some(parent) => put_number(text, parent),
        None => put_word(text, b"-"),
    }
}

/// Appends the words that say whether a cell is attached, with a space before each.
fn put_group(text: &mut Vec<u8>, group: Option<u64>) -> Result<(), AllocError>
    ensures { OnOk result (text.new.items ≡ text.old.items ++ flat_map (λ w. 32 ∷ w) (group_words group)) }
{
    let Some(swap) = group else {
        return put_word(text, b"attached");
    };
    put_word(text, b"group")?;
    put_number(text, swap)
}

/// Appends bytes in hex, two digits each.
fn put_bytes(text: &mut Vec<u8>, bytes: &[u8]) -> Result<(), AllocError>
    ensures { OnOk result (text.new.items ≡ text.old.items ++ flat_map hex_byte bytes.now) }
{
    for byte in bytes {
        put_hex_byte(*byte, text)?;
    }
    Ok(())
}
