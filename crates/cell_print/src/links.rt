//! Lines of links.

ghost use Rattle.std.specs.Prelude.{◌≡◌, ◌++◌, ◌∷◌, [], OnOk};
ghost use Rattle.std.specs.List.{flat_map};
ghost use Rattle.cell_world.specs.declared.reply.Reply.TheVariants.{Deps, Users};
ghost use Rattle.cell_print.specs.Lines.{answer_line, cell_word, link_line, reply_lines, Extends};

use crate::Piece::{Cell, Key, Kind, Place, Text};
use crate::{put_answer, put_line};
use cell_num::CellId;
use cell_world::LinkLine;
use std::alloc::AllocError;

/// Appends the links of a cell.
pub fn put_deps(
    line: u32,
    cell: CellId,
    links: &[LinkLine],
    into: &mut Vec<u8>,
) -> Result<(), AllocError>
    ensures ok { OnOk result (into.new.items ≡ into.old.items ++ reply_lines line (Deps cell links.now)) }
    ensures extends { Extends into.old.items into.new.items }
{
    put_links(line, b"ok deps", cell, links, into)
}

/// Appends the links into a cell.
pub fn put_users(
    line: u32,
    cell: CellId,
    links: &[LinkLine],
    into: &mut Vec<u8>,
) -> Result<(), AllocError>
    ensures ok { OnOk result (into.new.items ≡ into.old.items ++ reply_lines line (Users cell links.now)) }
    ensures extends { Extends into.old.items into.new.items }
{
    put_links(line, b"ok users", cell, links, into)
}

/// Appends a cell, on a line with the words of a command, and then links.
fn put_links(
    line: u32,
    words: &[u8],
    cell: CellId,
    links: &[LinkLine],
    into: &mut Vec<u8>,
) -> Result<(), AllocError>
    ensures ok { OnOk result (into.new.items ≡ into.old.items ++ answer_line line words.now (cell_word cell ∷ []) ++ flat_map link_line links.now) }
    ensures extends { Extends into.old.items into.new.items }
{
    put_answer(line, words, &[Cell(cell)], into)?;
    put_each(links, into)
}

fn put_each(links: &[LinkLine], into: &mut Vec<u8>) -> Result<(), AllocError>
    ensures ok { OnOk result (into.new.items ≡ into.old.items ++ flat_map link_line links.now) }
    ensures extends { Extends into.old.items into.new.items }
{
    for link in links {
        put_link(*link, into)?;
    }
    Ok(())
}

fn put_link(link: LinkLine, into: &mut Vec<u8>) -> Result<(), AllocError>
    ensures ok { OnOk result (into.new.items ≡ into.old.items ++ link_line link) }
    ensures extends { Extends into.old.items into.new.items }
{
    put_line(
        &[
            Text(b"  "),
            Place(link.user, link.offset),
            Text(b" "),
            Kind(link.kind),
            Text(b" -> "),
            Key(link.target),
        ],
        into,
    )
}
