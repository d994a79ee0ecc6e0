//! One line.

ghost use Rattle.std.specs.Prelude.{◌≡◌, ◌++◌, map, OnOk};
ghost use Rattle.cell_print.specs.Lines.{answer_line, line, Extends};
ghost use Rattle.cell_print.specs.Pieces.{text};

use crate::piece::{Piece, put_piece};
use cell_text::put_dec;
use std::alloc::AllocError;

/// Appends the pieces, one after another, and a line feed.
pub fn put_line(pieces: &[Piece<'_>], into: &mut Vec<u8>) -> Result<(), AllocError>
    ensures ok { OnOk result (into.new.items ≡ into.old.items ++ line (map text pieces.now)) }
    ensures extends { Extends into.old.items into.new.items }
{
    for piece in pieces {
        put_piece(*piece, into)?;
    }
    into.extend_from_slice(b"\n")
}

/// Appends the line of an answer: the number of the command's line, words, and the pieces, with a
/// space before each.
pub fn put_answer(
    number: u32,
    words: &[u8],
    pieces: &[Piece<'_>],
    into: &mut Vec<u8>,
) -> Result<(), AllocError>
    ensures ok { OnOk result (into.new.items ≡ into.old.items ++ answer_line number words.now (map text pieces.now)) }
    ensures extends { Extends into.old.items into.new.items }
{
    put_dec(u64::from(number), into)?;
    into.push(b' ')?;
    into.extend_from_slice(words)?;
    for piece in pieces {
        into.push(b' ')?;
        put_piece(*piece, into)?;
    }
    into.extend_from_slice(b"\n")
}
