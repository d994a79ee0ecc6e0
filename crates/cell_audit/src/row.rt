//! A line of a dump behind those before it.

ghost use Rattle.std.specs.Prelude.{◌≡◌, IfOk, IfSome};
ghost use Rattle.cell_audit.specs.Dumps.{said_at};
ghost use Rattle.cell_audit.specs.Known.{after_line, said_behind};

use crate::order::Known;
use cell_dumped::read_line;
use cell_world::DumpLine;
use std::alloc::{AllocError, Global};

/// What the text says behind the lines of which that is known, if it says something there. Then `known` goes on behind it.
pub fn read_behind(
    alloc: Global,
    known: &mut Known,
    text: &[u8],
) -> Result<Option<DumpLine>, AllocError>
    ensures line { IfOk result (λ line. line ≡ said_behind known.old text.now) }
    ensures known { IfOk result (λ line. IfSome line (λ l. known.new ≡ after_line known.old l)) }
{
    let Some(line) = read_said(alloc, text)? else {
        return Ok(None);
    };
    if !known.may_precede(&line) {
        return Ok(None);
    }
    known.add(&line);
    Ok(Some(line))
}

/// What stands behind two spaces.
fn read_said(alloc: Global, text: &[u8]) -> Result<Option<DumpLine>, AllocError>
    ensures { IfOk result (λ line. line ≡ said_at text.now) }
{
    match text {
        [b' ', b' ', said @ ..] => read_line(alloc, said),
        _ => Ok(None),
    }
}
