//! Lines of the whole machine's dump.

ghost use Rattle.std.specs.Prelude.{◌≡◌, ◌++◌, OnOk};
ghost use Rattle.std.specs.List.{flat_map};
ghost use Rattle.cell_print.specs.Lines.{dump_line, Extends};

use cell_dumped::put_line;
use cell_world::DumpLine;
use std::alloc::AllocError;

/// Appends the lines of a dump. One buffer serves all of them.
pub fn put_dump(lines: &[DumpLine], into: &mut Vec<u8>) -> Result<(), AllocError>
    ensures ok { OnOk result (into.new.items ≡ into.old.items ++ flat_map dump_line lines.now) }
    ensures extends { Extends into.old.items into.new.items }
{
    let mut text = Vec::new(*into.allocator());
    for line in lines {
        put_by(&mut text, line, into)?;
    }
    Ok(())
}

/// Appends a line that is written to `text` first, so that all of it is appended or nothing.
fn put_by(text: &mut Vec<u8>, line: &DumpLine, into: &mut Vec<u8>) -> Result<(), AllocError>
    ensures ok { OnOk result (into.new.items ≡ into.old.items ++ dump_line line.now) }
    ensures extends { Extends into.old.items into.new.items }
{
    text.clear();
    text.extend_from_slice(b"  ")?;
    put_line(text, line)?;
    text.push(b'\n')?;
    into.extend_from_slice(text.as_slice())
}
