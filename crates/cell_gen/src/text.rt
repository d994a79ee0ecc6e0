//! What is written of a crate.

ghost use Rattle.std.specs.Prelude.{◌≡◌, ◌++◌, ◌<◌, ◌≤◌, ◌^◌, length, OnOk};
ghost use Rattle.cell_gen.specs.Generated.{crate_name, function_text, label_text, source, table_text, three_text};

use crate::draws::Three;
use cell_text::put_dec;
use std::alloc::AllocError;

/// Appends a crate's name between two texts.
pub fn put_name(
    before: &[u8],
    number: u32,
    after: &[u8],
    text: &mut Vec<u8>,
) -> Result<(), AllocError>
    ensures { OnOk result (text.new.items ≡ text.old.items ++ (before.now ++ crate_name number ++ after.now)) }
{
    text.extend_from_slice(before)?;
    text.extend_from_slice(b"g")?;
    put_dec(u64::from(number), text)?;
    text.extend_from_slice(after)
}

/// Writes the source of a crate, whose function has that body, in place of what `text` holds.
pub fn write_source(
    number: u32,
    body: &[u8],
    drawn: Three,
    text: &mut Vec<u8>,
) -> Result<(), AllocError>
    requires { length body.now ≤ 16 }
    ensures source { OnOk result (text.new.items ≡ source number body.now drawn.first drawn.second drawn.third) }
    ensures short { OnOk result (length text.new.items < 2 ^ 31) }
{
    text.clear();
    put_function(number, body, text)?;
    put_table(number, drawn, text)?;
    Ok(())
}

fn put_function(number: u32, body: &[u8], text: &mut Vec<u8>) -> Result<(), AllocError>
    ensures { OnOk result (text.new.items ≡ text.old.items ++ function_text number body.now) }
{
    put_label(b".text", number, b"::f", text)?;
    text.extend_from_slice(body)?;
    text.extend_from_slice(b"\n")
}

fn put_table(number: u32, drawn: Three, text: &mut Vec<u8>) -> Result<(), AllocError>
    ensures { OnOk result (text.new.items ≡ text.old.items ++ table_text number drawn.first drawn.second drawn.third) }
{
    put_label(b".rodata", number, b"::t", text)?;
    put_three(drawn, text)
}

fn put_three(drawn: Three, text: &mut Vec<u8>) -> Result<(), AllocError>
    ensures { OnOk result (text.new.items ≡ text.old.items ++ three_text drawn.first drawn.second drawn.third) }
{
    put_name(b".quad ", drawn.first, b"::f, ", text)?;
    put_name(b"", drawn.second, b"::f, ", text)?;
    put_name(b"", drawn.third, b"::f\n", text)
}

fn put_label(section: &[u8], number: u32, item: &[u8], text: &mut Vec<u8>) -> Result<(), AllocError>
    ensures { OnOk result (text.new.items ≡ text.old.items ++ label_text section.now number item.now) }
{
    text.extend_from_slice(section)?;
    put_name(b"\n.globl ", number, item, text)?;
    put_name(b"\n", number, item, text)?;
    text.extend_from_slice(b": ")
}
