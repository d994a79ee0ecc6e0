//! The script.

ghost use Rattle.std.specs.Prelude.{◌≡◌, ◌++◌, ◌<◌, ◌≤◌, ◌^◌, flat_map, IfOk, OnOk};
ghost use Rattle.cell_gen.specs.Generated.{crates_to, generated_script, load_text, swap_text};

use crate::text::put_name;
use std::alloc::{AllocError, Global};

/// Each of so many crates is loaded, then each is replaced, then what nobody keeps is removed.
pub fn make_script(alloc: Global, crates: u32) -> Result<Vec<u8>, AllocError>
    requires { crates < 2 ^ 31 }
    ensures { IfOk result (λ text. text.items ≡ generated_script crates) }
{
    let mut text = Vec::new(alloc);
    put_loads(crates, &mut text)?;
    put_swaps(crates, &mut text)?;
    text.extend_from_slice(b"purge\n")?;
    Ok(text)
}

fn put_loads(crates: u32, text: &mut Vec<u8>) -> Result<(), AllocError>
    requires { crates < 2 ^ 31 }
    ensures { OnOk result (text.new.items ≡ text.old.items ++ flat_map load_text (crates_to crates)) }
{
    for number in 1..crates + 1 {
        put_name(b"load k ", number, b"\n", text)?;
    }
    Ok(())
}

fn put_swaps(crates: u32, text: &mut Vec<u8>) -> Result<(), AllocError>
    requires { crates < 2 ^ 31 }
    ensures { OnOk result (text.new.items ≡ text.old.items ++ flat_map swap_text (crates_to crates)) }
{
    for number in 1..crates + 1 {
        put_swap(number, text)?;
    }
    Ok(())
}

fn put_swap(number: u32, text: &mut Vec<u8>) -> Result<(), AllocError>
    ensures { OnOk result (text.new.items ≡ text.old.items ++ swap_text number) }
{
    put_name(b"swap k/", number, b"=", text)?;
    put_name(b"n#", number, b"-2.o", text)?;
    text.extend_from_slice(b"\n")
}
