//! The object files.

ghost use Rattle.std.specs.Prelude.{◌≡◌, ◌++◌, ◌<◌, ◌≤◌, ◌^◌, length, [], codes, IfOk, OnOk};
ghost use Rattle.cell_gen.specs.Generated.{crate_drawn, crate_name, file_of, files_naming, generated_files, image_of, loaded_name, next_state, replacing_name, short_image, source};

use crate::draws::{Draws, Three};
use crate::text::{put_name, write_source};
use cell_asm::AsmFail;
use cell_assemble::image_of_source;
use cell_num::{MAX_FILE_BYTES, Name, Shared};
use cell_world::File;
use std::alloc::{AllocError, Global};

/// The files of so many crates, two for each.
pub fn make_files(alloc: Global, crates: u32, seed: u64) -> Result<Vec<File>, AllocError>
    requires some { 1 ≤ crates }
    requires few { crates < 2 ^ 31 }
    ensures { IfOk result (λ files. files.items ≡ generated_files crates seed) }
{
    let mut draws = Draws {
        state: seed,
        crates,
    };
    let mut text = Vec::new(alloc);
    let mut files = Vec::new(alloc);
    for number in 1..crates + 1 {
        add_crate(alloc, number, &mut draws, &mut text, &mut files)?;
    }
    Ok(files)
}

/// Adds the two files of a crate; `text` is room for a name and for a source.
fn add_crate(
    alloc: Global,
    number: u32,
    draws: &mut Draws,
    text: &mut Vec<u8>,
    files: &mut Vec<File>,
) -> Result<(), AllocError>
    ensures crates { draws.new.crates ≡ draws.old.crates }
    ensures state { draws.new.state ≡ next_state (next_state (next_state draws.old.state)) }
    ensures files { OnOk result (
        let one = next_state draws.old.state in
        let two = next_state one in
        let crate_in = crate_drawn draws.old.crates in
        files.new.items ≡ files.old.items ++ files_naming number (crate_in one) (crate_in two) (crate_in (next_state two))) }
{
    let drawn = draws.draw_three();
    add_files(alloc, number, drawn, text, files)
}

fn add_files(
    alloc: Global,
    number: u32,
    drawn: Three,
    text: &mut Vec<u8>,
    files: &mut Vec<File>,
) -> Result<(), AllocError>
    ensures { OnOk result (files.new.items ≡ files.old.items ++ files_naming number drawn.first drawn.second drawn.third) }
{
    files.push(loaded_file(alloc, number, drawn, text)?)?;
    files.push(replacing_file(alloc, number, drawn, text)?)?;
    Ok(())
}

/// The file that is loaded.
fn loaded_file(
    alloc: Global,
    number: u32,
    drawn: Three,
    text: &mut Vec<u8>,
) -> Result<File, AllocError>
    ensures { IfOk result (λ file.
        file ≡ file_of (loaded_name number) (source number (codes "ret") drawn.first drawn.second drawn.third)) }
{
    let name = name_of(alloc, b"k#", number, b".o", text)?;
    write_source(number, b"ret", drawn, text)?;
    make_file(alloc, name, text)
}

/// The file that takes its place.
fn replacing_file(
    alloc: Global,
    number: u32,
    drawn: Three,
    text: &mut Vec<u8>,
) -> Result<File, AllocError>
    ensures { IfOk result (λ file.
        file ≡ file_of (replacing_name number) (source number (codes "nop\nret") drawn.first drawn.second drawn.third)) }
{
    let name = name_of(alloc, b"n#", number, b"-2.o", text)?;
    write_source(number, b"nop\nret", drawn, text)?;
    make_file(alloc, name, text)
}

/// A name that has the crate's in it; `text` is room for it.
fn name_of(
    alloc: Global,
    before: &[u8],
    number: u32,
    after: &[u8],
    text: &mut Vec<u8>,
) -> Result<Name, AllocError>
    ensures { IfOk result (λ name. name ≡ before.now ++ crate_name number ++ after.now) }
{
    text.clear();
    put_name(before, number, after, text)?;
    Name::of(alloc, text)
}

fn make_file(alloc: Global, name: Name, source: &[u8]) -> Result<File, AllocError>
    requires { length source.now < 2 ^ 31 }
    ensures { IfOk result (λ file. file ≡ file_of name source.now) }
{
    let bytes = image_or_none(alloc, source)?;
    Ok(File { name, bytes })
}

/// The image of a source, or no byte where it has a fault or is too long.
#[tactic(auto, unfolding(crate::specs::Generated::image_of))]
fn image_or_none(alloc: Global, source: &[u8]) -> Result<Shared, AllocError>
    requires { length source.now < 2 ^ 31 }
    ensures { IfOk result (λ bytes. bytes ≡ image_of source.now) }
{
    match image_of_source(alloc, source) {
        Ok(image) => short_image(alloc, image),
        Err(AsmFail::Fault { .. }) => no_bytes(alloc),
        Err(AsmFail::OutOfMemory) => Err(AllocError),
    }
}

fn short_image(alloc: Global, image: Shared) -> Result<Shared, AllocError>
    ensures { IfOk result (λ bytes. bytes ≡ short_image image) }
{
    if image.len() <= MAX_FILE_BYTES as usize {
        return Ok(image);
    }
    no_bytes(alloc)
}

fn no_bytes(alloc: Global) -> Result<Shared, AllocError>
    ensures { IfOk result (λ bytes. bytes ≡ []) }
{
    Shared::from_vec(alloc, Vec::new(alloc))
}
