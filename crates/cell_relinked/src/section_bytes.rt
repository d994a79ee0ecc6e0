//! What a section holds before its fields are written.

ghost use Rattle.std.specs.Prelude.{◌≡◌, ◌+◌, ◌<◌, ◌^◌, IfOk, map, replicate};
ghost use Rattle.cell_num.specs.Lists.{upto};
ghost use Rattle.cell_audit.specs.Told.{byte_told};
ghost use Rattle.cell_world.specs.Placed.Layout.{own_bytes};
ghost use Rattle.cell_relinked.specs.Contents.{first_bytes};

use cell_audit::Told;
use cell_object::{Fill, Section};
use std::alloc::{AllocError, Global};

/// What the dump tells of so many bytes from there on.
fn told_bytes(alloc: Global, told: &Told, start: u64, size: u32) -> Result<Vec<u8>, AllocError>
    requires { start + size < 2 ^ 64 }
    ensures { IfOk result (λ bytes. bytes.items ≡ map (λ k. byte_told told.now (start + k)) (upto size)) }
{
    let mut bytes = Vec::with_capacity(alloc, size as usize)?;
    for k in 0..size {
        bytes.push(told.at(start + u64::from(k)))?;
    }
    Ok(bytes)
}

fn zeros(alloc: Global, size: u32) -> Result<Vec<u8>, AllocError>
    ensures { IfOk result (λ bytes. bytes.items ≡ replicate size 0) }
{
    let mut bytes = Vec::with_capacity(alloc, size as usize)?;
    for _ in 0..size {
        bytes.push(0)?;
    }
    Ok(bytes)
}

/// The section's bytes in its object.
fn own_bytes(alloc: Global, section: &Section) -> Result<Vec<u8>, AllocError>
    ensures { IfOk result (λ bytes. bytes.items ≡ own_bytes section.now section.now.fill) }
{
    match section.fill {
        Fill::Prog | Fill::Note => section.bytes.as_slice().to_vec(alloc),
        Fill::Zero => zeros(alloc, section.size),
    }
}

/// What the dump tells of a section that may be written, or else what its object has.
pub fn first_bytes(
    alloc: Global,
    told: &Told,
    section: &Section,
    start: u64,
) -> Result<Vec<u8>, AllocError>
    requires { start + section.now.size < 2 ^ 64 }
    ensures { IfOk result (λ bytes. bytes.items ≡ first_bytes told.now start section.now) }
{
    if section.write {
        told_bytes(alloc, told, start, section.size)
    } else {
        own_bytes(alloc, section)
    }
}
