//! What the pages of a class hold before its fields are written.

ghost use Rattle.std.specs.Prelude.{◌≡◌, ◌++◌, ◌<◌, ◌≤◌, ◌^◌, ◌+◌, OnOk, IfOk, [], replicate, length};
ghost use Rattle.cell_world.specs.Placed.Layout.{gap as gap_of, own_bytes, laid_out, to_pages, image_of};
ghost use Rattle.cell_layout.specs.Layout.{in_class};

use cell_num::PAGE_SIZE;
use cell_object::{Fill, Section};
use cell_world::Class;
use std::alloc::{AllocError, Global};

/// How many bytes are missing from `n` to the next multiple of an alignment.
pub fn gap(n: u64, align: u16) -> u64
    ensures gap { result ≡ gap_of n align }
    ensures small { result < 2 ^ 16 }
{
    let align = u64::from(align.max(1));
    (align - n % align) % align
}

/// Adds as many zeros.
fn add_zeros(image: &mut Vec<u8>, count: u64) -> Result<(), AllocError>
    requires { count < 2 ^ 33 }
    ensures { OnOk result (image.new.items ≡ image.old.items ++ replicate count 0) }
{
    let len = image.len() + count as usize;
    image.resize(len, 0)
}

/// Adds the bytes that a section has in its object.
fn add_own_bytes(image: &mut Vec<u8>, section: &Section) -> Result<(), AllocError>
    ensures { OnOk result (image.new.items ≡ image.old.items ++ own_bytes section.now section.now.fill) }
{
    match section.fill {
        Fill::Prog | Fill::Note => image.extend_from_slice(section.bytes.as_slice()),
        Fill::Zero => {
            let size = section.size;
            add_zeros(image, u64::from(size))
        }
    }
}

/// Adds a section at the next multiple of its alignment.
fn add_section(image: &mut Vec<u8>, section: &Section) -> Result<(), AllocError>
    ensures { OnOk result (image.new.items ≡ image.old.items ++ replicate (gap_of (length image.old.items) section.now.align) 0 ++ own_bytes section.now section.now.fill) }
{
    let align = section.align;
    let missing = gap(image.len() as u64, align);
    add_zeros(image, missing)?;
    add_own_bytes(image, section)
}

/// How many bytes the last page lacks. There is one page at least.
fn lacking(image: &[u8]) -> u64
    ensures pages { to_pages image.now ≡ image.now ++ replicate result 0 }
    ensures small { result < 2 ^ 33 }
{
    match image {
        [] => PAGE_SIZE,
        _ => gap(image.len() as u64, PAGE_SIZE as u16),
    }
}

/// Fills the last page up.
fn fill_page(image: &mut Vec<u8>) -> Result<(), AllocError>
    ensures { OnOk result (image.new.items ≡ to_pages image.old.items) }
{
    let missing = lacking(image);
    add_zeros(image, missing)
}

/// The sections of a class, each at the next multiple of its alignment, before the last page is full.
fn lay_out(alloc: Global, class: Class, sections: &[Section]) -> Result<Vec<u8>, AllocError>
    ensures { IfOk result (λ image. image.items ≡ laid_out [] (in_class class sections.now)) }
{
    let mut image = Vec::new(alloc);
    for section in sections {
        if class.has(section) {
            add_section(&mut image, section)?;
        }
    }
    Ok(image)
}

/// Whole pages with the sections of a class, at least one.
pub fn image(alloc: Global, class: Class, sections: &[Section]) -> Result<Vec<u8>, AllocError>
    ensures { IfOk result (λ image. image.items ≡ image_of (in_class class sections.now)) }
{
    let mut image = lay_out(alloc, class, sections)?;
    fill_page(&mut image)?;
    Ok(image)
}
