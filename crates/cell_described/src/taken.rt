//! Which bytes of the space are taken.

ghost use Rattle.std.specs.Prelude.{◌≡◌, ◌≤◌, ◌<◌, ◌+◌, ◌*◌, ◌^◌, ◌%◌, ◌==◌, nat_le, ◌&&◌, true, length, max, IfOk};
ghost use Rattle.cell_num.specs.Limits.{page_size};
ghost use Rattle.std.specs.List.{list_any};
ghost use Rattle.cell_world.specs.Placed.Pages.{filled};

use crate::cell::Bounds;
use cell_num::PAGE_SIZE;
use cell_object::Section;
use std::alloc::{AllocError, Global};
use std::marker::Model;

/// The bytes of the space, each taken or free. Contracts see a record of base and bytes.
#[derive(Drop)]
pub struct Taken {
    base: u64,
    bytes: Vec<bool>,
}

impl Model for Taken {
    ghost use Rattle.cell_described.specs.Taken.{TakenState};

    ghost Value = { TakenState };

    ghost view = { λ t. record { base = t.base; bytes = t.bytes.items } };
}

fn is_aligned(start: u64, align: u16) -> bool
    ensures { result ≡ (start % max 1 align == 0) }
{
    start % u64::from(align.max(1)) == 0
}

fn has_taken(bytes: &[bool]) -> bool
    ensures { result ≡ list_any (λ b. b) bytes.now }
{
    bytes.iter().any(|taken| *taken)
}

fn mark(bytes: &mut [bool], first: usize, count: usize)
    requires { first + count ≤ length bytes.old }
    ensures { bytes.new ≡ filled bytes.old first count true }
{
    for i in 0..count {
        bytes[first + i] = true;
    }
}

impl Taken {
    ghost use Rattle.cell_described.specs.Taken.{all_free, fits, is_free, with_section};

    /// A space of which no byte is taken.
    pub fn new(alloc: Global, bounds: Bounds) -> Result<Taken, AllocError>
        requires { page_size * bounds.pages < 2 ^ 64 }
        ensures { IfOk result (λ taken. taken ≡ all_free bounds.base bounds.pages) }
    {
        let len = PAGE_SIZE * bounds.pages;
        let mut bytes = Vec::with_capacity(alloc, len as usize)?;
        for _ in 0..len {
            bytes.push(false)?;
        }
        Ok(Taken {
            base: bounds.base,
            bytes,
        })
    }

    /// Whether so many bytes from there on are in the space.
    fn is_inside(&self, start: u64, size: u32) -> bool
        ensures { result ≡ (nat_le self.now.base start && nat_le (start + size) (self.now.base + length self.now.bytes)) }
    {
        if start < self.base {
            return false;
        }
        let offset = start - self.base;
        let len = self.bytes.len() as u64;
        offset <= len && u64::from(size) <= len - offset
    }

    /// Whether so many bytes from that place on are free.
    fn is_free(&self, offset: usize, size: usize) -> bool
        requires { offset + size ≤ length self.now.bytes }
        ensures { result ≡ is_free self.now offset size }
    {
        !has_taken(&self.bytes[offset..offset + size])
    }

    /// Whether the section may stand there.
    pub fn fits(&self, section: &Section, start: u64) -> bool
        ensures { result ≡ fits self.now section.now start }
    {
        let (align, size) = (section.align, section.size);
        is_aligned(start, align)
            && self.is_inside(start, size)
            && self.is_free((start - self.base) as usize, size as usize)
    }

    /// Takes the bytes of a section that may stand there.
    pub fn take(&mut self, section: &Section, start: u64)
        requires { fits self.old section.now start ≡ true }
        ensures { self.new ≡ with_section self.old section.now start }
    {
        let first = (start - self.base) as usize;
        mark(&mut self.bytes, first, section.size as usize);
    }
}
