//! What the object itself has in its fields.

ghost use Rattle.std.specs.Prelude.{◌≡◌, ◌≤◌, ◌<◌, ◌+◌, ◌*◌, ◌^◌, ℕ, length, slice_range, IfOk, IfErr, option_map};
ghost use Rattle.std.specs.Ordering.{nat_cmp};
ghost use Rattle.std.specs.BTreeMap.{get};
ghost use Rattle.cell_num.specs.Bits.{little};
ghost use Rattle.cell_object.specs.Parts.{section_of};
ghost use Rattle.cell_world.specs.Linked.Field.{own_number as own};
ghost use Rattle.cell_link.specs.Tables.{section_among, number_among};
ghost use Rattle.cell_link.specs.declared.fail.LinkFail.TheVariants.{OutOfMemory};

use crate::LinkFail;
use crate::maps::insert_first;
use cell_num::width;
use cell_object::{Entry, Object, Section};
use std::alloc::Global;
use std::collections::BTreeMap;

/// The sections of an object.
#[derive(Drop)]
pub struct Contents<'a> {
    object: &'a Object,
    sections: BTreeMap<u16, &'a Section>,
    ghost are: { (q : ℕ) → option_map (λ s. s.now) (get nat_cmp sections q) ≡ section_of object.now q },
}

/// The section of each number; where a number has two, the first counts.
fn sections_of<'a>(
    alloc: Global,
    sections: &'a [Section],
) -> Result<BTreeMap<u16, &'a Section>, LinkFail>
    ensures memory { IfErr result (λ e. e ≡ OutOfMemory) }
    ensures sections { IfOk result (λ map. (q : ℕ) → option_map (λ s. s.now) (get nat_cmp map q) ≡ section_among sections.now q) }
{
    let mut map = BTreeMap::new(alloc);
    for section in sections {
        insert_first(&mut map, section.number, section)?;
    }
    Ok(map)
}

impl<'a> Contents<'a> {
    pub fn of(alloc: Global, object: &'a Object) -> Result<Contents<'a>, LinkFail>
        ensures memory { IfErr result (λ e. e ≡ OutOfMemory) }
        ensures object { IfOk result (λ contents. contents.object.now ≡ object.now) }
    {
        let sections = sections_of(alloc, object.sections.as_slice())?;
        Ok(Contents { object, sections })
    }

    /// The number that the object has in the field that an entry is at.
    pub fn own_number(&self, entry: &Entry) -> u64
        ensures { result ≡ own self.now.object.now entry.now }
    {
        match self.sections.get(&entry.section) {
            Some(section) => number_in(section, entry),
            None => 0,
        }
    }
}

/// The number in the field of an entry of this section.
pub fn number_in(section: &Section, entry: &Entry) -> u64
    ensures { result ≡ number_among section.now entry.now }
{
    number_at(section.bytes.as_slice(), entry.offset, width(entry.kind))
}

/// The number of the bytes at an offset; bytes that aren't there count as none.
fn number_at(bytes: &[u8], offset: u32, width: u8) -> u64
    requires narrow { width ≤ 8 }
    ensures { result ≡ little (slice_range bytes.now offset (offset + width)) }
{
    let start = bytes.len().min(offset as usize);
    let end = bytes.len().min(offset as usize + usize::from(width));
    little_number(&bytes[start..end])
}

/// The number of these bytes, the lowest first.
fn little_number(bytes: &[u8]) -> u64
    requires narrow { length bytes.now ≤ 8 }
    ensures number { result ≡ little bytes.now }
    ensures small { result < 256 ^ length bytes.now }
{
    match bytes {
        [a, b, c, d, e, f, g, h] => u64::from_le_bytes([*a, *b, *c, *d, *e, *f, *g, *h]),
        [] => 0,
        [first, rest @ ..] => u64::from(*first) + 256 * little_number(rest),
    }
}
