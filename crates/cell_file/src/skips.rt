//! Entries that are passed over.

ghost use Rattle.std.specs.Prelude.{◌≡◌, ℕ, ◌+◌, ◌<◌, ◌≤◌, cond, length, get_or, nat_lt, IfOk, Ok};
ghost use Rattle.cell_num.specs.Kinds.{is_passed_over as passed_over};
ghost use Rattle.cell_file.specs.Cover.{IsSkip, reach as reach_of};
ghost use Rattle.cell_file.specs.Outcome.{Passes};

use crate::ReadFail;
use crate::file::rela_row_at;
use cell_object::elf::ROW_LEN;
use std::alloc::Global;
use std::ops::Range;

const NONE: u32 = 0;

const RELAX: u32 = 51;

/// The most entries that a count has one by one.
const FEW: u8 = 127;

/// So many entries at a time are counted above.
const STRIDE: u8 = FEW + 1;

/// The bytes of so many entries.
const STRIDE_LEN: usize = ROW_LEN as usize * STRIDE as usize;

pub fn is_passed_over(kind: u32) -> bool
    ensures { result ≡ passed_over kind }
{
    kind == NONE || kind == RELAX
}

/// How many entries are passed over from each place of a part of a file on, one behind the other. A byte
/// counts them one by one up to a stride, and then in strides, so a long row takes few steps.
#[derive(Drop)]
pub struct Skips<'a> {
    pub bytes: &'a [u8],
    /// Where the part begins.
    from: usize,
    counts: Vec<u8>,
    ghost are: { (q : ℕ) → IsSkip bytes.now (from + q) (reach_of (get_or counts.items q 0)) },
}

/// What is counted from a place on, or 0 past the end.
fn count_of(counts: &[u8], place: usize) -> u8
    ensures { result ≡ get_or counts.now place 0 }
{
    match counts.get(place) {
        Some(count) => *count,
        None => 0,
    }
}

/// How many entries a count stands for.
fn reach(count: u8) -> u32
    ensures { result ≡ reach_of count }
{
    if count <= STRIDE {
        return u32::from(count);
    }
    u32::from(STRIDE) * u32::from(count - FEW)
}

/// The count from an entry on that is passed over, by the counts from the next one and from one a
/// stride behind it.
fn count_before(next: u8, behind: u8) -> u8
    ensures { reach_of result ≤ cond (nat_lt next 128) (next + 1) (128 + reach_of behind) }
{
    if next < STRIDE {
        return next + 1;
    }
    behind.max(FEW).saturating_add(1)
}

/// Counts from a place of the part on, after the places behind it.
fn count_at(bytes: &[u8], from: usize, counts: &mut [u8], at: usize)
    requires there { at < length counts.old }
    requires row { from + at + 24 ≤ length bytes.now }
    requires behind { (q : ℕ) → IsSkip bytes.now (from + q) (reach_of (get_or counts.old q 0)) }
    ensures { (q : ℕ) → IsSkip bytes.now (from + q) (reach_of (get_or counts.new q 0)) }
{
    if is_passed_over(rela_row_at(bytes, from + at).r_type) {
        let next = count_of(counts, at + ROW_LEN as usize);
        let behind = count_of(counts, at + STRIDE_LEN);
        counts[at] = count_before(next, behind);
    }
}

/// Counts from each place of the part on, from the last one back.
fn count(bytes: &[u8], from: usize, counts: &mut [u8])
    requires inside { from + length counts.old ≤ length bytes.now }
    requires none { (q : ℕ) → IsSkip bytes.now (from + q) (reach_of (get_or counts.old q 0)) }
    ensures { (q : ℕ) → IsSkip bytes.now (from + q) (reach_of (get_or counts.new q 0)) }
{
    for at in (0..counts.len()).rev() {
        if bytes.len() - (from + at) >= ROW_LEN as usize {
            count_at(bytes, from, counts, at);
        }
    }
}

impl<'a> Skips<'a> {
    /// Counts in a part of the file, in which all its tables of relocations are to stand.
    pub fn of(alloc: Global, bytes: &'a [u8], part: Range<usize>) -> Result<Skips<'a>, ReadFail>
        requires order { part.start ≤ part.end }
        requires inside { part.end ≤ length bytes.now }
        ensures memory { Passes result (Ok tt) }
        ensures bytes { IfOk result (λ skips. skips.bytes.now ≡ bytes.now) }
    {
        let from = part.start;
        let mut counts = vec![in alloc; 0; part.end - from]?;
        count(bytes, from, &mut counts);
        Ok(Skips {
            bytes,
            from,
            counts,
        })
    }

    /// So many entries from a place on are passed over, one behind the other, or more; none is told
    /// outside the part.
    pub fn at(&self, place: u64) -> u32
        ensures { IsSkip self.now.bytes.now place result }
    {
        match place.checked_sub(self.from as u64) {
            Some(at) => reach(count_of(&self.counts, at as usize)),
            None => 0,
        }
    }
}
