//! The lines of what sections hold.

ghost use Rattle.std.specs.Prelude.{◌≡◌, ◌+◌, ◌≤◌, ◌<◌, ◌^◌, ◌∷◌, [], List, ℕ, All, IsTrue, None, drop, flat_map, length, map, nat_lt, take};
ghost use Rattle.cell_num.specs.Lists.{In, each_pair};
ghost use Rattle.cell_object.specs.declared.object.Section.{Section as SomeSection};
ghost use Rattle.cell_audit.specs.Linking.{unlinked_in};
ghost use Rattle.cell_described.specs.declared.cell.DescribedCell.{DescribedCell as SomeCell};
ghost use Rattle.cell_world.specs.DumpLines.{content_lines};
ghost use Rattle.cell_world.specs.declared.line.DumpLine.TheVariants.{Content};
ghost use Rattle.cell_relinked.specs.Fit.{IsFit, start_among};
ghost use Rattle.cell_relinked.specs.Indexed.{IsIndexed};
ghost use Rattle.cell_relinked.specs.Linking.{seen_by, world_in};
ghost use Rattle.cell_compared.specs.Left.{left};
ghost use Rattle.cell_compared.specs.Shown.{contents_shown, lines_at, relinked_in};
ghost use Rattle.cell_compared.specs.Walk.{Walks};

use crate::cursor::Cursor;
use crate::link_lines::part_of;
use cell_audit::AuditFail;
use cell_described::DescribedCell;
use cell_num::{Bytes, Listed, SecKey};
use cell_object::{Object, Section};
use cell_relinked::{Ground, relinked_contents, start_in};
use cell_world::{DumpLine, Part};
use std::alloc::Global;

/// The bytes of one line, those from that place on.
fn bytes_from(bytes: &[u8], from: usize) -> &[u8]
    requires { from ≤ length bytes.now }
    ensures { result.now ≡ take 64 (drop from bytes.now) }
{
    let left = bytes.len() - from;
    if left < 64 {
        return &bytes[from..];
    }
    &bytes[from..from + 64]
}

fn expect_bytes(
    alloc: Global,
    cursor: &mut Cursor,
    at: Part,
    addr: u64,
    bytes: &[u8],
) -> Result<(), AuditFail>
    ensures { Walks (left cursor.old) (Content at addr bytes.now ∷ []) (left cursor.new) result }
{
    let bytes = Bytes::from_vec(bytes.to_vec(alloc)?);
    cursor.expect(alloc, &DumpLine::Content { at, addr, bytes })
}

/// Compares the lines of bytes that stand from an address on.
fn compare_bytes(
    alloc: Global,
    cursor: &mut Cursor,
    at: Part,
    start: u64,
    bytes: &[u8],
) -> Result<(), AuditFail>
    requires { start + length bytes.now < 2 ^ 64 }
    ensures { Walks (left cursor.old) (content_lines at start bytes.now) (left cursor.new) result }
{
    for k in 0..(bytes.len() + 63) / 64 {
        let from = 64 * k;
        expect_bytes(
            alloc,
            cursor,
            at,
            start + from as u64,
            bytes_from(bytes, from),
        )?;
    }
    Ok(())
}

fn compare_section(
    alloc: Global,
    cursor: &mut Cursor,
    cell: &DescribedCell,
    section: &Section,
    bytes: &[u8],
) -> Result<(), AuditFail>
    requires ordered { IsTrue (each_pair (λ a b. nat_lt a.section b.section) cell.now.places) }
    requires low { start_among cell.now.places section.now.number + length bytes.now < 2 ^ 64 }
    ensures { Walks (left cursor.old) (lines_at cell.now section.now bytes.now) (left cursor.new) result }
{
    let at = part_of(SecKey {
        cell: cell.id,
        section: section.number,
    });
    let start = start_in(cell.places.as_slice(), section.number);
    compare_bytes(alloc, cursor, at, start, bytes)
}

/// Compares the lines of a cell's sections, by what each holds.
fn compare_sections(
    alloc: Global,
    cursor: &mut Cursor,
    cell: &DescribedCell,
    sections: &[Section],
    contents: &[Listed<u8>],
) -> Result<(), AuditFail>
    requires ordered { IsTrue (each_pair (λ a b. nat_lt a.section b.section) cell.now.places) }
    requires sizes { map (λ bytes. length bytes) contents.now ≡ map (λ s. s.size) sections.now }
    requires low { (s : SomeSection) → In s sections.now → start_among cell.now.places s.number + s.size < 2 ^ 64 }
    ensures { (content : SomeSection → List ℕ) → contents.now ≡ map content sections.now → Walks (left cursor.old) (flat_map (λ s. lines_at cell.now s (content s)) sections.now) (left cursor.new) result }
{
    for index in 0..sections.len() {
        compare_section(
            alloc,
            cursor,
            cell,
            &sections[index],
            contents[index].as_slice(),
        )?;
    }
    Ok(())
}

fn compare_contents_of(
    alloc: Global,
    cursor: &mut Cursor,
    ground: &Ground,
    objects: &mut Vec<Object>,
    cell: &DescribedCell,
) -> Result<(), AuditFail>
    requires whole { All (IsFit objects.old.items) ground.now.cells.now }
    requires indexed { IsIndexed ground.now objects.old.items }
    requires fit { IsFit objects.old.items cell.now }
    requires linked { unlinked_in (world_in ground.now objects.old.items) (seen_by ground.now objects.old.items cell.now) ≡ None }
    ensures same { objects.new.items ≡ objects.old.items }
    ensures walks { Walks (left cursor.old) (contents_shown (relinked_in ground.now objects.old.items) (seen_by ground.now objects.old.items cell.now)) (left cursor.new) result }
{
    let contents = relinked_contents(alloc, ground, objects, cell)?;
    let sections = objects[cell.object].sections.as_slice();
    compare_sections(alloc, cursor, cell, sections, &contents)
}

/// Compares the lines of what the sections of all cells hold.
pub fn compare_contents(
    alloc: Global,
    cursor: &mut Cursor,
    ground: &Ground,
    objects: &mut Vec<Object>,
) -> Result<(), AuditFail>
    requires whole { All (IsFit objects.old.items) ground.now.cells.now }
    requires indexed { IsIndexed ground.now objects.old.items }
    requires linked { (c : SomeCell) → In c ground.now.cells.now → unlinked_in (world_in ground.now objects.old.items) (seen_by ground.now objects.old.items c) ≡ None }
    ensures same { objects.new.items ≡ objects.old.items }
    ensures walks { Walks (left cursor.old) (flat_map (contents_shown (relinked_in ground.now objects.old.items)) (world_in ground.now objects.old.items).cells) (left cursor.new) result }
{
    let cells = ground.cells;
    for index in 0..cells.len() {
        compare_contents_of(alloc, cursor, ground, objects, &cells[index])?;
    }
    Ok(())
}
