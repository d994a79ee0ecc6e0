//! The sections of an object, as they grow line by line.

ghost use Rattle.std.specs.Prelude.{◌≡◌, ◌≤◌, ◌++◌, ◌+◌, List, [], map, min, replicate, length, flat_map, position, ◌<◌, false, if◌then◌else◌, IfSome, IfOk, OnOk};
ghost use Rattle.std.specs.List.{list_any};
ghost use Rattle.cell_num.specs.Bits.{bytes_of};
ghost use Rattle.cell_asm.specs.Places.{is_same_part as same, is_at as stands_at, is_in, is_long, gap as gap_of, taken as taken_of};
ghost use Rattle.cell_asm.specs.Progress.{body_of, grown, grown_in, grown_with, bytes_laid};
ghost use Rattle.cell_asm.specs.Numberings.{section_kept};
ghost use Rattle.cell_asm.specs.Objects.{adds_choice, number_in, part_name as name_of, fill_of as fill_with, may_write as writes, alignment_asked as alignment_wanted, padding};
ghost use Rattle.cell_asm.specs.declared.statement.Part.{Part as PartValue};

use crate::statement::{Laid, Part, Statement};
use cell_image::put_number;
use cell_num::{Bytes, Listed};
use cell_object::{Fill, Section};
use std::alloc::{AllocError, Global};

/// addi zero,zero,0
const NOP: u64 = 0x13;

/// A section so far.
#[derive(Drop)]
pub struct Body {
    pub align: u16,
    pub size: u32,
    pub bytes: Vec<u8>,
}

impl Body {
    fn new(alloc: Global, align: u16) -> Body
        ensures { grown result ≡ (align, 0, []) }
    {
        Body {
            align,
            size: 0,
            bytes: Vec::new(alloc),
        }
    }

    /// Goes on behind a line that stands in the section.
    fn add(&mut self, part: Part, laid: &Laid<'_>) -> Result<(), AllocError>
        requires { is_long (Some part) (laid.now.offset + taken_of laid.now.line.statement laid.now.offset) ≡ false }
        ensures { OnOk result (grown self.new ≡ grown_with part laid.now (grown self.old)) }
    {
        let statement = &laid.line.statement;
        self.align = self.align.max(alignment_asked(statement));
        self.size = end(statement, laid.offset) as u32;
        put_bytes(&mut self.bytes, part, laid.offset, statement)
    }
}

/// The sections so far, those that aren't chosen too.
#[derive(Drop)]
pub struct Bodies {
    pub text: Body,
    pub rodata: Body,
    pub data: Body,
    pub bss: Body,
}

impl Bodies {
    pub fn new(alloc: Global) -> Bodies
        ensures { (part : PartValue) → grown (body_of result part) ≡ grown_in part [] }
    {
        Bodies {
            text: Body::new(alloc, 4),
            rodata: Body::new(alloc, 8),
            data: Body::new(alloc, 8),
            bss: Body::new(alloc, 8),
        }
    }

    pub fn of(&self, part: Part) -> &Body
        ensures { result.now ≡ body_of self.now part }
    {
        match part {
            Part::Text => &self.text,
            Part::Rodata => &self.rodata,
            Part::Data => &self.data,
            Part::Bss => &self.bss,
        }
    }

    /// Goes on behind a line.
    pub fn add(&mut self, laid: &Laid<'_>) -> Result<(), AllocError>
        requires { is_long laid.now.part (laid.now.offset + taken_of laid.now.line.statement laid.now.offset) ≡ false }
        ensures { OnOk result ((part : PartValue) → grown (body_of self.new part) ≡ (if is_in part laid.now then grown_with part laid.now (grown (body_of self.old part)) else grown (body_of self.old part))) }
    {
        match laid.part {
            Some(Part::Text) => self.text.add(Part::Text, laid),
            Some(Part::Rodata) => self.rodata.add(Part::Rodata, laid),
            Some(Part::Data) => self.data.add(Part::Data, laid),
            Some(Part::Bss) => self.bss.add(Part::Bss, laid),
            None => Ok(()),
        }
    }
}

/// Adds the section that the statement chooses.
pub fn add_choice(parts: &mut Vec<Part>, statement: &Statement<'_>) -> Result<(), AllocError>
    ensures { OnOk result (parts.new.items ≡ adds_choice parts.old.items statement.now) }
{
    if let Statement::Choose(part) = statement {
        if !holds(parts.as_slice(), *part) {
            parts.push(*part)?;
        }
    }
    Ok(())
}

fn is_same_part(a: Part, b: Part) -> bool
    ensures { result ≡ same a b }
{
    a == b
}

fn holds(parts: &[Part], part: Part) -> bool
    ensures { result ≡ list_any (same part) parts.now }
{
    parts.iter().any(|other| is_same_part(part, *other))
}

/// Whether it is that section.
pub fn is_at(part: Part, other: Option<Part>) -> bool
    ensures { result ≡ stands_at part other }
{
    match other {
        Some(other) => is_same_part(part, other),
        None => false,
    }
}

/// The number of a section, from 1.
pub fn part_number(parts: &[Part], part: Part) -> u16
    requires { length parts.now ≤ 4 }
    ensures { result ≡ number_in parts.now part }
{
    match place_in(parts, part) {
        Some(place) => place as u16 + 1,
        None => 0,
    }
}

#[tactic(auto, using(crate::proofs::ListLemmas::positions))]
fn place_in(parts: &[Part], part: Part) -> Option<usize>
    ensures place { result ≡ position (same part) parts.now }
    ensures inside { IfSome result (λ i. i < length parts.now) }
{
    parts.iter().position(|other| is_same_part(part, *other))
}

/// The sections of the object, in the order of their numbers.
pub fn sections(
    alloc: Global,
    parts: &[Part],
    bodies: &Bodies,
) -> Result<Listed<Section>, AllocError>
    requires { length parts.now ≤ 4 }
    ensures { IfOk result (λ sections. sections ≡ map (section_kept parts.now bodies.now) parts.now) }
{
    let mut sections = Vec::new(alloc);
    for part in parts {
        let section = section(alloc, parts, bodies, *part)?;
        sections.push(section)?;
    }
    Ok(Listed::from_vec(sections))
}

fn section(
    alloc: Global,
    parts: &[Part],
    bodies: &Bodies,
    part: Part,
) -> Result<Section, AllocError>
    requires { length parts.now ≤ 4 }
    ensures { IfOk result (λ s. s ≡ section_kept parts.now bodies.now part) }
{
    let body = bodies.of(part);
    let name = Vec::from_slice(alloc, part_name(part))?;
    let bytes = Vec::from_slice(alloc, body.bytes.as_slice())?;
    Ok(Section {
        number: part_number(parts, part),
        name: Bytes::from_vec(name),
        write: may_write(part),
        exec: is_same_part(Part::Text, part),
        fill: fill_of(part),
        align: body.align,
        size: body.size,
        bytes: Bytes::from_vec(bytes),
    })
}

fn part_name(part: Part) -> &'static [u8]
    ensures { result.now ≡ name_of part }
{
    match part {
        Part::Text => b".text",
        Part::Rodata => b".rodata",
        Part::Data => b".data",
        Part::Bss => b".bss",
    }
}

fn may_write(part: Part) -> bool
    ensures { result ≡ writes part }
{
    match part {
        Part::Text | Part::Rodata => false,
        Part::Data | Part::Bss => true,
    }
}

fn fill_of(part: Part) -> Fill
    ensures { result ≡ fill_with part }
{
    match part {
        Part::Bss => Fill::Zero,
        _ => Fill::Prog,
    }
}

fn alignment_asked(statement: &Statement<'_>) -> u16
    ensures { result ≡ alignment_wanted statement.now }
{
    match statement {
        Statement::Align(unit) => *unit,
        _ => 1,
    }
}

/// Where the bytes of the statement end, from that offset on; or as far as numbers go.
pub fn end(statement: &Statement<'_>, offset: u32) -> u128
    ensures { result ≡ min (offset + taken_of statement.now offset) u128.MAX }
{
    u128::from(offset).saturating_add(taken(statement, offset))
}

/// How many bytes the statement takes at that offset.
fn taken(statement: &Statement<'_>, offset: u32) -> u128
    ensures { result ≡ taken_of statement.now offset }
{
    match statement {
        Statement::Zeros(count) => *count,
        Statement::Align(unit) => u128::from(gap(*unit, offset)),
        Statement::Bytes(_, block) => block.bytes.as_slice().len() as u128,
        _ => 0,
    }
}

/// How many bytes lack to a multiple of that many.
fn gap(unit: u16, offset: u32) -> u32
    ensures value { result ≡ gap_of unit offset }
{
    let unit = u32::from(unit);
    if unit == 0 || offset % unit == 0 {
        0
    } else {
        unit - offset % unit
    }
}

/// Appends the bytes of a statement at that offset. `.bss` has a size and no bytes.
fn put_bytes(
    bytes: &mut Vec<u8>,
    part: Part,
    offset: u32,
    statement: &Statement<'_>,
) -> Result<(), AllocError>
    ensures { OnOk result (bytes.new.items ≡ bytes.old.items ++ bytes_laid part offset statement.now) }
{
    match (part, statement) {
        (Part::Bss, _) => Ok(()),
        (_, Statement::Zeros(count)) => put_zeros(bytes, *count),
        (_, Statement::Align(unit)) => put_padding(bytes, part, gap(*unit, offset)),
        (_, Statement::Bytes(_, block)) => bytes.extend_from_slice(block.bytes.as_slice()),
        _ => Ok(()),
    }
}

#[tactic(auto, using(crate::proofs::ObjectLemmas::zeros_more))]
fn put_zeros(bytes: &mut Vec<u8>, count: u128) -> Result<(), AllocError>
    ensures { OnOk result (bytes.new.items ≡ bytes.old.items ++ replicate count 0) }
{
    for _ in 0..count {
        bytes.push(0)?;
    }
    Ok(())
}

/// Appends so many bytes between two statements.
fn put_padding(bytes: &mut Vec<u8>, part: Part, count: u32) -> Result<(), AllocError>
    ensures { OnOk result (bytes.new.items ≡ bytes.old.items ++ padding part count) }
{
    match part {
        Part::Text => put_nops(bytes, count / 4),
        _ => put_zeros(bytes, u128::from(count)),
    }
}

#[tactic(auto, using(crate::proofs::ObjectLemmas::nops_more))]
fn put_nops(bytes: &mut Vec<u8>, count: u32) -> Result<(), AllocError>
    ensures { OnOk result (bytes.new.items ≡ bytes.old.items ++ flat_map (λ word. bytes_of 4 word) (replicate count 0x13)) }
{
    for _ in 0..count {
        put_number(NOP, 4, bytes)?;
    }
    Ok(())
}
