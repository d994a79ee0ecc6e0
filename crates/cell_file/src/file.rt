//! Numbers, headers and names at places of a file.

ghost use Rattle.std.specs.Prelude.{◌≡◌, ◌+◌, ◌≤◌, length, nat_le};
ghost use Rattle.cell_object.specs.Bytes.{number_at, broken_where, checked};
ghost use Rattle.cell_object.specs.Header.{file_header, section_header_at};
ghost use Rattle.cell_object.specs.Sections.{has_flag as flag_of, is_alloc as alloc_of};
ghost use Rattle.std.specs.Int.{w64, cast_signed};
ghost use Rattle.cell_object.specs.Symbols.{symbol_row_at};
ghost use Rattle.cell_object.specs.Relocations.{rela_row_at};
ghost use Rattle.cell_file.specs.Outcome.{Passes};

use crate::ReadFail;
use byteorder::{ByteOrder, LittleEndian};
use cell_object::elf::SHF_ALLOC;
use cell_object::{FileHeader, RelaRow, SectionHeader, SymbolRow};

#[tactic(auto, unfolding(cell_object::specs::Bytes::number_at))]
fn u8_at(bytes: &[u8], at: usize) -> u8
    requires { at + 1 ≤ length bytes.now }
    ensures { result ≡ number_at 1 at bytes.now }
{
    bytes[at]
}

#[tactic(auto, unfolding(cell_object::specs::Bytes::number_at))]
fn u16_at(bytes: &[u8], at: usize) -> u16
    requires { at + 2 ≤ length bytes.now }
    ensures { result ≡ number_at 2 at bytes.now }
{
    LittleEndian::read_u16(&bytes[at..])
}

#[tactic(auto, unfolding(cell_object::specs::Bytes::number_at))]
fn u32_at(bytes: &[u8], at: usize) -> u32
    requires { at + 4 ≤ length bytes.now }
    ensures { result ≡ number_at 4 at bytes.now }
{
    LittleEndian::read_u32(&bytes[at..])
}

#[tactic(auto, unfolding(cell_object::specs::Bytes::number_at))]
fn u64_at(bytes: &[u8], at: usize) -> u64
    requires { at + 8 ≤ length bytes.now }
    ensures { result ≡ number_at 8 at bytes.now }
{
    LittleEndian::read_u64(&bytes[at..])
}

#[tactic(auto, unfolding(cell_object::specs::Header::file_header))]
pub fn file_header(bytes: &[u8]) -> FileHeader
    requires { 64 ≤ length bytes.now }
    ensures { result ≡ file_header bytes.now }
{
    FileHeader {
        e_type: u16_at(bytes, 16),
        e_machine: u16_at(bytes, 18),
        e_version: u32_at(bytes, 20),
        e_shoff: u64_at(bytes, 40),
        e_flags: u32_at(bytes, 48),
        e_phnum: u16_at(bytes, 56),
        e_shentsize: u16_at(bytes, 58),
        e_shnum: u16_at(bytes, 60),
        e_shstrndx: u16_at(bytes, 62),
    }
}

#[tactic(auto, unfolding(cell_object::specs::Header::section_header_at))]
pub fn section_header_at(bytes: &[u8], at: usize) -> SectionHeader
    requires { at + 64 ≤ length bytes.now }
    ensures { result ≡ section_header_at at bytes.now }
{
    SectionHeader {
        sh_name: u32_at(bytes, at),
        sh_type: u32_at(bytes, at + 4),
        sh_flags: u64_at(bytes, at + 8),
        sh_offset: u64_at(bytes, at + 24),
        sh_size: u64_at(bytes, at + 32),
        sh_link: u32_at(bytes, at + 40),
        sh_info: u32_at(bytes, at + 44),
        sh_addralign: u64_at(bytes, at + 48),
        sh_entsize: u64_at(bytes, at + 56),
    }
}

#[tactic(auto, unfolding(cell_object::specs::Symbols::symbol_row_at))]
pub fn symbol_row_at(bytes: &[u8], at: usize) -> SymbolRow
    requires { at + 24 ≤ length bytes.now }
    ensures { result ≡ symbol_row_at at bytes.now }
{
    SymbolRow {
        st_name: u32_at(bytes, at),
        st_info: u8_at(bytes, at + 4),
        st_shndx: u16_at(bytes, at + 6),
        st_value: u64_at(bytes, at + 8),
        st_size: u64_at(bytes, at + 16),
    }
}

fn i64_at(bytes: &[u8], at: usize) -> i64
    requires { at + 8 ≤ length bytes.now }
    ensures { result ≡ cast_signed w64 (number_at 8 at bytes.now) }
{
    u64_at(bytes, at).cast_signed()
}

#[tactic(auto, unfolding(cell_object::specs::Relocations::rela_row_at))]
pub fn rela_row_at(bytes: &[u8], at: usize) -> RelaRow
    requires { at + 24 ≤ length bytes.now }
    ensures { result ≡ rela_row_at at bytes.now }
{
    RelaRow {
        r_offset: u64_at(bytes, at),
        r_type: u32_at(bytes, at + 8),
        r_sym: u32_at(bytes, at + 12),
        r_addend: i64_at(bytes, at + 16),
    }
}

pub fn has_flag(header: &SectionHeader, flag: u64) -> bool
    ensures { result ≡ flag_of flag header.now }
{
    header.sh_flags & flag != 0
}

pub fn is_alloc(header: &SectionHeader) -> bool
    ensures { result ≡ alloc_of header.now }
{
    has_flag(header, SHF_ALLOC)
}

/// Refuses the file by a rule, where the test says that the rule is broken.
pub fn refuse_where(broken: bool, rule: u8, at: u64) -> Result<(), ReadFail>
    ensures { Passes result (checked (broken_where broken rule at)) }
{
    if broken {
        return Err(ReadFail::BadObject { rule, at });
    }
    Ok(())
}

/// Whether bytes that begin at an offset end within a length.
pub fn ends_within(offset: u64, size: u64, len: usize) -> bool
    ensures { result ≡ nat_le (offset + size) len }
{
    match offset.checked_add(size) {
        Some(end) => end <= len as u64,
        None => false,
    }
}
