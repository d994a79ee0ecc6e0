//! The rules on the ELF header.

ghost use Rattle.std.specs.Prelude.{◌≡◌, ◌+◌, ◌*◌, ◌≤◌, ◌<◌, ◌^◌, length, IfOk, Ok};
ghost use Rattle.cell_object.specs.Bytes.{checked};
ghost use Rattle.cell_object.specs.Header.{file_header as header_of, section_place, header_rules, section_header, rule_2, rule_3, rule_5, rule_7};
ghost use Rattle.cell_object.specs.Sections.{section_names, section_bytes};
ghost use Rattle.cell_file.specs.Outcome.{Passes};

use crate::ReadFail;
use crate::file::{ends_within, file_header, refuse_where, section_header_at};
use crate::strings::Strings;
use cell_num::Shared;
use cell_object::elf::{EM_RISCV, ET_REL, EV_CURRENT, HEADER_LEN, IDENTIFICATION, SHT_STRTAB};
use cell_object::{FileHeader, SectionHeader};

/// The last number that a section may have.
const LAST_NUMBER: u16 = 65279;

/// A file whose ELF header keeps its rules.
#[derive(Clone, Copy)]
pub struct File<'a> {
    pub whole: &'a Shared,
    pub bytes: &'a [u8],
    pub header: FileHeader,
    /// The table of section names.
    pub names: Strings<'a>,
    ghost whole_is: { bytes.now ≡ whole.now },
    ghost short: { length bytes.now < 2 ^ 63 },
    ghost header_is: { header ≡ header_of bytes.now },
    ghost names_are: { names.table.now ≡ section_names bytes.now },
    ghost counted: { 1 ≤ header.e_shnum },
    ghost headers_inside: { header.e_shoff + 64 * header.e_shnum ≤ length bytes.now },
}

impl<'a> File<'a> {
    /// Tries the rules on the ELF header, in order.
    #[tactic(auto, using(crate::proofs::Passing::passing))]
    pub fn open(whole: &'a Shared) -> Result<File<'a>, ReadFail>
        ensures rules { Passes result (checked (header_rules whole.now)) }
        ensures same { IfOk result (λ file. file.bytes.now ≡ whole.now) }
    {
        let bytes = whole.as_slice();
        // rule 1
        if (bytes.len() as u64) < HEADER_LEN {
            return Err(ReadFail::BadObject {
                rule: 1,
                at: bytes.len() as u64,
            });
        }
        check_identification(bytes)?;
        let header = file_header(bytes);
        check_kind(&header)?;
        // rule 4
        refuse_where(header.e_flags != 0, 4, 48)?;
        check_counts(&header)?;
        // rule 6
        if !ends_within(
            header.e_shoff,
            HEADER_LEN * u64::from(header.e_shnum),
            bytes.len(),
        ) {
            return Err(ReadFail::BadObject { rule: 6, at: 40 });
        }
        let names = section_names(whole, &header)?;
        Ok(File {
            whole,
            bytes,
            header,
            names,
        })
    }

    /// Where the header of a section stands.
    pub fn place(&self, number: u16) -> u64
        requires { number < self.now.header.e_shnum }
        ensures place { result ≡ section_place self.now.bytes.now number }
        ensures inside { result + 64 ≤ length self.now.bytes.now }
        ensures low { result < 2 ^ 63 }
    {
        self.header.e_shoff + HEADER_LEN * u64::from(number)
    }

    /// The header of a section.
    pub fn section(&self, number: u16) -> SectionHeader
        requires { number < self.now.header.e_shnum }
        ensures { result ≡ section_header self.now.bytes.now number }
    {
        section_header_at(self.bytes, self.place(number) as usize)
    }

    /// The bytes of a section, of which none is copied.
    pub fn data(&self, header: &SectionHeader) -> Result<Shared, ReadFail>
        requires { header.now.sh_offset + header.now.sh_size ≤ length self.now.bytes.now }
        ensures memory { Passes result (Ok tt) }
        ensures bytes { IfOk result (λ bytes. bytes ≡ section_bytes self.now.bytes.now header.now) }
    {
        Ok(
            self.whole
                .part(header.sh_offset as usize, header.sh_size as usize)?,
        )
    }

    /// A section of the file as a string table.
    pub fn strings(&self, header: &SectionHeader) -> Strings<'a>
        requires { header.now.sh_offset + header.now.sh_size ≤ length self.now.bytes.now }
        ensures { result.table.now ≡ section_bytes self.now.bytes.now header.now }
    {
        Strings::of(
            self.whole,
            header.sh_offset as usize,
            header.sh_size as usize,
        )
    }
}

/// The bytes by which an ELF file of this kind is known: rule 2.
#[tactic(auto, using(crate::proofs::Rounds::rounds), unfolding(cell_object::specs::Header::rule_2_at))]
fn check_identification(bytes: &[u8]) -> Result<(), ReadFail>
    requires { 64 ≤ length bytes.now }
    ensures { Passes result (checked (rule_2 bytes.now)) }
{
    for i in 0..7 {
        refuse_where(bytes[i] != IDENTIFICATION[i], 2, i as u64)?;
    }
    Ok(())
}

/// A relocatable file for RISC-V: rule 3.
#[tactic(auto, using(crate::proofs::Passing::passing))]
fn check_kind(header: &FileHeader) -> Result<(), ReadFail>
    ensures { Passes result (checked (rule_3 header.now)) }
{
    refuse_where(header.e_type != ET_REL, 3, 16)?;
    refuse_where(header.e_machine != EM_RISCV, 3, 18)?;
    refuse_where(header.e_version != EV_CURRENT, 3, 20)
}

/// The counts and sizes of the tables: rule 5.
#[tactic(auto, using(crate::proofs::Passing::passing))]
fn check_counts(header: &FileHeader) -> Result<(), ReadFail>
    ensures { Passes result (checked (rule_5 header.now)) }
{
    refuse_where(header.e_phnum != 0, 5, 56)?;
    refuse_where(u64::from(header.e_shentsize) != HEADER_LEN, 5, 58)?;
    refuse_where(header.e_shnum == 0 || header.e_shnum > LAST_NUMBER, 5, 60)
}

/// The table of section names, which is there by rule 7.
fn section_names<'a>(whole: &'a Shared, header: &FileHeader) -> Result<Strings<'a>, ReadFail>
    requires is { header.now ≡ header_of whole.now }
    requires inside { header.now.e_shoff + 64 * header.now.e_shnum ≤ length whole.now }
    ensures rules { Passes result (checked (rule_7 whole.now header.now)) }
    ensures found { IfOk result (λ names. names.table.now ≡ section_names whole.now) }
    ensures counted { IfOk result (λ _. 1 ≤ header.now.e_shnum) }
{
    let bytes = whole.as_slice();
    let number = header.e_shstrndx;
    if number == 0 || number >= header.e_shnum {
        return Err(ReadFail::BadObject { rule: 7, at: 62 });
    }
    let names = section_header_at(
        bytes,
        (header.e_shoff + HEADER_LEN * u64::from(number)) as usize,
    );
    if names.sh_type != SHT_STRTAB || !ends_within(names.sh_offset, names.sh_size, bytes.len()) {
        return Err(ReadFail::BadObject { rule: 7, at: 62 });
    }
    Ok(Strings::of(whole, names.sh_offset as usize, names.sh_size as usize))
}
