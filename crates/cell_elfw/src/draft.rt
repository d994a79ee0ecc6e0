//! The file as far as it is written.

ghost use Rattle.std.specs.Prelude.{◌≡◌, ◌+◌, ◌++◌, [], ◌∷◌, length, map, replicate, codes, IfOk, OnOk};
ghost use Rattle.cell_object.specs.Strings.{string, string_table, place_in};
ghost use Rattle.cell_object.specs.ImageParts.{padded, content as content_of, own_names, names_before_tables, parts_before_tables, table_name, relocated, entries_for};
ghost use Rattle.cell_object.specs.Rows.{section_row_bytes, entry_bytes};
ghost use Rattle.cell_object.specs.Image.{section_row as section_row_of, rela_row as rela_row_of};
ghost use Rattle.cell_elfw.specs.Drafts.{AreTables, HoldsSections, HoldsTables};
ghost use Rattle.std.specs.List.{flat_map};

use crate::headers::{Place, content, put_rela_row, put_section_row};
use crate::parts::put_part;
use crate::strings::put_string;
use crate::tables::put_table;
use cell_object::{Entry, Object, Section};
use std::alloc::{AllocError, Global};

/// Room for the ELF header.
const HEADER: [u8; 64] = [0; 64];

/// The room for the ELF header and the parts that are written, the names of their sections, and the
/// headers of the object's sections and of their relocations.
#[derive(Drop)]
pub struct Draft {
    pub file: Vec<u8>,
    pub names: Vec<u8>,
    pub own_rows: Vec<u8>,
    pub table_rows: Vec<u8>,
}

/// Where the names of the three tables stand.
#[derive(Clone, Copy)]
pub struct TableNames {
    pub symtab: u64,
    pub strtab: u64,
    pub shstrtab: u64,
}

/// The room for the ELF header, in a file with room for so many bytes.
fn empty_file(alloc: Global, room: usize) -> Result<Vec<u8>, AllocError>
    ensures { IfOk result (λ file. file.items ≡ replicate 64 0) }
{
    let mut file = Vec::with_capacity(alloc, room)?;
    file.extend_from_slice(&HEADER)?;
    Ok(file)
}

impl Draft {
    fn add_section(&mut self, section: &Section) -> Result<(), AllocError>
        ensures file { OnOk result (self.new.file.items ≡ self.old.file.items ++ padded (content_of section.now)) }
        ensures names { OnOk result (self.new.names.items ≡ self.old.names.items ++ string section.now.name) }
        ensures rows { OnOk result (self.new.own_rows.items ≡ self.old.own_rows.items ++ section_row_bytes (section_row_of (place_in (length self.old.names.items) section.now.name) (length self.old.file.items) section.now)) }
        ensures tables { OnOk result (self.new.table_rows.items ≡ self.old.table_rows.items) }
    {
        let name = put_string(section.name.as_slice(), &mut self.names)?;
        let offset = put_part(content(section), &mut self.file)?;
        put_section_row(name, offset, section, &mut self.own_rows)
    }

    /// The object's sections, their names and their headers, in a file with room for so many bytes.
    #[tactic(auto, using(crate::proofs::Stages::sections_none))]
    pub fn of_sections(
        alloc: Global,
        room: usize,
        sections: &[Section],
    ) -> Result<Draft, AllocError>
        ensures sections { IfOk result (λ draft. HoldsSections draft.file.items draft.names.items draft.own_rows.items sections.now) }
        ensures tables { IfOk result (λ draft. draft.table_rows.items ≡ []) }
    {
        let mut draft = Draft {
            file: empty_file(alloc, room)?,
            names: Vec::from_slice(alloc, b"\0")?,
            own_rows: Vec::new(alloc),
            table_rows: Vec::new(alloc),
        };
        for section in sections {
            draft.add_section(section)?;
        }
        Ok(draft)
    }

    /// Appends the name of the relocations of a section.
    fn put_table_name(&mut self, section: &[u8]) -> Result<u64, AllocError>
        ensures place { IfOk result (λ place. place ≡ place_in (length self.old.names.items) (codes ".rela" ++ section.now)) }
        ensures names { OnOk result (self.new.names.items ≡ self.old.names.items ++ string (codes ".rela" ++ section.now)) }
        ensures file { OnOk result (self.new.file.items ≡ self.old.file.items) }
        ensures own { OnOk result (self.new.own_rows.items ≡ self.old.own_rows.items) }
        ensures tables { OnOk result (self.new.table_rows.items ≡ self.old.table_rows.items) }
    {
        let mut name = Vec::from_slice(*self.names.allocator(), b".rela")?;
        name.extend_from_slice(section)?;
        put_string(&name, &mut self.names)
    }

    fn add_table(
        &mut self,
        symtab: u64,
        number: u64,
        section: &Section,
        entries: &[Entry],
    ) -> Result<(), AllocError>
        ensures file { OnOk result (self.new.file.items ≡ self.old.file.items ++ padded (flat_map entry_bytes entries.now)) }
        ensures names { OnOk result (self.new.names.items ≡ self.old.names.items ++ string (codes ".rela" ++ section.now.name)) }
        ensures rows { OnOk result (self.new.table_rows.items ≡ self.old.table_rows.items ++ section_row_bytes (rela_row_of symtab (place_in (length self.old.names.items) (codes ".rela" ++ section.now.name)) (length self.old.file.items) (length (flat_map entry_bytes entries.now)) number)) }
        ensures own { OnOk result (self.new.own_rows.items ≡ self.old.own_rows.items) }
    {
        let name = self.put_table_name(section.name.as_slice())?;
        let extent = put_table(entries, &mut self.file)?;
        let place = Place {
            name,
            offset: extent.offset,
            size: extent.size,
        };
        put_rela_row(symtab, &place, number, &mut self.table_rows)
    }

    /// The relocations of the sections that have entries, their names and their headers.
    pub fn add_tables(&mut self, object: &Object, tables: &[Vec<Entry>]) -> Result<(), AllocError>
        requires count { length tables.now ≡ length object.now.sections }
        requires tables { AreTables (λ table. table.items) object.now.entries tables.now }
        requires none { HoldsTables self.old.file.items self.old.names.items self.old.table_rows.items object.now [] }
        ensures all { OnOk result (HoldsTables self.new.file.items self.new.names.items self.new.table_rows.items object.now (relocated object.now.sections object.now.entries)) }
        ensures own { OnOk result (self.new.own_rows.items ≡ self.old.own_rows.items) }
    {
        let sections = object.sections.as_slice();
        let symtab = sections.len() as u64 + 1;
        for (index, section) in sections.iter().enumerate() {
            let entries = tables[index].as_slice();
            if !entries.is_empty() {
                self.add_table(symtab, index as u64 + 1, section, entries)?;
            }
        }
        Ok(())
    }
}

impl TableNames {
    /// Names the tables of symbols, of their names and of the sections' names.
    pub fn put(names: &mut Vec<u8>) -> Result<TableNames, AllocError>
        ensures symtab { IfOk result (λ places. places.symtab ≡ place_in (length names.old.items) (codes ".symtab")) }
        ensures strtab { IfOk result (λ places. places.strtab ≡ place_in (length (names.old.items ++ string (codes ".symtab"))) (codes ".strtab")) }
        ensures shstrtab { IfOk result (λ places. places.shstrtab ≡ place_in (length ((names.old.items ++ string (codes ".symtab")) ++ string (codes ".strtab"))) (codes ".shstrtab")) }
        ensures names { OnOk result (names.new.items ≡ ((names.old.items ++ string (codes ".symtab")) ++ string (codes ".strtab")) ++ string (codes ".shstrtab")) }
    {
        Ok(TableNames {
            symtab: put_string(b".symtab", names)?,
            strtab: put_string(b".strtab", names)?,
            shstrtab: put_string(b".shstrtab", names)?,
        })
    }
}
