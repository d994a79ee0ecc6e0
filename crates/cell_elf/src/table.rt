//! Relocations for one loaded section: the rules of the entries, and what an object has of them.

ghost use Rattle.std.specs.Prelude.{◌≡◌, ℕ, ◌+◌, ◌≤◌, ◌<◌, ◌^◌, length, IfOk, OnOk, Ok, true, false, ◌++◌, ◌∷◌, None, [], ◌-◌, option_map, slice_get};
ghost use Rattle.std.specs.List.{flat_map};
ghost use Rattle.cell_num.specs.Limits.{max_section_bytes};
ghost use Rattle.cell_object.specs.Bytes.{checked, between};
ghost use Rattle.cell_object.specs.Header.{section_header};
ghost use Rattle.cell_object.specs.Sections.{sections_rules};
ghost use Rattle.cell_object.specs.Symbols.{symtab as symtab_of, symbols_of};
ghost use Rattle.cell_num.specs.Kinds.{is_passed_over as passed_over};
ghost use Rattle.cell_object.specs.Relocations.{is_rela as rela, is_for_loaded, entry_count, entry_place, rela_row, entry_from, entry_of, entries_below, field_rules, is_unusable as unusable, rule_21, rule_22, rule_23, entry_rules, symbol_total as symbol_total_of};
ghost use Rattle.cell_elf.specs.Named.{target_of};
ghost use Rattle.cell_elf.specs.Symbols.{AreSymbols};
ghost use Rattle.cell_file.specs.Cover.{IsCover};
ghost use Rattle.cell_file.specs.Fields.{field_of, fields_of, field_at, high_at, HoldsHighs};
ghost use Rattle.cell_file.specs.Kept.{Adds};
ghost use Rattle.cell_file.specs.Outcome.{Passes};

use crate::symbols::{SymbolTable, Target};
use cell_file::{
    Field, Fields, File, Keep, ReadFail, Skips, has_flag, is_passed_over, refuse_where, rela_row_at,
};
use cell_num::{RelKind, is_instruction, is_stacking, is_upper_pcrel, kind_of, width};
use cell_object::elf::{ROW_LEN, SHF_EXECINSTR};
use cell_object::{Bind, Entry, Home, RelaRow, SectionHeader};

/// Tries the rule of an entry's field, rule 22, after which it begins in the section.
#[tactic(auto, using(crate::proofs::FieldLemmas::width_wide))]
fn check_field(target: &SectionHeader, at: u64, offset: u64, kind: RelKind) -> Result<(), ReadFail>
    requires { target.now.sh_size ≤ max_section_bytes }
    ensures rules { Passes result (checked (rule_22 target.now at offset kind)) }
    ensures offset { OnOk result (offset < target.now.sh_size) }
{
    let refused = ReadFail::BadObject { rule: 22, at };
    if offset >= target.sh_size || target.sh_size - offset < u64::from(width(kind)) {
        return Err(refused);
    }
    if is_instruction(kind) && (!has_flag(target, SHF_EXECINSTR) || offset % 4 != 0) {
        return Err(refused);
    }
    Ok(())
}

/// The field of an entry.
fn field(entry: &Entry) -> Field
    ensures { result ≡ field_of entry.now }
{
    Field {
        from: entry.offset,
        width: width(entry.kind),
        stacking: is_stacking(entry.kind),
    }
}

/// Takes the room for one entry, where some is left.
fn take_room(room: &mut u64) -> Result<(), ReadFail>
    ensures { Passes result (Ok tt) }
{
    if *room == 0 {
        return Err(ReadFail::OutOfMemory);
    }
    *room -= 1;
    Ok(())
}

/// What the relocations of a file are read with: the number of its symbol table, the symbols, and which
/// entries are passed over.
#[derive(Clone, Copy)]
pub struct Known<'a> {
    pub file: File<'a>,
    pub symtab: Option<u16>,
    pub symbols: Option<SymbolTable<'a>>,
    pub skips: &'a Skips<'a>,
    ghost symtab_is: { symtab ≡ symtab_of file.bytes.now },
    ghost skips_are: { skips.now.bytes.now ≡ file.bytes.now },
}

/// Relocations for a loaded section, the symbols that they may name, and which entries of the file are
/// passed over.
#[derive(Clone, Copy)]
pub struct Table<'a> {
    pub file: File<'a>,
    pub symbols: Option<SymbolTable<'a>>,
    pub skips: &'a Skips<'a>,
    pub header: SectionHeader,
    pub target: SectionHeader,
    ghost skips_are: { skips.now.bytes.now ≡ file.bytes.now },
    ghost inside: { header.sh_offset + header.sh_size ≤ length file.bytes.now },
    ghost for_section: { header.sh_info < 65536 },
    ghost target_is: { target ≡ section_header file.bytes.now header.sh_info },
    ghost small: { target.sh_size ≤ max_section_bytes },
}

impl<'a> Table<'a> {
    /// The relocations of a section that keeps its rule, for a loaded section.
    pub fn open(known: &Known<'a>, number: u16, header: &SectionHeader) -> Table<'a>
        requires from { 1 ≤ number }
        requires there { number < known.now.file.header.e_shnum }
        requires is { header.now ≡ section_header known.now.file.bytes.now number }
        requires kind { rela header.now ≡ true }
        requires target_from { 1 ≤ header.now.sh_info }
        requires target_there { header.now.sh_info < known.now.file.header.e_shnum }
        requires loaded { is_for_loaded known.now.file.bytes.now header.now ≡ true }
        requires passed { checked (sections_rules known.now.file.bytes.now) ≡ Ok tt }
        ensures file { result.file.bytes.now ≡ known.now.file.bytes.now }
        ensures symbols { result.symbols ≡ known.now.symbols }
        ensures header { result.header ≡ header.now }
    {
        let file = &known.file;
        let _count = file.header.e_shnum;
        let target = file.section(header.sh_info as u16);
        Table {
            file: *file,
            symbols: known.symbols,
            skips: known.skips,
            header: *header,
            target,
        }
    }

    /// How many entries there are.
    pub fn count(&self) -> u64
        ensures { result ≡ entry_count self.now.header }
    {
        self.header.sh_size / ROW_LEN
    }

    /// Where an entry stands.
    pub fn place(&self, number: u64) -> u64
        requires { number < entry_count self.now.header }
        ensures place { result ≡ entry_place self.now.header number }
        ensures inside { result + 24 ≤ length self.now.file.bytes.now }
        ensures small { result < 2 ^ 63 }
    {
        let _len = self.file.bytes.len();
        self.header.sh_offset + ROW_LEN * number
    }

    /// The fields of an entry.
    pub fn row(&self, number: u64) -> RelaRow
        requires { number < entry_count self.now.header }
        ensures { result ≡ rela_row self.now.file.bytes.now self.now.header number }
    {
        rela_row_at(self.file.bytes, self.place(number) as usize)
    }

    /// The first entry from a number on that isn't passed over, or how many there are; of a long row of
    /// those that are passed over it may be one, since `Skips` counts such a row in strides.
    #[tactic(auto, using(crate::proofs::Skipping::rows))]
    pub fn kept_from(&self, number: u64) -> u64
        requires { number ≤ entry_count self.now.header }
        ensures from { number ≤ result }
        ensures there { result ≤ entry_count self.now.header }
        ensures passed { (k : ℕ) → number ≤ k → k < result → passed_over (rela_row self.now.file.bytes.now self.now.header k).r_type ≡ true }
    {
        let count = self.count();
        if number >= count {
            return count;
        }
        let skipped = self.skips.at(self.place(number));
        (number + u64::from(skipped)).min(count)
    }

    /// How many symbols the symbol table has, symbol 0 among them.
    fn symbol_total(&self) -> u64
        requires { AreSymbols self.now.file.bytes.now self.now.symbols }
        ensures { result ≡ symbol_total_of self.now.file.bytes.now }
    {
        match self.symbols {
            Some(table) => table.count(),
            None => 0,
        }
    }

    /// What an entry asks of the symbol with a number from 1 on, where there is one.
    pub fn symbol(&self, number: u32) -> Option<Target>
        requires from { 1 ≤ number }
        requires symbols { AreSymbols self.now.file.bytes.now self.now.symbols }
        ensures { result ≡ option_map target_of (slice_get (symbols_of self.now.file.bytes.now) (number - 1)) }
    {
        match self.symbols {
            Some(table) => table.target(number),
            None => None,
        }
    }

    /// Whether entries can't use a symbol.
    fn is_unusable(&self, number: u32) -> bool
        requires { AreSymbols self.now.file.bytes.now self.now.symbols }
        ensures { result ≡ unusable (symbols_of self.now.file.bytes.now) number }
    {
        if number == 0 {
            return false;
        }
        match self.symbol(number) {
            Some(symbol) => {
                symbol.bind == Bind::Local && matches!(symbol.home, Home::Undef | Home::Elsewhere)
            }
            None => true,
        }
    }

    /// Tries the rule of an entry's symbol, rule 21.
    fn check_symbol(&self, at: u64, number: u32) -> Result<(), ReadFail>
        requires at { at < 2 ^ 63 }
        requires symbols { AreSymbols self.now.file.bytes.now self.now.symbols }
        ensures { Passes result (checked (rule_21 (symbol_total_of self.now.file.bytes.now) (symbols_of self.now.file.bytes.now) at number)) }
    {
        let absent = u64::from(number) >= self.symbol_total();
        refuse_where(absent || self.is_unusable(number), 21, at + 12)
    }

    /// Tries the rule of fields that share a byte, rule 23, after the entries before, whose fields are kept, and
    /// keeps the entry's field.
    fn check_clash(
        &self,
        number: u64,
        fields: &mut Fields,
        at: u64,
        entry: &Entry,
    ) -> Result<(), ReadFail>
        requires cover { IsCover (field_at fields.old) (fields_of (entries_below self.now.file.bytes.now self.now.header number)) }
        requires highs { HoldsHighs fields.old (entries_below self.now.file.bytes.now self.now.header number) }
        requires room { entry.now.offset < length fields.old.marks.items }
        ensures rules { Passes result (checked (rule_23 (entries_below self.now.file.bytes.now self.now.header number) at entry.now)) }
        ensures cover { OnOk result (IsCover (field_at fields.new) (fields_of (entries_below self.now.file.bytes.now self.now.header number ++ entry.now ∷ []))) }
        ensures highs { OnOk result (HoldsHighs fields.new (entries_below self.now.file.bytes.now self.now.header number ++ entry.now ∷ [])) }
        ensures table { fields.new.table ≡ fields.old.table }
        ensures room { length fields.new.marks.items ≡ length fields.old.marks.items }
    {
        let field = field(entry);
        if fields.is_hit(&field) {
            return Err(ReadFail::BadObject { rule: 23, at });
        }
        fields.add(field, is_upper_pcrel(entry.kind));
        Ok(())
    }

    /// Tries the rules of an entry whose kind asks for something, and gives it.
    #[tactic(auto, using(cell_file::proofs::Passing::passing), unfolding(cell_object::specs::Relocations::field_rules))]
    fn entry(
        &self,
        fields: &mut Fields,
        number: u64,
        row: &RelaRow,
        kind: RelKind,
    ) -> Result<Entry, ReadFail>
        requires there { number < entry_count self.now.header }
        requires symbols { AreSymbols self.now.file.bytes.now self.now.symbols }
        requires cover { IsCover (field_at fields.old) (fields_of (entries_below self.now.file.bytes.now self.now.header number)) }
        requires highs { HoldsHighs fields.old (entries_below self.now.file.bytes.now self.now.header number) }
        requires room { self.now.target.sh_size ≤ length fields.old.marks.items }
        ensures rules { Passes result (checked (field_rules self.now.file.bytes.now (entries_below self.now.file.bytes.now self.now.header number) (entry_place self.now.header number) (entry_from self.now.header row.now kind))) }
        ensures entry { IfOk result (λ entry. entry ≡ entry_from self.now.header row.now kind) }
        ensures cover { IfOk result (λ entry. IsCover (field_at fields.new) (fields_of (entries_below self.now.file.bytes.now self.now.header number ++ entry ∷ []))) }
        ensures highs { IfOk result (λ entry. HoldsHighs fields.new (entries_below self.now.file.bytes.now self.now.header number ++ entry ∷ [])) }
        ensures table { fields.new.table ≡ fields.old.table }
        ensures room { length fields.new.marks.items ≡ length fields.old.marks.items }
    {
        let at = self.place(number);
        self.check_symbol(at, row.r_sym)?;
        check_field(&self.target, at, row.r_offset, kind)?;
        let entry = Entry {
            section: self.header.sh_info as u16,
            offset: row.r_offset as u32,
            kind,
            symbol: row.r_sym,
            addend: row.r_addend,
        };
        self.check_clash(number, fields, at, &entry)?;
        Ok(entry)
    }

    /// Tries the rules of the next entry, and keeps it where its kind asks for something.
    #[tactic(auto, using(crate::proofs::Tables::entry_step), unfolding(cell_object::specs::Relocations::entry_of))]
    fn pass_entry<K: Keep<Entry>>(
        &self,
        entries: &mut K,
        fields: &mut Fields,
        room: &mut u64,
        number: u64,
    ) -> Result<(), ReadFail>
        requires there { number < entry_count self.now.header }
        requires symbols { AreSymbols self.now.file.bytes.now self.now.symbols }
        requires cover { IsCover (field_at fields.old) (fields_of (entries_below self.now.file.bytes.now self.now.header number)) }
        requires highs { HoldsHighs fields.old (entries_below self.now.file.bytes.now self.now.header number) }
        requires room { self.now.target.sh_size ≤ length fields.old.marks.items }
        ensures rules { Passes result (checked (entry_rules self.now.file.bytes.now self.now.header number)) }
        ensures kept { OnOk result (Adds (K.holds entries.old) (K.holds entries.new) (entry_of self.now.file.bytes.now self.now.header number)) }
        ensures cover { OnOk result (IsCover (field_at fields.new) (fields_of (entries_below self.now.file.bytes.now self.now.header number ++ entry_of self.now.file.bytes.now self.now.header number))) }
        ensures highs { OnOk result (HoldsHighs fields.new (entries_below self.now.file.bytes.now self.now.header number ++ entry_of self.now.file.bytes.now self.now.header number)) }
        ensures table { fields.new.table ≡ fields.old.table }
        ensures room { length fields.new.marks.items ≡ length fields.old.marks.items }
    {
        let row = self.row(number);
        if is_passed_over(row.r_type) {
            return Ok(());
        }
        take_room(room)?;
        // rule 20
        let Some(kind) = kind_of(row.r_type) else {
            return Err(ReadFail::BadObject {
                rule: 20,
                at: self.place(number) + 8,
            });
        };
        let entry = self.entry(fields, number, &row, kind)?;
        entries.keep(entry)?;
        Ok(())
    }

    /// Tries the rules of the entries, in order, and keeps those whose kind asks for something.
    #[tactic(auto, using(cell_file::proofs::Rounds::rounds, crate::proofs::FieldLemmas::cover_none))]
    pub fn pass_entries<K: Keep<Entry>>(
        &self,
        entries: &mut K,
        fields: &mut Fields,
        room: &mut u64,
    ) -> Result<(), ReadFail>
        requires symbols { AreSymbols self.now.file.bytes.now self.now.symbols }
        requires none { (q : ℕ) → field_at fields.old q ≡ None }
        requires low { (q : ℕ) → high_at fields.old q ≡ false }
        requires room { self.now.target.sh_size ≤ length fields.old.marks.items }
        ensures rules { Passes result (checked (flat_map (entry_rules self.now.file.bytes.now self.now.header) (between 0 (entry_count self.now.header)))) }
        ensures kept { OnOk result (Adds (K.holds entries.old) (K.holds entries.new) (entries_below self.now.file.bytes.now self.now.header (entry_count self.now.header))) }
        ensures highs { OnOk result (HoldsHighs fields.new (entries_below self.now.file.bytes.now self.now.header (entry_count self.now.header))) }
        ensures table { fields.new.table ≡ fields.old.table }
    {
        let count = self.count();
        let mut number = self.kept_from(0);
        while number < count {
            self.pass_entry(entries, fields, room, number)?;
            number = self.kept_from(number + 1);
        }
        Ok(())
    }
}
