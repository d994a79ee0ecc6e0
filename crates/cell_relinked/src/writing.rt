//! Fields that are written into what sections hold.

ghost use Rattle.std.specs.Prelude.{◌≡◌, ◌≤◌, ◌+◌, ℕ, IsTrue, IfSome, List, None, find, length, map, nat_lt, ◌==◌};
ghost use Rattle.cell_num.specs.Bits.{bytes_of};
ghost use Rattle.cell_num.specs.Kinds.{width_of};
ghost use Rattle.cell_num.specs.Lists.{In, each_pair};
ghost use Rattle.cell_object.specs.declared.object.Entry.{Entry as SomeEntry};
ghost use Rattle.cell_object.specs.declared.object.Section.{Section as SomeSection};
ghost use Rattle.cell_world.specs.Before.{AreBefore};
ghost use Rattle.cell_relinked.specs.Contents.{AreInside, StandsAt, with_fields, written_in};

use cell_link::FieldValue;
use cell_mem::write_number;
use cell_num::{Listed, width};
use cell_object::{Entry, Section};

/// The fields of a cell: the first entry of each, and in the same order what they hold.
#[derive(Drop)]
pub struct Fields {
    pub firsts: Vec<Entry>,
    pub values: Listed<FieldValue>,
}

/// How many of the sections, which are in the order of their numbers, have a lower one.
fn sections_before(sections: &[Section], number: u16) -> usize
    requires { IsTrue (each_pair (λ a b. nat_lt a.number b.number) sections.now) }
    ensures { AreBefore (λ s. s.number) number sections.now result }
{
    sections.partition_point(
        |section: &Section| -> bool
            ensures { result ≡ nat_lt section.now.number number }
        { section.number < number },
    )
}

/// The place of the section of that number.
fn place_of(sections: &[Section], number: u16) -> Option<usize>
    requires { IsTrue (each_pair (λ a b. nat_lt a.number b.number) sections.now) }
    ensures found { IfSome result (StandsAt number sections.now) }
    ensures none { result ≡ None → find (λ s. s.number == number) sections.now ≡ None }
{
    let place = sections_before(sections, number);
    let section = sections.get(place)?;
    if section.number != number {
        return None;
    }
    Some(place)
}

/// Writes the field of that first entry, if its section is one of these.
fn write_field(contents: &mut Vec<Listed<u8>>, sections: &[Section], first: &Entry, value: u64)
    requires rising { IsTrue (each_pair (λ a b. nat_lt a.number b.number) sections.now) }
    requires sizes { map (λ bytes. length bytes) contents.old.items ≡ map (λ s. s.size) sections.now }
    requires inside { (s : SomeSection) → In s sections.now → s.number ≡ first.now.section → first.now.offset + width_of first.now.kind ≤ s.size }
    ensures sizes { map (λ bytes. length bytes) contents.new.items ≡ map (λ s. s.size) sections.now }
    ensures written { (own : SomeSection → List ℕ) → contents.old.items ≡ map own sections.now → contents.new.items ≡ map (written_in first.now.section first.now.offset (bytes_of (width_of first.now.kind) value) own) sections.now }
{
    let Some(place) = place_of(sections, first.section) else {
        return;
    };
    write_number(
        &mut contents[place],
        first.offset as usize,
        width(first.kind),
        value,
    );
}

/// Writes the fields into what the sections hold.
pub fn write_fields(contents: &mut Vec<Listed<u8>>, sections: &[Section], fields: &Fields)
    requires each { length fields.now.values ≡ length fields.now.firsts.items }
    requires rising { IsTrue (each_pair (λ a b. nat_lt a.number b.number) sections.now) }
    requires sizes { map (λ bytes. length bytes) contents.old.items ≡ map (λ s. s.size) sections.now }
    requires inside { AreInside fields.now.firsts.items sections.now }
    ensures { (value : SomeEntry → ℕ) (own : SomeSection → List ℕ) → map (λ v. v.value) fields.now.values ≡ map value fields.now.firsts.items →
        contents.old.items ≡ map own sections.now → contents.new.items ≡ map (λ s. with_fields value fields.now.firsts.items s (own s)) sections.now }
{
    let values = fields.values.as_slice();
    for index in 0..fields.firsts.len() {
        write_field(
            contents,
            sections,
            &fields.firsts[index],
            values[index].value,
        );
    }
}
