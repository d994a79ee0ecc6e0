//! A section by its number.

ghost use Rattle.std.specs.Prelude.{◌≡◌, ◌==◌, option_map};
ghost use Rattle.cell_object.specs.Parts.{section_of as section_with};

use cell_object::{Object, Section};

fn is_numbered(section: &Section, number: u32) -> bool
    ensures { result ≡ (section.now.number == number) }
{
    let own = section.number;
    u32::from(own) == number
}

/// The loaded section of that number.
pub fn section_of(object: &Object, number: u32) -> Option<&Section>
    ensures { option_map (λ s. s.now) result ≡ section_with object.now number }
{
    for section in object.sections.as_slice() {
        if is_numbered(section, number) {
            return Some(section);
        }
    }
    None
}
