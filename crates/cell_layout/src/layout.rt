//! Where the sections of an object stand, counted from the start of their class.

ghost use Rattle.std.specs.Prelude.{◌≡◌, ◌+◌, ◌≤◌, ◌<◌, ◌^◌, IfOk, IsTrue, length, nat_lt};
ghost use Rattle.std.specs.List.{list_all};
ghost use Rattle.cell_num.specs.Lists.{each_pair};
ghost use Rattle.cell_object.specs.Sound.{is_sound_section};
ghost use Rattle.cell_world.specs.Placed.Layout.{class_of as class};
ghost use Rattle.cell_layout.specs.Layout.{end_for, with_end, next_in, AreEnds, AreSmall, offsets_of};

use crate::image::gap;
use cell_object::Section;
use cell_world::{Class, SecPlace};
use std::alloc::{AllocError, Global};

/// Where the last section of each class ends; a class without a section has no end.
#[derive(Clone, Copy, Debug, PartialEq, Eq)]
pub struct Ends {
    pub text: Option<u64>,
    pub read_only: Option<u64>,
    pub writable: Option<u64>,
}

impl Ends {
    /// Where the last section of a class ends.
    pub fn get(&self, class: Class) -> Option<u64>
        ensures { result ≡ end_for self.now class }
    {
        match class {
            Class::Text => self.text,
            Class::ReadOnly => self.read_only,
            Class::Writable => self.writable,
        }
    }

    fn set(&mut self, class: Class, end: u64)
        ensures { self.new ≡ with_end self.old class end }
    {
        match class {
            Class::Text => self.text = Some(end),
            Class::ReadOnly => self.read_only = Some(end),
            Class::Writable => self.writable = Some(end),
        }
    }

    /// Puts a section behind the others of its class, and tells where it begins.
    fn add(&mut self, section: &Section) -> u64
        requires { next_in self.old section.now + section.now.size < 2 ^ 60 }
        ensures at { result ≡ next_in self.old section.now }
        ensures end { self.new ≡ with_end self.old (class section.now) (result + section.now.size) }
    {
        let class = Class::of(section);
        let before = self.get(class).unwrap_or(0);
        let align = section.align;
        let size = section.size;
        let at = before + gap(before, align);
        self.set(class, at + u64::from(size));
        at
    }
}

fn number_of(section: &Section) -> u16
    ensures { result ≡ section.now.number }
{
    section.number
}

/// Where each section stands, counted from the start of its class, and where the classes end.
#[derive(Drop)]
pub struct Layout {
    pub offsets: Vec<SecPlace>,
    pub ends: Ends,
}

/// Lays the sections out, each behind the others of its class.
pub fn lay_out(alloc: Global, sections: &[Section]) -> Result<Layout, AllocError>
    requires rising { IsTrue (each_pair (λ a b. nat_lt a.number b.number) sections.now) }
    requires sound { IsTrue (list_all is_sound_section sections.now) }
    ensures offsets { IfOk result (λ l. l.offsets.items ≡ offsets_of sections.now) }
    ensures ends { IfOk result (λ l. AreEnds l.ends sections.now) }
    ensures small { IfOk result (λ l. AreSmall l.ends) }
    ensures few { IfOk result (λ _. length sections.now ≤ 65536) }
{
    let mut offsets = Vec::new(alloc);
    let mut ends = Ends {
        text: None,
        read_only: None,
        writable: None,
    };
    for section in sections {
        let start = ends.add(section);
        offsets.push(SecPlace {
            section: number_of(section),
            start,
        })?;
    }
    Ok(Layout { offsets, ends })
}
