//! The classes of sections, each of which has pages of its own, and where they start.

ghost use Rattle.std.specs.Prelude.{◌≡◌};
ghost use Rattle.cell_world.specs.Placed.Layout.{class_of as class, is_in_class, permission_of, start_in};

use crate::Permission;
use cell_object::Section;

/// Text is executable, and read-only sections are neither that nor writable.
#[derive(Clone, Copy, Debug, PartialEq, Eq)]
pub enum Class {
    Text,
    ReadOnly,
    Writable,
}

impl Class {
    /// The class of a section.
    pub fn of(section: &Section) -> Class
        ensures { result ≡ class section.now }
    {
        if section.exec {
            Class::Text
        } else if section.write {
            Class::Writable
        } else {
            Class::ReadOnly
        }
    }

    /// Whether the section is of the class.
    pub fn has(self, section: &Section) -> bool
        ensures { result ≡ is_in_class self section.now }
    {
        match self {
            Class::Text => section.exec,
            Class::ReadOnly => !section.exec && !section.write,
            Class::Writable => section.write && !section.exec,
        }
    }

    /// What the pages of the class may be used for.
    pub fn permission(self) -> Permission
        ensures { result ≡ permission_of self }
    {
        Permission {
            read: true,
            write: self == Class::Writable,
            exec: self == Class::Text,
        }
    }
}

/// Where the pages of a cell's classes start, one address a class. That of a class without a section says nothing.
#[derive(Clone, Copy, Debug, PartialEq, Eq)]
pub struct Starts {
    pub text: u64,
    pub read_only: u64,
    pub writable: u64,
}

impl Starts {
    /// Where the class starts.
    pub fn get(&self, class: Class) -> u64
        ensures { result ≡ start_in self.now class }
    {
        match class {
            Class::Text => self.text,
            Class::ReadOnly => self.read_only,
            Class::Writable => self.writable,
        }
    }
}
