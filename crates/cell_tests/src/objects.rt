//! Objects as tables, and the files that they are written as.

use cell_elfw::write_object;
use cell_num::{Bytes, Listed};
use cell_object::{Bind, Entry, Fill, Home, Object, Section, Sort, Symbol};
use std::alloc::{AllocError, Global};
use std::test::Fail;

/// A loaded section: its alignment, and its bytes or how many zeros it has.
#[derive(Clone, Copy)]
pub enum PlainSection<'a> {
    /// `.text`, which is executable.
    Text(u16, &'a [u8]),
    /// `.rodata`, which is only read.
    Constants(u16, &'a [u8]),
    /// `.data`, which is writable.
    Data(u16, &'a [u8]),
    /// `.bss`, which is writable.
    Zeros(u16, u32),
}

/// A symbol without a type.
#[derive(Clone, Copy)]
pub enum PlainSymbol<'a> {
    /// A LOCAL at an offset of the section with a number.
    Local(&'a str, u16, u64),
    /// A GLOBAL at an offset of the section with a number.
    Global(&'a str, u16, u64),
    /// A GLOBAL that another object defines.
    Wanted(&'a str),
}

/// An object. Its sections and its symbols have the numbers from 1 on.
#[derive(Clone, Copy)]
pub struct PlainObject<'a> {
    pub sections: &'a [PlainSection<'a>],
    /// The LOCAL ones stand first.
    pub symbols: &'a [PlainSymbol<'a>],
    pub entries: &'a [Entry],
}

fn list(alloc: Global, bytes: &[u8]) -> Result<Bytes, AllocError> {
    Ok(Bytes::from_vec(Vec::from_slice(alloc, bytes)?))
}

/// A section that is only read.
fn constants(
    alloc: Global,
    number: u16,
    name: &str,
    align: u16,
    bytes: &[u8],
) -> Result<Section, Fail> {
    Ok(Section {
        number,
        name: list(alloc, name.as_bytes())?,
        write: false,
        exec: false,
        fill: Fill::Prog,
        align,
        size: u32::try_from(bytes.len())
            .ok()
            .ok_or("too large a section")?,
        bytes: list(alloc, bytes)?,
    })
}

impl<'a> PlainSection<'a> {
    fn section(&self, alloc: Global, number: u16) -> Result<Section, Fail> {
        let section = match *self {
            PlainSection::Text(align, bytes) => Section {
                exec: true,
                ..constants(alloc, number, ".text", align, bytes)?
            },
            PlainSection::Constants(align, bytes) => {
                constants(alloc, number, ".rodata", align, bytes)?
            }
            PlainSection::Data(align, bytes) => Section {
                write: true,
                ..constants(alloc, number, ".data", align, bytes)?
            },
            PlainSection::Zeros(align, size) => Section {
                write: true,
                fill: Fill::Zero,
                size,
                ..constants(alloc, number, ".bss", align, &[])?
            },
        };
        Ok(section)
    }
}

impl<'a> PlainSymbol<'a> {
    fn symbol(&self, alloc: Global) -> Result<Symbol, AllocError> {
        let (name, bind, home, value) = match *self {
            PlainSymbol::Local(name, section, at) => (name, Bind::Local, Home::Inside(section), at),
            PlainSymbol::Global(name, section, at) => (
                name,
                Bind::Global,
                Home::Inside(section),
                at,
            ),
            PlainSymbol::Wanted(name) => (name, Bind::Global, Home::Undef, 0),
        };
        Ok(Symbol {
            name: list(alloc, name.as_bytes())?,
            bind,
            sort: Sort::NoType,
            home,
            value,
            size: 0,
        })
    }
}

impl<'a> PlainObject<'a> {
    /// The object as the reader gives it.
    pub fn object(&self, alloc: Global) -> Result<Object, Fail> {
        let mut sections = Vec::new(alloc);
        for (index, section) in self.sections.iter().enumerate() {
            let number = u16::try_from(index + 1).ok().ok_or("too many sections")?;
            sections.push(section.section(alloc, number)?)?;
        }
        let mut symbols = Vec::new(alloc);
        for symbol in self.symbols {
            symbols.push(symbol.symbol(alloc)?)?;
        }
        Ok(Object {
            sections: Listed::from_vec(sections),
            symbols: Listed::from_vec(symbols),
            entries: Listed::from_vec(Vec::from_slice(alloc, self.entries)?),
        })
    }

    /// The file that it is written as.
    pub fn image(&self, alloc: Global) -> Result<Vec<u8>, Fail> {
        image(alloc, &self.object(alloc)?)
    }
}

/// The file that an object is written as.
pub fn image(alloc: Global, object: &Object) -> Result<Vec<u8>, Fail> {
    let image = write_object(alloc, object)
        .ok()
        .ok_or("the object can be written")?;
    Ok(image.as_slice().to_vec(alloc)?)
}
