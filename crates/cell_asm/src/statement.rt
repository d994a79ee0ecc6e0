//! What a line says.

ghost use Rattle.std.specs.Prelude.{◌≡◌, [], ◌++◌, length, OnOk};
ghost use Rattle.cell_asm.specs.Blocks.{marks_at, appended, empty, drafted};

use crate::text::Text;
use cell_image::put_number;
use cell_num::{Listed, RelKind};
use std::alloc::{AllocError, Global};

/// The sections that a source can choose.
#[derive(Clone, Copy, Debug, PartialEq, Eq)]
pub enum Part {
    Text,
    Rodata,
    Data,
    Bss,
}

/// The bindings that directives give.
#[derive(Clone, Copy, Debug, PartialEq, Eq)]
pub enum Binding {
    Global,
    Weak,
}

/// The symbol of an entry: a name, or the label that the line's `la` makes.
#[derive(Drop)]
pub enum Target<'a> {
    Named(Text<'a>),
    Made,
}

/// An entry for the bytes of a piece.
#[derive(Drop)]
pub struct Fix<'a> {
    pub kind: RelKind,
    pub target: Target<'a>,
    pub addend: i64,
}

/// An instruction's immediate: a number, or 0 under an entry.
#[derive(Drop)]
pub struct Field<'a> {
    pub number: i32,
    pub fix: Option<Fix<'a>>,
}

/// Up to eight bytes, the lowest first, and the entries for them, in order.
#[derive(Drop)]
pub struct Piece<'a> {
    pub width: u8,
    pub value: u64,
    pub fix: Option<Fix<'a>>,
    pub second: Option<Fix<'a>>,
}

/// What the bytes of a statement are: instructions, numbers of one or two bytes, or of four or eight.
#[derive(Clone, Copy, Debug, PartialEq, Eq)]
pub enum Content {
    Code,
    Narrow,
    Wide,
}

/// A statement.
#[derive(Drop)]
pub enum Statement<'a> {
    Nothing,
    Choose(Part),
    /// A name gets this binding.
    Bind(Binding, Text<'a>),
    /// So many zero bytes.
    Zeros(u128),
    /// Bytes up to a multiple of that many.
    Align(u16),
    Bytes(Content, Block<'a>),
}

/// A line: its label and its statement.
#[derive(Drop)]
pub struct Line<'a> {
    pub label: Option<Text<'a>>,
    pub statement: Statement<'a>,
}

/// An entry, and where its bytes begin in the statement.
#[derive(Drop)]
pub struct Mark<'a> {
    pub at: usize,
    pub fix: Fix<'a>,
}

/// The bytes of a statement, and the entries for them, in order.
#[derive(Drop)]
pub struct Block<'a> {
    pub bytes: Listed<u8>,
    pub marks: Listed<Mark<'a>>,
}

/// A block that grows piece by piece.
#[derive(Drop)]
pub struct Draft<'a> {
    pub bytes: Vec<u8>,
    pub marks: Vec<Mark<'a>>,
}

impl<'a> Draft<'a> {
    pub fn new(alloc: Global) -> Draft<'a>
        ensures { drafted result ≡ empty }
    {
        Draft {
            bytes: Vec::new(alloc),
            marks: Vec::new(alloc),
        }
    }

    /// Goes on behind one piece more.
    pub fn add(&mut self, piece: Piece<'a>) -> Result<(), AllocError>
        ensures { OnOk result (drafted self.new ≡ appended (drafted self.old) piece.entry) }
    {
        self.mark(piece.fix)?;
        self.mark(piece.second)?;
        put_number(piece.value, piece.width, &mut self.bytes)
    }

    /// Adds an entry behind the bytes.
    fn mark(&mut self, fix: Option<Fix<'a>>) -> Result<(), AllocError>
        ensures marks { OnOk result (self.new.marks.items ≡ self.old.marks.items ++ marks_at (length self.old.bytes.items) fix.entry) }
        ensures bytes { self.new.bytes ≡ self.old.bytes }
    {
        if let Some(fix) = fix {
            let at = self.bytes.len();
            self.marks.push(Mark { at, fix })?;
        }
        Ok(())
    }

    pub fn finished(self) -> Block<'a>
        ensures { result ≡ drafted self.entry }
    {
        Block {
            bytes: Listed::from_vec(self.bytes),
            marks: Listed::from_vec(self.marks),
        }
    }
}

/// A line and where it stands: its number, the section chosen before it, how many bytes that section
/// has before it, and the number of the next label that is made, from 1.
#[derive(Drop)]
pub struct Laid<'a> {
    pub number: u32,
    pub part: Option<Part>,
    pub offset: u32,
    pub made: u32,
    pub line: Line<'a>,
}

/// What a symbol is known by: its name, or the number of a label that `la` made, from 1.
#[derive(Drop)]
pub enum Key<'a> {
    Named(Text<'a>),
    Made(u32),
}

/// A label: its section, and its offset there.
#[derive(Drop)]
pub struct Label<'a> {
    pub key: Key<'a>,
    pub part: Part,
    pub offset: u32,
}

/// A section, and an offset there.
#[derive(Clone, Copy, Debug, PartialEq, Eq)]
pub struct Spot {
    pub part: Part,
    pub offset: u32,
}
