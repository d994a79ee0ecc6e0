//! What is looked up: a stem, or a name that is held strongly or weakly.

ghost use Rattle.std.specs.Prelude.{◌≡◌};
ghost use Rattle.cell_space.specs.Index.{has_word, word_hash, is_at};

use crate::cell::SpaceCell;
use crate::hash::{name_hash, stem_hash, weak_hash};
use cell_world::Standing;

/// Whether a word is a stem, the name of a symbol or alias, or that of a WEAK symbol.
#[derive(Clone, Copy, Debug, PartialEq, Eq)]
pub enum WordKind {
    Stem,
    Name,
    Weak,
}

/// A word with its hash, which is made once for all namespaces that it is looked up in.
#[derive(Clone, Copy)]
pub struct Word<'a> {
    pub kind: WordKind,
    pub text: &'a [u8],
    pub hash: u64,
    ghost hashed: { hash ≡ word_hash kind text.now },
}

pub fn word_hash(kind: WordKind, text: &[u8]) -> u64
    ensures { result ≡ word_hash kind text.now }
{
    match kind {
        WordKind::Stem => stem_hash(text),
        WordKind::Name => name_hash(text),
        WordKind::Weak => weak_hash(text),
    }
}

impl<'a> Word<'a> {
    pub fn of(kind: WordKind, text: &'a [u8]) -> Word<'a>
        ensures kind { result.kind ≡ kind }
        ensures text { result.text.now ≡ text.now }
    {
        let hash = word_hash(kind, text);
        Word { kind, text, hash }
    }
}

/// Whether the cell has the word.
pub fn has_word(cell: &SpaceCell, kind: WordKind, text: &[u8]) -> bool
    ensures { result ≡ has_word kind text.now cell.now }
{
    match kind {
        WordKind::Stem => cell.has_stem(text),
        WordKind::Name => cell.has_name(text),
        WordKind::Weak => cell.has_weak_name(text),
    }
}

/// Whether the cell is attached in the namespace and has the word.
pub fn is_at(cell: &SpaceCell, ns: u16, word: &Word) -> bool
    ensures { result ≡ is_at ns word.now.kind word.now.text.now cell.now }
{
    cell.is_in(Standing::Attached) && cell.ns == ns && has_word(cell, word.kind, word.text)
}
