//! Lines and words.

ghost use Rattle.std.specs.Prelude.{◌≡◌, ◌≤◌, ◌<◌, ◌+◌, ◌^◌, [], ◌∷◌, ◌++◌, map, filter, length, All, IfOk, OnOk, OnErr};
ghost use Rattle.cell_text.specs.Text.{pieces, separates, lines_in, words_of, is_filled_span, spans_of, text_at, IsInside, Behind};

use std::alloc::{AllocError, Global};

/// What stands between the pieces of a text.
#[derive(Clone, Copy, Debug, PartialEq, Eq)]
enum Separator {
    Blank,
    LineFeed,
}

fn is_separator(separator: Separator, byte: u8) -> bool
    ensures { result ≡ separates separator byte }
{
    match separator {
        Separator::Blank => byte == b' ' || byte == b'\t',
        Separator::LineFeed => byte == b'\n',
    }
}

/// The pieces between the separators.
fn split<'a>(
    alloc: Global,
    text: &'a [u8],
    separator: Separator,
) -> Result<Vec<&'a [u8]>, AllocError>
    ensures { IfOk result (λ parts. map (λ part. part.now) parts.items ≡ pieces (separates separator) text.now) }
{
    let mut parts = Vec::new(alloc);
    let mut start = 0;
    for (i, byte) in text.iter().enumerate() {
        if is_separator(separator, *byte) {
            parts.push(&text[start..i])?;
            start = i + 1;
        }
    }
    parts.push(&text[start..])?;
    Ok(parts)
}

/// The lines of a text, without their line feeds. What follows the last line feed is a line too.
pub fn lines<'a>(alloc: Global, text: &'a [u8]) -> Result<Vec<&'a [u8]>, AllocError>
    ensures lines { IfOk result (λ lines. map (λ line. line.now) lines.items ≡ lines_in text.now) }
    ensures behind { IfOk result (λ lines. Behind (length text.now) (map (λ line. line.now) lines.items)) }
{
    split(alloc, text, Separator::LineFeed)
}

/// The place of a word in its line: its first byte, and the one behind its last.
#[derive(Clone, Copy, Debug, PartialEq, Eq)]
pub struct Span {
    pub start: u32,
    pub end: u32,
}

/// Replaces `into` by the places of the words of a line, which spaces and tabs separate. Any other
/// byte is part of a word.
pub fn words(line: &[u8], into: &mut Vec<Span>) -> Result<(), AllocError>
    requires { length line.now < 2 ^ 32 }
    ensures spans { OnOk result (into.new.items ≡ spans_of line.now) }
    ensures texts { OnOk result (map (text_at line.now) into.new.items ≡ words_of line.now) }
    ensures inside { All (IsInside line.now) into.new.items }
    ensures emptied { OnErr result (into.new.items ≡ []) }
{
    into.clear();
    let added = add_words(line, into);
    if added.is_err() {
        into.clear();
    }
    added
}

fn add_words(line: &[u8], into: &mut Vec<Span>) -> Result<(), AllocError>
    requires small { length line.now < 2 ^ 32 }
    requires empty { into.old.items ≡ [] }
    ensures spans { OnOk result (into.new.items ≡ spans_of line.now) }
    ensures texts { OnOk result (map (text_at line.now) into.new.items ≡ words_of line.now) }
    ensures inside { OnOk result (All (IsInside line.now) into.new.items) }
{
    let mut start: u32 = 0;
    let mut end: u32 = 0;
    for byte in line {
        if is_separator(Separator::Blank, *byte) {
            add_filled(Span { start, end }, into)?;
            start = end + 1;
        }
        end += 1;
    }
    add_filled(Span { start, end }, into)
}

/// Adds the place where something stands.
fn add_filled(span: Span, into: &mut Vec<Span>) -> Result<(), AllocError>
    ensures { OnOk result (into.new.items ≡ into.old.items ++ filter is_filled_span (span ∷ [])) }
{
    if span.start < span.end {
        into.push(span)?;
    }
    Ok(())
}
