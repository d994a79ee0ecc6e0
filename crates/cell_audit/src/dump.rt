//! Where a dump stands in a file.

ghost use Rattle.std.specs.Prelude.{◌≡◌, ◌≤◌, ◌+◌, ◌<◌, ◌==◌, ℕ, length, position, take, option_and_then, option_map, IfSome, bytes_eq, codes, is_some, true};
ghost use Rattle.std.specs.List.{slice_split};
ghost use Rattle.cell_dumped.specs.Readings.{number};
ghost use Rattle.cell_audit.specs.Dumps.{behind_beginning, dump_in, is_answer, texts_from, up_to_end};
ghost use Rattle.cell_audit.specs.Within.{AreWithin, texts_of};

use cell_dumped::read_number;

/// Lines of a file, one after another, by where they stand in it.
#[derive(Clone, Copy, Debug, PartialEq, Eq)]
pub struct Lines {
    /// Where the first begins.
    pub start: usize,
    /// Where the last ends, without its line feed.
    pub end: usize,
    /// The number of the first, from 1.
    pub first: usize,
}

/// A line of a file, by where it stands there.
#[derive(Clone, Copy, Debug, PartialEq, Eq)]
pub struct Line {
    /// From 1.
    pub number: u32,
    pub start: usize,
    /// Without its line feed.
    pub end: usize,
}

/// The first dump of a file: the lines behind the one that begins it, up to the one that ends it.
pub fn dump_in(file: &[u8]) -> Option<Lines>
    ensures lines { option_map (texts_of file.now) result ≡ dump_in file.now }
    ensures within { IfSome result (AreWithin file.now) }
{
    let behind = behind_beginning(file)?;
    let len = end_place(&file[behind.start..])?;
    Some(Lines {
        start: behind.start,
        end: behind.start + len,
        first: behind.first,
    })
}

/// The lines behind the first that begins a dump; there is none where it is the last.
fn behind_beginning(file: &[u8]) -> Option<Lines>
    ensures lines { option_and_then (λ lines. up_to_end (texts_of file.now lines)) result ≡ option_and_then up_to_end (behind_beginning (texts_from 1 file.now)) }
    ensures within { IfSome result (AreWithin file.now) }
    ensures end { IfSome result (λ lines. lines.end ≡ length file.now) }
{
    let mut start = 0;
    let mut number = 1;
    while let Some(len) = line_end(&file[start..]) {
        let line = &file[start..start + len];
        start += len + 1;
        number += 1;
        if is_beginning(line) {
            return Some(Lines {
                start,
                end: file.len(),
                first: number,
            });
        }
    }
    None
}

/// Where the first line feed stands.
pub fn line_end(text: &[u8]) -> Option<usize>
    ensures place { result ≡ position (λ b. b == 10) text.now }
    ensures inside { IfSome result (λ place. place < length text.now) }
{
    text.iter().position(|b| *b == b'\n')
}

/// `N ok dumpall`
fn is_beginning(line: &[u8]) -> bool
    ensures test { result ≡ is_answer (slice_split (λ b. b == 32) line.now) }
    ensures long { result ≡ true → 1 < length line.now }
{
    match first_space(line) {
        Some(place) => is_answer_to_all(&line[place + 1..]) && is_number(&line[..place]),
        None => false,
    }
}

fn first_space(line: &[u8]) -> Option<usize>
    ensures place { result ≡ position (λ b. b == 32) line.now }
    ensures inside { IfSome result (λ place. place < length line.now) }
{
    line.iter().position(|b| *b == b' ')
}

fn is_answer_to_all(words: &[u8]) -> bool
    ensures test { result ≡ bytes_eq words.now (codes "ok dumpall") }
    ensures long { result ≡ true → 1 < length words.now }
{
    words == b"ok dumpall".as_slice()
}

fn is_number(word: &[u8]) -> bool
    ensures { result ≡ is_some (number word.now) }
{
    read_number(word).is_some()
}

/// Where the first line ends that ends a dump.
fn end_place(text: &[u8]) -> Option<usize>
    ensures lines { (first : ℕ) → option_map (λ end. texts_from first (take end text.now)) result ≡ up_to_end (texts_from first text.now) }
    ensures inside { IfSome result (λ end. end ≤ length text.now) }
{
    let mut start = 0;
    while let Some(len) = line_end(&text[start..]) {
        if is_end(&text[start..start + len]) {
            return Some(start + len);
        }
        start += len + 1;
    }
    if is_end(&text[start..]) {
        Some(text.len())
    } else {
        None
    }
}

fn is_end(line: &[u8]) -> bool
    ensures { result ≡ bytes_eq line.now (codes "  end") }
{
    line == b"  end".as_slice()
}
