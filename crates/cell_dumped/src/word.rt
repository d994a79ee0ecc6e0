//! Words of the lines of a dump.

ghost use Rattle.std.specs.Prelude.{◌≡◌, ◌<◌, ◌==◌, map, length, position, option_map, IfSome};
ghost use Rattle.cell_dumped.specs.Readings.{around, group, number, parent, part};

use cell_text::read_dec;
use cell_world::Part;

/// A decimal number below 2^64, without leading zeros.
pub fn read_number(word: &[u8]) -> Option<u64>
    ensures { result ≡ number word.now }
{
    read_dec(word, 18446744073709551615)
}

fn place_of(word: &[u8], byte: u8) -> Option<usize>
    ensures place { result ≡ position (λ b. b == byte) word.now }
    ensures inside { IfSome result (λ place. place < length word.now) }
{
    word.iter().position(|b| *b == byte)
}

/// The two texts around the one such byte.
#[tactic(auto, using(crate::proofs::Around::arounds))]
pub fn around(word: &[u8], byte: u8) -> Option<(&[u8], &[u8])>
    ensures { option_map (λ both. (both.0.now, both.1.now)) result ≡ around byte word.now }
{
    let place = place_of(word, byte)?;
    let before = &word[..place];
    let after = &word[place + 1..];
    match place_of(after, byte) {
        None => Some((before, after)),
        Some(_) => None,
    }
}

/// `CELL.SECTION`
pub fn read_part(word: &[u8]) -> Option<Part>
    ensures { result ≡ part word.now }
{
    let (cell, section) = around(word, b'.')?;
    let cell = read_number(cell)?;
    let section = read_number(section)?;
    Some(Part { cell, section })
}

/// The number of a parent, or `-` where there is none.
pub fn read_parent(word: &[u8]) -> Option<Option<u64>>
    ensures { result ≡ parent word.now }
{
    if word == b"-".as_slice() {
        return Some(None);
    }
    let number = read_number(word)?;
    Some(Some(number))
}

/// `attached`, or `group SWAP`
pub fn read_group(words: &[&[u8]]) -> Option<Option<u64>>
    ensures { result ≡ group (map (λ word. word.now) words.now) }
{
    match words {
        [word] if *word == b"attached".as_slice() => Some(None),
        [word, swap] if *word == b"group".as_slice() => {
            let swap = read_number(swap)?;
            Some(Some(swap))
        }
        _ => None,
    }
}
