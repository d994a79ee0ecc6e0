//! The names of object files.

ghost use Rattle.std.specs.Prelude.{◌≡◌, ◌==◌, ◌<◌, length, position, IfSome, option_map};
ghost use Rattle.std.specs.List.{list_all};
ghost use Rattle.cell_depot.specs.ObjectName.{cut, is_hash, is_letter_or_digit, is_stem, is_crate, is_object_name};

use cell_script::is_name;

/// Whether the name is `NS#STEM.o` or `NS#STEM-HASH.o`.
pub fn is_object_name(name: &[u8]) -> bool
    ensures { result ≡ is_object_name name.now }
{
    let end = name.len().saturating_sub(2);
    &name[end..] == b".o".as_slice() && is_crate(&name[..end])
}

fn is_crate(word: &[u8]) -> bool
    ensures { result ≡ is_crate (cut 35 word.now) }
{
    match cut(word, b'#') {
        None => false,
        Some((ns, stem)) => is_name(ns) && is_stem(stem),
    }
}

fn is_stem(word: &[u8]) -> bool
    ensures { result ≡ is_stem word.now (cut 45 word.now) }
{
    match cut(word, b'-') {
        None => is_name(word),
        Some((stem, hash)) => is_name(stem) && is_hash(hash),
    }
}

/// What stands before the first such byte, and after it.
fn cut(text: &[u8], byte: u8) -> Option<(&[u8], &[u8])>
    ensures { option_map (λ parts. (parts.0.now, parts.1.now)) result ≡ cut byte text.now }
{
    match place_of(text, byte) {
        None => None,
        Some(i) => Some((&text[..i], &text[i + 1..])),
    }
}

fn place_of(text: &[u8], byte: u8) -> Option<usize>
    ensures place { result ≡ position (λ b. b == byte) text.now }
    ensures inside { IfSome result (λ i. i < length text.now) }
{
    text.iter().position(|b| *b == byte)
}

fn is_hash(word: &[u8]) -> bool
    ensures { result ≡ is_hash word.now }
{
    !word.is_empty() && word.len() <= 64 && has_hash_bytes(word)
}

fn has_hash_bytes(word: &[u8]) -> bool
    ensures { result ≡ list_all is_letter_or_digit word.now }
{
    word.iter().all(|b| is_hash_byte(*b))
}

fn is_hash_byte(b: u8) -> bool
    ensures { result ≡ is_letter_or_digit b }
{
    (b >= b'a' && b <= b'z') || (b >= b'0' && b <= b'9')
}
