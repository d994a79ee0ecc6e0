//! Single words of commands.

ghost use Rattle.std.specs.Prelude.{◌≡◌};
ghost use Rattle.std.specs.List.{list_all};
ghost use Rattle.cell_object.specs.Symbols.{is_global_name, is_name_byte as is_visible_byte};
ghost use Rattle.cell_script.specs.Grammar.{is_name, is_name_byte, is_file, number, turns_of_one, turns_of_run, argument};

use cell_text::{read_dec, read_hex};

/// A decimal number of at most 4294967295, without leading zeros.
pub fn read_number(word: &[u8]) -> Option<u32>
    ensures { result ≡ number word.now }
{
    match read_dec(word, 4294967295) {
        Some(value) => Some(value as u32),
        None => None,
    }
}

/// How many turns `step` may give a task, and a swap all its routines together: at most 100000.
pub fn read_turns_of_one(word: &[u8]) -> Option<u32>
    ensures { result ≡ turns_of_one word.now }
{
    match read_dec(word, 100000) {
        Some(turns) => Some(turns as u32),
        None => None,
    }
}

/// How many turns `run` may give each task: at most 10000.
pub fn read_turns_of_run(word: &[u8]) -> Option<u32>
    ensures { result ≡ turns_of_run word.now }
{
    match read_dec(word, 10000) {
        Some(turns) => Some(turns as u32),
        None => None,
    }
}

/// The argument of a task: decimal, or `0x` and lower-case hex, below 2^64 and without leading zeros.
pub fn read_argument(word: &[u8]) -> Option<u64>
    ensures { result ≡ argument word.now }
{
    match word {
        [b'0', b'x', digits @ ..] => read_hex(digits),
        _ => read_dec(word, 18446744073709551615),
    }
}

/// Whether the word is the name of a namespace or a stem: 1 to 64 bytes of a-z, 0-9 and _.
pub fn is_name(word: &[u8]) -> bool
    ensures { result ≡ is_name word.now }
{
    !word.is_empty() && word.len() <= 64 && has_name_bytes(word)
}

fn has_name_bytes(word: &[u8]) -> bool
    ensures { result ≡ list_all is_name_byte word.now }
{
    word.iter().all(|b| is_name_byte(*b))
}

fn is_name_byte(b: u8) -> bool
    ensures { result ≡ is_name_byte b }
{
    (b >= b'a' && b <= b'z') || (b >= b'0' && b <= b'9') || b == b'_'
}

/// Whether the word may be the name of a GLOBAL symbol: 1 to 1024 bytes of 0x21 to 0x7e.
pub fn is_symbol(word: &[u8]) -> bool
    ensures { result ≡ is_global_name word.now }
{
    !word.is_empty() && word.len() <= 1024 && has_visible_bytes(word)
}

fn has_visible_bytes(word: &[u8]) -> bool
    ensures { result ≡ list_all is_visible_byte word.now }
{
    word.iter().all(|b| is_visible_byte(*b))
}

/// Whether the word may be the name of a file: 1 to 255 bytes of 0x21 to 0x7e.
pub fn is_file(word: &[u8]) -> bool
    ensures { result ≡ is_file word.now }
{
    !word.is_empty() && word.len() <= 255 && has_visible_bytes(word)
}

fn is_visible_byte(b: u8) -> bool
    ensures { result ≡ is_visible_byte b }
{
    b >= 0x21 && b <= 0x7e
}
