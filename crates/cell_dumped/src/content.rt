//! Bytes in hex, two digits a byte.

ghost use Rattle.std.specs.Prelude.{◌≡◌, ◌&&◌, [], ◌∷◌, Some, None, IfOk, option_map, if◌then◌else◌};
ghost use Rattle.std.specs.Char.{digit_value};
ghost use Rattle.std.specs.Str.Parse.{digits_value};
ghost use Rattle.cell_num.specs.Lists.{where_true};
ghost use Rattle.cell_text.specs.Number.{is_hex_digit};
ghost use Rattle.cell_dumped.specs.Readings.{byte_values, content};

use cell_num::Bytes;
use std::alloc::{AllocError, Global};

/// The most bytes of one line.
const MOST: usize = 64;

/// The value of a lower-case hex digit.
fn digit_of(b: u8) -> Option<u8>
    ensures { result ≡ where_true (is_hex_digit b) (digit_value b) }
{
    if b.is_ascii_digit() {
        Some(b - b'0')
    } else if b >= b'a' && b <= b'f' {
        Some(b - b'a' + 10)
    } else {
        None
    }
}

fn byte_of(high: u8, low: u8) -> Option<u8>
    ensures { result ≡ (if is_hex_digit high && is_hex_digit low then Some (digits_value 16 (high ∷ low ∷ [])) else None) }
{
    let high = digit_of(high)?;
    let low = digit_of(low)?;
    Some(high * 16 + low)
}

/// The bytes that the digits spell, however many.
fn read_bytes(alloc: Global, word: &[u8]) -> Result<Option<Vec<u8>>, AllocError>
    ensures { IfOk result (λ read. option_map (λ bytes. bytes.items) read ≡ byte_values word.now) }
{
    let mut bytes = Vec::new(alloc);
    let mut rest = word;
    while let [high, low, behind @ ..] = rest {
        let Some(byte) = byte_of(*high, *low) else {
            return Ok(None);
        };
        bytes.push(byte)?;
        rest = behind;
    }
    if rest.is_empty() {
        Ok(Some(bytes))
    } else {
        Ok(None)
    }
}

/// The 1 to 64 bytes that the word spells.
pub fn read_content(alloc: Global, word: &[u8]) -> Result<Option<Bytes>, AllocError>
    ensures { IfOk result (λ bytes. bytes ≡ content word.now) }
{
    let Some(bytes) = read_bytes(alloc, word)? else {
        return Ok(None);
    };
    if bytes.is_empty() || bytes.len() > MOST {
        return Ok(None);
    }
    Ok(Some(Bytes::from_vec(bytes)))
}
