//! Numbers in text.

ghost use Rattle.std.specs.Prelude.{◌≡◌, ◌≢◌, ◌≤◌, ◌<◌, ◌++◌, ◌^◌, ℕ, true, false, None, IfSome, SomeIff, is_ok, decimal, if◌then◌else◌};
ghost use Rattle.std.specs.Fmt.{digit_glyph};
ghost use Rattle.std.specs.Str.Parse.{digits_value, IsNumeral};
ghost use Rattle.cell_text.specs.Number.{hex, hex_byte, has_leading_zero, are_digits, is_hex_digit, are_hex_digits, is_canonical, is_canonical_hex, number_in, hex_number_in};

use itoa::Buffer;
use std::alloc::AllocError;
use std::str;

/// The number that the text spells in decimal, without leading zeros, where it is at most `most`.
pub fn read_dec(text: &[u8], most: u64) -> Option<u64>
    ensures reading { result ≡ number_in most text.now }
    ensures value { IfSome result (λ n. (text.now ≡ decimal n) × (n ≤ most)) }
    ensures none { result ≡ None → (n : ℕ) → n ≤ most → text.now ≢ decimal n }
{
    if !is_canonical(text) {
        return None;
    }
    match value_of(text, 10) {
        Some(value) if value <= most => Some(value),
        _ => None,
    }
}

/// The number that the text spells in lower-case hex, without leading zeros, where it is below 2^64.
/// Nothing stands before the digits, as `0x` might.
pub fn read_hex(text: &[u8]) -> Option<u64>
    ensures reading { result ≡ hex_number_in text.now }
    ensures value { IfSome result (λ n. text.now ≡ hex n) }
    ensures none { result ≡ None → (n : ℕ) → n < 2 ^ 64 → text.now ≢ hex n }
{
    if !is_canonical_hex(text) {
        return None;
    }
    value_of(text, 16)
}

/// The number that the digits spell, where it is below 2^64.
fn value_of(digits: &[u8], radix: u32) -> Option<u64>
    requires low { 2 ≤ radix }
    requires high { radix ≤ 16 }
    requires digits { IsNumeral radix digits.now }
    ensures { SomeIff result (digits_value radix digits.now < 2 ^ 64) (digits_value radix digits.now) }
{
    match str::from_utf8(digits) {
        Ok(text) => u64::from_str_radix(text, radix).ok(),
        Err(_) => None,
    }
}

fn is_canonical(text: &[u8]) -> bool
    ensures { result ≡ is_canonical text.now }
{
    !text.is_empty() && !has_leading_zero(text) && are_digits(text)
}

fn is_canonical_hex(text: &[u8]) -> bool
    ensures { result ≡ is_canonical_hex text.now }
{
    !text.is_empty() && !has_leading_zero(text) && are_hex_digits(text)
}

fn has_leading_zero(text: &[u8]) -> bool
    ensures { result ≡ has_leading_zero text.now }
{
    match text {
        [first, _, ..] => *first == b'0',
        _ => false,
    }
}

fn are_digits(text: &[u8]) -> bool
    ensures { result ≡ are_digits text.now }
{
    text.iter().all(|b| b.is_ascii_digit())
}

fn are_hex_digits(text: &[u8]) -> bool
    ensures { result ≡ are_hex_digits text.now }
{
    text.iter().all(|b| is_hex_digit(*b))
}

fn is_hex_digit(b: u8) -> bool
    ensures { result ≡ is_hex_digit b }
{
    b.is_ascii_digit() || (b >= b'a' && b <= b'f')
}

/// Appends the number in decimal.
pub fn put_dec(value: u64, into: &mut Vec<u8>) -> Result<(), AllocError>
    ensures { into.new.items ≡ (if is_ok result then into.old.items ++ decimal value else into.old.items) }
{
    let mut buffer = Buffer::new();
    into.extend_from_slice(buffer.format(value).as_bytes())
}

/// Appends the number in lower-case hex, without leading zeros.
pub fn put_hex(value: u64, into: &mut Vec<u8>) -> Result<(), AllocError>
    ensures { into.new.items ≡ (if is_ok result then into.old.items ++ hex value else into.old.items) }
{
    let text = format!(in *into.allocator(); "{value:x}")?;
    into.extend_from_slice(text.as_bytes())
}

/// Appends the two hex digits of a byte.
pub fn put_hex_byte(byte: u8, into: &mut Vec<u8>) -> Result<(), AllocError>
    ensures { into.new.items ≡ (if is_ok result then into.old.items ++ hex_byte byte else into.old.items) }
{
    into.extend_from_slice(&[hex_digit(byte / 16), hex_digit(byte % 16)])
}

fn hex_digit(value: u8) -> u8
    requires { value < 16 }
    ensures { result ≡ digit_glyph false value }
{
    if value < 10 {
        b'0' + value
    } else {
        b'a' + (value - 10)
    }
}
