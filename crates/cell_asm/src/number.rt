//! Numbers, as a source spells them.

ghost use Rattle.std.specs.Prelude.{◌≡◌, ◌+◌, ◌*◌, ◌^◌, ◌<◌, ◌⊎◌, ◌≤ℤ◌, pos, negsuc, IfSome, option_map, IsTrue};
ghost use Rattle.std.specs.List.{list_all};
ghost use Rattle.std.specs.Char.{digit_value, is_ascii_digit};
ghost use Rattle.std.specs.Str.Parse.{digits_value};
ghost use Rattle.cell_text.specs.Number.{has_leading_zero as leading_zero};
ghost use Rattle.cell_asm.specs.Names.{number as number_of, unsigned_number as unsigned_number_of, decimal_number as decimal_number_of, hex_number as hex_number_of, held as held_of, is_hex_digit as hex_digit};

/// The first number that no instruction and no directive can hold.
const TOO_LARGE: u128 = 1 << 64;

/// The number that the text spells. Of one of 2^64 or more only the remainder by 4 is told.
pub fn number(text: &[u8]) -> Option<i128>
    ensures value { result ≡ number_of text.now }
    ensures least { IfSome result (λ n. negsuc 0x10000000000000003 ≤ℤ n) }
    ensures most { IfSome result (λ n. n ≤ℤ pos 0x10000000000000003) }
{
    match text {
        [b'-', digits @ ..] => {
            let value = decimal_number(digits)?;
            Some(-(value as i128))
        }
        _ => {
            let value = unsigned_number(text)?;
            Some(value as i128)
        }
    }
}

fn unsigned_number(text: &[u8]) -> Option<u128>
    ensures value { result ≡ option_map held_of (unsigned_number_of text.now) }
    ensures small { IfSome result (λ n. n < 2 ^ 64 + 4) }
{
    match text {
        [b'0', b'x', digits @ ..] => hex_number(digits),
        _ => decimal_number(text),
    }
}

fn decimal_number(text: &[u8]) -> Option<u128>
    ensures value { result ≡ option_map held_of (decimal_number_of text.now) }
    ensures small { IfSome result (λ n. n < 2 ^ 64 + 4) }
{
    if text.is_empty() || has_leading_zero(text) || !are_digits(text) {
        return None;
    }
    Some(value(10, text))
}

fn hex_number(text: &[u8]) -> Option<u128>
    ensures value { result ≡ option_map held_of (hex_number_of text.now) }
    ensures small { IfSome result (λ n. n < 2 ^ 64 + 4) }
{
    if text.is_empty() || has_leading_zero(text) || !are_hex_digits(text) {
        return None;
    }
    Some(value(16, text))
}

fn has_leading_zero(text: &[u8]) -> bool
    ensures { result ≡ leading_zero text.now }
{
    match text {
        [first, _, ..] => *first == b'0',
        _ => false,
    }
}

fn are_digits(text: &[u8]) -> bool
    ensures { result ≡ list_all is_ascii_digit text.now }
{
    text.iter().all(|b| b.is_ascii_digit())
}

fn are_hex_digits(text: &[u8]) -> bool
    ensures { result ≡ list_all hex_digit text.now }
{
    text.iter().all(|b| is_hex_digit(*b))
}

fn is_hex_digit(b: u8) -> bool
    ensures { result ≡ hex_digit b }
{
    b.is_ascii_digit() || (b >= b'a' && b <= b'f')
}

/// The number of these digits, or, from 2^64 on, one that has its remainder by 4.
fn value(radix: u8, digits: &[u8]) -> u128
    requires radix { (radix ≡ 10) ⊎ (radix ≡ 16) }
    requires digits { IsTrue (list_all hex_digit digits.now) }
    ensures value { result ≡ held_of (digits_value radix digits.now) }
    ensures small { result < 2 ^ 64 + 4 }
{
    let mut value = 0;
    for digit in digits {
        value = held(value * u128::from(radix) + u128::from(digit_of(*digit)));
    }
    value
}

fn digit_of(b: u8) -> u8
    requires { IsTrue (hex_digit b) }
    ensures value { result ≡ digit_value b }
    ensures small { result < 16 }
{
    if b < b'a' { b - b'0' } else { b - b'a' + 10 }
}

fn held(n: u128) -> u128
    ensures value { result ≡ held_of n }
    ensures small { result < 2 ^ 64 + 4 }
{
    if n < TOO_LARGE { n } else { TOO_LARGE + n % 4 }
}
