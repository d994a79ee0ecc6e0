//! Names and registers.

ghost use Rattle.std.specs.Prelude.{◌≡◌, ◌<◌, IfSome, option_map, position, bytes_eq};
ghost use Rattle.std.specs.List.{list_all};
ghost use Rattle.cell_asm.specs.Names.{register_names, register as register_of, numbered_register as numbered_register_of, is_name as name, is_name_byte as name_byte, begins_with_digit as digit_first};

use cell_text::read_dec;

/// The most bytes that a name has.
const LONGEST: usize = 1024;

/// The registers from 0 on. RISC-V psABI, "Integer Register Convention"
static REGISTERS: [&[u8]; 32] = [
    b"zero", b"ra", b"sp", b"gp", b"tp", b"t0", b"t1", b"t2", b"s0", b"s1", b"a0", b"a1", b"a2",
    b"a3", b"a4", b"a5", b"a6", b"a7", b"s2", b"s3", b"s4", b"s5", b"s6", b"s7", b"s8", b"s9",
    b"s10", b"s11", b"t3", b"t4", b"t5", b"t6",
];

/// Whether the text is a name: letters, digits, `_`, `.`, `$` and `:`.
pub fn is_name(text: &[u8]) -> bool
    ensures { result ≡ name text.now }
{
    !text.is_empty()
        && text.len() <= LONGEST
        && has_name_bytes(text)
        && !begins_with_digit(text)
        && !text.starts_with(b".La")
        && !text.ends_with(b":")
}

fn has_name_bytes(text: &[u8]) -> bool
    ensures { result ≡ list_all name_byte text.now }
{
    text.iter().all(|b| is_name_byte(*b))
}

fn is_name_byte(b: u8) -> bool
    ensures { result ≡ name_byte b }
{
    (b >= b'A' && b <= b'Z')
        || (b >= b'a' && b <= b'z')
        || b.is_ascii_digit()
        || b == b'_'
        || b == b'.'
        || b == b'$'
        || b == b':'
}

fn begins_with_digit(text: &[u8]) -> bool
    ensures { result ≡ digit_first text.now }
{
    match text {
        [] => false,
        [first, ..] => first.is_ascii_digit(),
    }
}

/// The number of the register that the text names, below 32.
pub fn register(text: &[u8]) -> Option<u8>
    ensures number { result ≡ register_of text.now }
    ensures small { IfSome result (λ r. r < 32) }
{
    match named_register(text) {
        Some(place) => Some(place as u8),
        None => numbered_register(text),
    }
}

fn named_register(text: &[u8]) -> Option<usize>
    ensures place { result ≡ position (λ name. bytes_eq text.now name) register_names }
    ensures small { IfSome result (λ r. r < 32) }
{
    place_in(&REGISTERS, text)
}

fn place_in(names: &[&[u8]], text: &[u8]) -> Option<usize>
    ensures { result ≡ position (λ name. bytes_eq text.now name.now) names.now }
{
    names.iter().position(|name| text == *name)
}

/// x0 to x31
fn numbered_register(text: &[u8]) -> Option<u8>
    ensures number { result ≡ numbered_register_of text.now }
    ensures small { IfSome result (λ r. r < 32) }
{
    let [b'x', digits @ ..] = text else {
        return None;
    };
    match read_dec(digits, 31) {
        Some(number) => Some(number as u8),
        None => None,
    }
}
