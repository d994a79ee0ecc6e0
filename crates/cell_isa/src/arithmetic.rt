//! Sums, shifts, products and quotients on 64 bits, and on the low 32 bits.
//! RISC-V unprivileged manual, "Integer Computational Instructions" and "M Extension for Integer Multiplication and
//! Division"

ghost use Rattle.std.specs.Prelude.{◌≡◌, ◌<◌, ◌*◌, ◌/◌, ◌%◌, ◌^◌, pos, ◌*ℤ◌, int_lt};
ghost use Rattle.cell_num.specs.Bits.{signed};
ghost use Rattle.cell_isa.specs.Meaning.{flag as flag_of, word as word_of, shifted, quotient, remainder, high_half as high_half_of};

pub fn flag(test: bool) -> u64
    ensures { result ≡ flag_of test }
{
    u64::from(test)
}

/// The low 32 bits.
pub fn low_word(number: u64) -> u64
    ensures { result ≡ number % 2 ^ 32 }
{
    number % 0x1_0000_0000
}

/// The low 32 bits, sign-extended.
pub fn word(number: u64) -> u64
    ensures { result ≡ word_of number }
{
    let low = low_word(number) as u32;
    i64::from(low.cast_signed()).cast_unsigned()
}

/// Whether one number is below another, both signed.
pub fn is_less(a: u64, b: u64) -> bool
    ensures { result ≡ int_lt (signed a) (signed b) }
{
    a.cast_signed() < b.cast_signed()
}

/// A shift to the right that repeats the sign.
pub fn shift_signed(a: u64, by: u64) -> u64
    requires { by < 64 }
    ensures { result ≡ shifted (signed a) by }
{
    (a.cast_signed() >> by).cast_unsigned()
}

/// The quotient of signed numbers, and all ones by zero. The least number by -1 gives itself.
pub fn divide(a: u64, b: u64) -> u64
    ensures { result ≡ quotient (signed a) (signed b) }
{
    if b == 0 {
        u64::MAX
    } else {
        a.cast_signed()
            .wrapping_div(b.cast_signed())
            .cast_unsigned()
    }
}

/// The same of unsigned numbers.
pub fn divide_unsigned(a: u64, b: u64) -> u64
    ensures { result ≡ quotient (pos a) (pos b) }
{
    if b == 0 { u64::MAX } else { a / b }
}

/// The remainder of signed numbers, with the sign of the dividend, and the dividend by zero.
pub fn remain(a: u64, b: u64) -> u64
    ensures { result ≡ remainder (signed a) (signed b) }
{
    if b == 0 {
        a
    } else {
        a.cast_signed()
            .wrapping_rem(b.cast_signed())
            .cast_unsigned()
    }
}

/// The same of unsigned numbers.
pub fn remain_unsigned(a: u64, b: u64) -> u64
    ensures { result ≡ remainder (pos a) (pos b) }
{
    if b == 0 { a } else { a % b }
}

fn high_half(product: i128) -> u64
    ensures { result ≡ high_half_of product }
{
    ((product >> 64) as i64).cast_unsigned()
}

/// The high 64 bits of the product of signed numbers.
pub fn multiply_high(a: u64, b: u64) -> u64
    ensures { result ≡ high_half_of (signed a *ℤ signed b) }
{
    high_half(i128::from(a.cast_signed()) * i128::from(b.cast_signed()))
}

/// The same of a signed number and an unsigned one.
pub fn multiply_high_mixed(a: u64, b: u64) -> u64
    ensures { result ≡ high_half_of (signed a *ℤ pos b) }
{
    high_half(i128::from(a.cast_signed()) * i128::from(b))
}

/// The same of unsigned numbers.
pub fn multiply_high_unsigned(a: u64, b: u64) -> u64
    ensures { result ≡ a * b / 2 ^ 64 }
{
    ((u128::from(a) * u128::from(b)) >> 64) as u64
}
