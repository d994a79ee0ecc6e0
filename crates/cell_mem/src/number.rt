//! Numbers in bytes, the lowest byte first.

ghost use Rattle.std.specs.Prelude.{◌≡◌, ◌+◌, ◌≤◌, length, slice_range};
ghost use Rattle.cell_num.specs.Bits.{bytes_of, little};
ghost use Rattle.cell_world.specs.Running.Memory.{pasted};

use byteorder::{ByteOrder, LittleEndian};
use cell_num::Listed;

/// The number in so many bytes.
pub fn read_number(bytes: &[u8], at: usize, width: u8) -> u64
    requires low { 1 ≤ width }
    requires high { width ≤ 8 }
    requires inside { at + width ≤ length bytes.now }
    ensures { result ≡ little (slice_range bytes.now at (at + width)) }
{
    LittleEndian::read_uint(&bytes[at..], usize::from(width))
}

/// The number in four bytes.
pub fn read_word(bytes: &[u8], at: usize) -> u32
    requires inside { at + 4 ≤ length bytes.now }
    ensures { result ≡ little (slice_range bytes.now at (at + 4)) }
{
    LittleEndian::read_u32(&bytes[at..])
}

/// Writes so many of the number's low bytes into a slice.
#[inline(always)]
pub fn put_number(bytes: &mut [u8], at: usize, width: u8, value: u64)
    requires { at + width ≤ length bytes.old }
    ensures { bytes.new ≡ pasted bytes.old at (bytes_of width value) }
{
    let mut left = value;
    for k in 0..width {
        bytes[at + usize::from(k)] = (left % 256) as u8;
        left /= 256;
    }
}

/// Writes so many of the number's low bytes.
pub fn write_number(bytes: &mut Listed<u8>, at: usize, width: u8, value: u64)
    requires { at + width ≤ length bytes.old }
    ensures { bytes.new ≡ pasted bytes.old at (bytes_of width value) }
{
    let _len = bytes.as_slice().len();
    let mut left = value;
    for k in 0..width {
        bytes.set(at + usize::from(k), (left % 256) as u8);
        left /= 256;
    }
}
