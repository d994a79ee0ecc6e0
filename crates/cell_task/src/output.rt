//! What a task puts out.

ghost use Rattle.std.specs.Prelude.{◌≡◌, ◌+◌, ◌≤◌, ◌++◌, decimal, length, vec_capacity, vec_len};

use itoa::Buffer;

/// Appends bytes for which there is room.
fn put_bytes(bytes: &[u8], out: &mut Vec<u8>)
    requires { vec_len out.old + length bytes.now ≤ vec_capacity out.old }
    ensures items { out.new.items ≡ out.old.items ++ bytes.now }
    ensures room { vec_capacity out.new ≡ vec_capacity out.old }
    ensures count { vec_len out.new ≡ vec_len out.old + length bytes.now }
{
    for byte in bytes {
        out.push_reserved(*byte);
    }
}

/// Appends a number in decimal, for which there is room.
pub fn put_decimal(value: u64, out: &mut Vec<u8>)
    requires { vec_len out.old + 20 ≤ vec_capacity out.old }
    ensures items { out.new.items ≡ out.old.items ++ decimal value }
    ensures room { vec_capacity out.new ≡ vec_capacity out.old }
    ensures short { vec_len out.new ≤ vec_len out.old + 20 }
{
    let mut buffer = Buffer::new();
    put_bytes(buffer.format(value).as_bytes(), out);
}
