//! The name that a call asks for.

ghost use Rattle.std.specs.Prelude.{◌≡◌, ◌+◌, length, option_map};
ghost use Rattle.cell_hart.specs.Step.{seen_of};
ghost use Rattle.cell_num.specs.Lists.{where_true};
ghost use Rattle.cell_world.specs.Running.Execute.{allows, number_read};
ghost use Rattle.cell_world.specs.Running.Transfer.{asked_name as name_asked, bytes_loaded};

use cell_mem::Memory;

/// How long a name may be.
pub const MOST_BYTES: usize = 1024;

/// Whether the byte at an address can be loaded.
fn is_readable(memory: &Memory, addr: u64) -> bool
    ensures { result ≡ allows memory.now.regions (λ p. p.read) addr 1 }
{
    memory.load(addr, 1).is_ok()
}

/// The byte at an address, where it can be loaded.
fn byte_at(memory: &Memory, addr: u64) -> Option<u8>
    ensures { result ≡ where_true (allows memory.now.regions (λ p. p.read) addr 1) (number_read memory.now.regions addr 1) }
{
    if !is_readable(memory, addr) {
        return None;
    }
    memory.bytes(addr, 1)?.first().copied()
}

/// The byte so many places after an address, where it can be loaded. No address has more than 64 bits.
fn byte_past(memory: &Memory, addr: u64, place: u64) -> Option<u8>
    ensures { result ≡ where_true (allows memory.now.regions (λ p. p.read) (addr + place) 1) (number_read memory.now.regions (addr + place) 1) }
{
    memory.space();
    memory.laid_out();
    byte_at(memory, addr.checked_add(place)?)
}

/// Fills a list with the bytes from an address on, where all of them can be loaded.
fn read(memory: &Memory, addr: u64, into: &mut [u8]) -> bool
    ensures read { where_true result into.new ≡ bytes_loaded memory.now.regions addr (length into.old) }
{
    for (place, byte) in into.iter_mut().enumerate() {
        match byte_past(memory, addr, place as u64) {
            Some(there) => *byte = there,
            None => return false,
        }
    }
    true
}

/// The name of so many bytes from an address on, where they aren't too many and all can be loaded.
pub fn asked_name<'a>(
    memory: &Memory,
    addr: u64,
    len: u64,
    room: &'a mut [u8; MOST_BYTES],
) -> Option<&'a [u8]>
    ensures { option_map (λ name. name.now) result ≡ name_asked (seen_of memory.now) addr len }
{
    if len > room.len() as u64 {
        return None;
    }
    let name = &mut room[..len as usize];
    if !read(memory, addr, name) {
        return None;
    }
    Some(name)
}
