//! A number for a name, by which names are sorted. Two names may have the same number.

ghost use Rattle.std.specs.Prelude.{◌≡◌};
ghost use Rattle.cell_bearers.specs.Key.{key_of, mixed};

/// One more byte, as FNV-1a of 32 bits takes it.
#[tactic(auto, unfolding(crate::specs::Key::mixed))]
fn mixed(key: u32, byte: u8) -> u32
    ensures { result ≡ mixed key byte }
{
    (key ^ u32::from(byte)).wrapping_mul(0x100_0193)
}

/// The bytes in turn.
#[tactic(auto, unfolding(crate::specs::Key::key_of))]
pub fn key_of(name: &[u8]) -> u32
    ensures { result ≡ key_of name.now }
{
    name.iter().fold(0x811c_9dc5, |key, byte| mixed(key, *byte))
}
