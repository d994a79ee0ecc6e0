//! A number for a stem or a name, by which it is looked up. Two may have the same number.

ghost use Rattle.std.specs.Prelude.{◌≡◌};
ghost use Rattle.cell_space.specs.Hash.{mixed, hash_from, stem_hash, name_hash, weak_hash};

/// One more byte. FNV-1a
#[tactic(auto, unfolding(crate::specs::Hash::mixed))]
fn mixed(hash: u64, byte: u8) -> u64
    ensures { result ≡ mixed hash byte }
{
    (hash ^ u64::from(byte)).wrapping_mul(0x100_0000_01b3)
}

/// The bytes in turn.
#[tactic(auto, unfolding(crate::specs::Hash::hash_from))]
fn hash_from(start: u64, bytes: &[u8]) -> u64
    ensures { result ≡ hash_from start bytes.now }
{
    bytes.iter().fold(start, |hash, byte| mixed(hash, *byte))
}

#[tactic(auto, unfolding(crate::specs::Hash::stem_hash))]
pub fn stem_hash(stem: &[u8]) -> u64
    ensures { result ≡ stem_hash stem.now }
{
    hash_from(1, stem)
}

#[tactic(auto, unfolding(crate::specs::Hash::name_hash))]
pub fn name_hash(name: &[u8]) -> u64
    ensures { result ≡ name_hash name.now }
{
    hash_from(0xcbf2_9ce4_8422_2325, name)
}

#[tactic(auto, unfolding(crate::specs::Hash::weak_hash))]
pub fn weak_hash(name: &[u8]) -> u64
    ensures { result ≡ weak_hash name.now }
{
    hash_from(2, name)
}
