//! The parts of an object file's name.

ghost use Rattle.std.specs.Prelude.{◌≡◌, ◌==◌, ◌||◌, ◌≤◌, drop, length, position};
ghost use Rattle.std.specs.List.{position_or_len};
ghost use Rattle.cell_num.specs.Lists.{is_before};
ghost use Rattle.cell_world.specs.Gather.{ns_of_file, stem_of_file};

fn first_hash(name: &[u8]) -> Option<usize>
    ensures { result ≡ position (λ b. b == 35) name.now }
{
    name.iter().position(|b| *b == b'#')
}

fn first_dash_or_dot(rest: &[u8]) -> Option<usize>
    ensures { result ≡ position (λ b. b == 45 || b == 46) rest.now }
{
    rest.iter().position(|b| *b == b'-' || *b == b'.')
}

/// Where the namespace of a file's name ends.
fn hash_place(name: &[u8]) -> usize
    ensures place { result ≡ position_or_len (λ b. b == 35) name.now }
    ensures inside { result ≤ length name.now }
{
    first_hash(name).unwrap_or(name.len())
}

/// Where the stem of what follows the namespace ends.
fn stem_end(rest: &[u8]) -> usize
    ensures place { result ≡ position_or_len (λ b. b == 45 || b == 46) rest.now }
    ensures inside { result ≤ length rest.now }
{
    first_dash_or_dot(rest).unwrap_or(rest.len())
}

/// What follows the first byte.
fn behind_first(text: &[u8]) -> &[u8]
    ensures { result.now ≡ drop 1 text.now }
{
    match text {
        [] => &[],
        [_, rest @ ..] => rest,
    }
}

/// NS of `NS#STEM.o` and `NS#STEM-HASH.o`.
pub fn namespace_of(name: &[u8]) -> &[u8]
    ensures { result.now ≡ ns_of_file name.now }
{
    &name[..hash_place(name)]
}

/// STEM of `NS#STEM.o` and `NS#STEM-HASH.o`.
pub fn stem_of(name: &[u8]) -> &[u8]
    ensures { result.now ≡ stem_of_file name.now }
{
    let rest = behind_first(&name[hash_place(name)..]);
    &rest[..stem_end(rest)]
}

/// Whether the one name comes before the other in byte order.
pub fn is_before(one: &[u8], other: &[u8]) -> bool
    ensures { result ≡ is_before one.now other.now }
{
    one.cmp(other).is_lt()
}
