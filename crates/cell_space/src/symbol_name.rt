//! The parts of a symbol's name.

ghost use Rattle.std.specs.Prelude.{◌≡◌, ◌==◌, ◌&&◌, ◌+◌, ◌≤◌, ◌<◌, IfSome, length, option_map, slice_index, take};
ghost use Rattle.std.specs.List.{list_all};
ghost use Rattle.cell_world.specs.Names.{crate_of, base_name, is_hash, is_lower_hex};

/// Whether there is a `::` at a place.
fn is_path_at(name: &[u8], place: usize) -> bool
    requires { place + 1 < length name.now }
    ensures { result ≡ (slice_index name.now place == 58 && slice_index name.now (place + 1) == 58) }
{
    name[place] == b':' && name[place + 1] == b':'
}

/// How long the crate is that stands before the first `::` of a symbol's name.
pub fn crate_of(name: &[u8]) -> Option<usize>
    ensures front { option_map (λ n. take n name.now) result ≡ crate_of name.now }
    ensures inside { IfSome result (λ n. n ≤ length name.now) }
{
    let mut place = 0;
    while place + 1 < name.len() {
        if is_path_at(name, place) {
            return Some(place);
        }
        place += 1;
    }
    None
}

fn is_lower_hex(b: u8) -> bool
    ensures { result ≡ is_lower_hex b }
{
    (b >= b'0' && b <= b'9') || (b >= b'a' && b <= b'f')
}

fn are_lower_hex(text: &[u8]) -> bool
    ensures { result ≡ list_all is_lower_hex text.now }
{
    text.iter().all(|b| is_lower_hex(*b))
}

/// Whether the text is `::h` and then one or more digits.
fn is_hash(text: &[u8]) -> bool
    ensures { result ≡ is_hash text.now }
{
    text.len() > 3 && &text[..3] == b"::h".as_slice() && are_lower_hex(&text[3..])
}

/// How long a symbol's name is before its last `::h`, where only hexadecimal digits follow that,
/// one at least; else how long it is.
pub fn base_name(name: &[u8]) -> usize
    ensures front { take result name.now ≡ base_name name.now }
    ensures inside { result ≤ length name.now }
{
    let mut place = 0;
    while place < name.len() {
        if is_hash(&name[place..]) {
            return place;
        }
        place += 1;
    }
    name.len()
}
