//! String tables. gABI, "String Table"

ghost use Rattle.std.specs.Prelude.{◌≡◌, ◌++◌, length, IfOk, OnOk};
ghost use Rattle.cell_object.specs.Strings.{string, place_in};

use std::alloc::AllocError;

/// Appends a name to a string table, and says where it stands there.
pub fn put_string(name: &[u8], table: &mut Vec<u8>) -> Result<u64, AllocError>
    ensures place { IfOk result (λ place. place ≡ place_in (length table.old.items) name.now) }
    ensures table { OnOk result (table.new.items ≡ table.old.items ++ string name.now) }
{
    if name.is_empty() {
        return Ok(0);
    }
    let place = table.len() as u64;
    table.extend_from_slice(name)?;
    table.push(0)?;
    Ok(place)
}
