//! A folder, and a file in it, within limits.

ghost use Rattle.std.specs.Prelude.{◌≡◌, ◌≤◌, map, length, IfOk, IsErrOf, Contains, string_bytes, bytes_eq};
ghost use Rattle.std.specs.List.{list_any};
ghost use Rattle.cell_io.specs.Causes.{HasCause};
ghost use Rattle.cell_io.specs.Files.{names_in, bytes_in};
ghost use Rattle.cell_io.specs.Within.{IfTold, Gives, within};

use crate::{Host, Stop};
use std::alloc::Global;

/// The names in a folder, or `many` where there are more than `limit`.
pub fn list_within<H: Host, R: Copy>(
    alloc: Global,
    dir: &str,
    limit: u32,
    many: R,
    host: &mut H,
) -> Result<Vec<String>, Stop<R>>
    ensures names { IfTold (H.files host.old) (λ all.
        Gives (λ names. map string_bytes names.items) result (within limit many (names_in dir.now all))) }
    ensures few { IfOk result (λ names. length names.items ≤ limit) }
    ensures files { H.files host.new ≡ H.files host.old }
    ensures cause { HasCause (H.faults host.old) (H.faults host.new) (IsErrOf result Stop.ReadFault) }
{
    let mut names = Vec::new(alloc);
    host.list(dir, limit, &mut names)?;
    if names.len() > limit as usize {
        return Err(Stop::Refused(many));
    }
    Ok(names)
}

/// The bytes of a file in a folder, or `long` where there are more than `limit`.
pub fn read_within<H: Host, R: Copy>(
    alloc: Global,
    dir: &str,
    name: &str,
    limit: u32,
    long: R,
    host: &mut H,
) -> Result<Vec<u8>, Stop<R>>
    requires { IfTold (H.files host.old) (λ all. Contains (names_in dir.now all) name.now) }
    ensures bytes { IfTold (H.files host.old) (λ all.
        Gives (λ bytes. bytes.items) result (within limit long (bytes_in dir.now name.now all))) }
    ensures short { IfOk result (λ bytes. length bytes.items ≤ limit) }
    ensures files { H.files host.new ≡ H.files host.old }
    ensures cause { HasCause (H.faults host.old) (H.faults host.new) (IsErrOf result Stop.ReadFault) }
{
    let mut bytes = Vec::new(alloc);
    host.read(dir, name, limit, &mut bytes)?;
    if bytes.len() > limit as usize {
        return Err(Stop::Refused(long));
    }
    Ok(bytes)
}

/// Whether the name is among these.
pub fn is_listed(name: &str, names: &[String]) -> bool
    ensures { result ≡ list_any (bytes_eq name.now) (map string_bytes names.now) }
{
    for other in names {
        if name == other.as_str() {
            return true;
        }
    }
    false
}
