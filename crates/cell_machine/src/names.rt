//! Words that name namespaces, there or new, and words that name nothing.

ghost use Rattle.std.specs.Prelude.{◌≡◌, ◌<◌, IfOk, decimal, length};
ghost use Rattle.cell_world.specs.Outcome.{found};
ghost use Rattle.cell_world.specs.declared.refusal.Refusal.TheVariants.{NameTaken, Unknown};
ghost use Rattle.cell_world.specs.Following.{Follows};
ghost use Rattle.cell_space.specs.Spaces.{namespace_named};
ghost use Rattle.cell_machine.specs.Namespaces.{may_add};
ghost use Rattle.cell_machine.specs.Unknown.{IsUnknown};

use cell_num::{MAX_NAMESPACES, Name};
use cell_space::Spaces;
use cell_text::put_dec;
use cell_world::{Fail, Many, Refusal};
use std::alloc::{AllocError, Global};

/// E1: the word names nothing.
pub fn unknown(alloc: Global, word: &[u8]) -> Fail
    ensures { IsUnknown word.now result }
{
    match Name::of(alloc, word) {
        Ok(word) => Fail::Refused(Refusal::Unknown { word }),
        Err(_) => Fail::OutOfMemory,
    }
}

/// E1: the number names nothing.
pub fn unknown_number(alloc: Global, number: u32) -> Fail
    ensures { IsUnknown (decimal number) result }
{
    let mut text = Vec::new(alloc);
    match put_dec(u64::from(number), &mut text) {
        Ok(()) => unknown(alloc, &text),
        Err(_) => Fail::OutOfMemory,
    }
}

/// The number of a namespace.
pub fn namespace(alloc: Global, spaces: &Spaces, name: &[u8]) -> Result<u16, Fail>
    ensures number { Follows (λ ns. ns) result (found (namespace_named spaces.now.namespaces name.now) (Unknown name.now)) }
    ensures there { IfOk result (λ ns. ns < length spaces.now.namespaces) }
{
    match spaces.find_ns(name) {
        Some(ns) => Ok(ns),
        None => Err(unknown(alloc, name)),
    }
}

/// E2: the name is taken.
fn taken(alloc: Global, name: &[u8]) -> Result<Refusal, AllocError>
    ensures { IfOk result (λ refusal. refusal ≡ NameTaken name.now) }
{
    Ok(Refusal::NameTaken {
        word: Name::of(alloc, name)?,
    })
}

/// Sees that the name is free and that one more namespace may come.
pub fn check_new_namespace(alloc: Global, spaces: &Spaces, name: &[u8]) -> Result<(), Fail>
    ensures { Follows (λ _. tt) result (may_add spaces.now.namespaces name.now) }
{
    if spaces.find_ns(name).is_some() {
        return Err(Fail::Refused(taken(alloc, name)?));
    }
    // E4
    if spaces.namespace_count() >= MAX_NAMESPACES as usize {
        return Err(Fail::Refused(Refusal::TooMany {
            kind: Many::Namespaces,
            limit: MAX_NAMESPACES,
        }));
    }
    Ok(())
}
