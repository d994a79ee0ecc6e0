//! Names in their order.

ghost use Rattle.std.specs.Prelude.{◌≡◌, ◌<◌, ◌≤◌, List, ℕ, OnOk, filter, length};
ghost use Rattle.std.specs.Cmp.Lexicographic.{slice_cmp};
ghost use Rattle.std.specs.Ordering.{nat_cmp};
ghost use Rattle.cell_bearers.specs.Key.{keyed};
ghost use Rattle.cell_bearers.specs.Namings.{AreInOrder, IsRun, is_called};
ghost use Rattle.cell_num.specs.Lists.{equals};

use crate::named::Naming;
use std::alloc::{AllocError, Global};
use std::cmp::Ordering;

/// How the names of two compare: by their numbers, and byte by byte where these are the same. Names stand all over memory,
/// their numbers beside each other.
#[tactic(auto, using(crate::proofs::Ordered::compared))]
fn by_name(a: &Naming, b: &Naming) -> Ordering
    ensures { result ≡ slice_cmp nat_cmp (keyed a.now.name) (keyed b.now.name) }
{
    match a.key().cmp(&b.key()) {
        Ordering::Less => Ordering::Less,
        Ordering::Equal => a.name().cmp(b.name()),
        Ordering::Greater => Ordering::Greater,
    }
}

#[tactic(auto, using(crate::proofs::Ordered::told_apart))]
fn have_same_name(a: &Naming, b: &Naming) -> bool
    ensures { result ≡ equals a.now.name b.now.name }
{
    a.key() == b.key() && a.name() == b.name()
}

/// Puts those from that place on in the order of their names.
fn sort_from(alloc: Global, namings: &mut [Naming], start: usize) -> Result<(), AllocError>
    requires { start ≤ length namings.old }
    ensures len { length namings.new ≡ length namings.old }
    ensures stable { (name : List ℕ) → filter (is_called name) namings.new ≡ filter (is_called name) namings.old }
{
    namings[start..].sort_by(alloc, |a, b| by_name(a, b))
}

/// Puts the last quarter in order, then the last two, and then three. A sort fills as much of its buffer as isn't in order
/// yet, and joins this to the rest, which isn't shorter, by the same places of the buffer: a quarter each time.
fn sort_most(alloc: Global, namings: &mut [Naming]) -> Result<(), AllocError>
    ensures len { length namings.new ≡ length namings.old }
    ensures stable { (name : List ℕ) → filter (is_called name) namings.new ≡ filter (is_called name) namings.old }
{
    let quarter = namings.len() / 4;
    sort_from(alloc, namings, 3 * quarter)?;
    sort_from(alloc, namings, 2 * quarter)?;
    sort_from(alloc, namings, quarter)
}

/// Puts them in the order of their names' numbers, and of their names. Those of one name stay in their order. It is
/// done in parts, so that there is need of memory for a quarter of them, and not for all twice.
pub fn sort_by_name(alloc: Global, namings: &mut Vec<Naming>) -> Result<(), AllocError>
    ensures sorted { OnOk result (AreInOrder namings.new.items) }
    ensures stable { (name : List ℕ) → filter (is_called name) namings.new.items ≡ filter (is_called name) namings.old.items }
{
    sort_most(alloc, namings)?;
    namings.sort_by(|a, b| by_name(a, b))
}

/// How many from the first on have its name.
pub fn run_len(namings: &[Naming]) -> usize
    requires { 0 < length namings.now }
    ensures { IsRun namings.now result }
{
    let mut len = 1;
    while len < namings.len() && have_same_name(&namings[len], &namings[0]) {
        len += 1;
    }
    len
}
