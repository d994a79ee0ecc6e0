//! The way from a namespace up to `k`.

ghost use Rattle.std.specs.Prelude.{◌≡◌, ◌<◌, length};
ghost use Rattle.std.specs.Iterator.{YieldsFirst, item_count};
ghost use Rattle.cell_num.specs.Lists.{holds};
ghost use Rattle.cell_world.specs.Names.{chain, are_on_one_path};
ghost use Rattle.cell_space.specs.Rooted.{AreRooted};

use cell_world::Namespace;
use std::marker::Model;

/// A namespace, its parent, and so on up to `k`. Contracts see those that are still to come.
#[derive(Drop)]
pub struct Chain<'a> {
    namespaces: &'a [Namespace],
    next: Option<u16>,
}

impl<'a> Model for Chain<'a> {
    ghost use Rattle.std.specs.Prelude.{List, ℕ, length};
    ghost use Rattle.cell_space.specs.Rooted.{chain_from, IsOnTheWay};

    ghost Value = { List ℕ };

    ghost view = { λ c. chain_from c.namespaces.now c.next };

    ghost invariant = { λ c. IsOnTheWay c.namespaces.now c.next };
}

/// The chain of a namespace.
pub fn chain_of(namespaces: &[Namespace], ns: u16) -> Chain<'_>
    requires rooted { AreRooted namespaces.now }
    requires there { ns < length namespaces.now }
    ensures { result ≡ chain namespaces.now ns }
{
    Chain {
        namespaces,
        next: Some(ns),
    }
}

impl<'a> Iterator for Chain<'a> {
    type Item = u16;

    ghost next_gives = { YieldsFirst (λ s. s) };

    ghost remaining = { item_count (λ s. s) };

    fn next(&mut self) -> Option<u16> {
        let ns = self.next?;
        self.next = self.namespaces[ns as usize].parent;
        Some(ns)
    }
}

/// Whether the second namespace is in the chain of the first.
pub fn is_above(namespaces: &[Namespace], ns: u16, other: u16) -> bool
    requires rooted { AreRooted namespaces.now }
    requires there { ns < length namespaces.now }
    ensures { result ≡ holds (chain namespaces.now ns) other }
{
    chain_of(namespaces, ns).any(|n| n == other)
}

/// Whether one of the two namespaces is in the chain of the other.
pub fn are_on_one_path(namespaces: &[Namespace], a: u16, b: u16) -> bool
    requires rooted { AreRooted namespaces.now }
    requires a_there { a < length namespaces.now }
    requires b_there { b < length namespaces.now }
    ensures { result ≡ are_on_one_path namespaces.now a b }
{
    is_above(namespaces, a, b) || is_above(namespaces, b, a)
}
