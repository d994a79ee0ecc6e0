//! The namespaces that are on one path with one of them.

ghost use Rattle.std.specs.Prelude.{◌≡◌, ◌<◌, ◌≤◌, IfOk, length};
ghost use Rattle.cell_world.specs.Names.{are_on_one_path as on_one_path};
ghost use Rattle.cell_space.specs.Path.{IsPath};
ghost use Rattle.cell_space.specs.Rooted.{AreRooted};

use crate::chain::are_on_one_path;
use cell_world::Namespace;
use std::alloc::{AllocError, Global};
use std::marker::Model;

/// A namespace, with a mark for each namespace that is in its chain or has it in its own.
#[derive(Drop)]
pub struct Path {
    ns: u16,
    marks: Vec<bool>,
}

impl Model for Path {
    ghost use Rattle.cell_space.specs.Path.{PathState};

    ghost Value = { PathState };

    ghost view = { λ p. record { ns = p.ns; marks = p.marks.items } };
}

/// The path of a namespace that is there.
pub fn path_of(alloc: Global, namespaces: &[Namespace], ns: u16) -> Result<Path, AllocError>
    requires rooted { AreRooted namespaces.now }
    requires there { ns < length namespaces.now }
    requires few { length namespaces.now ≤ 256 }
    ensures is { IfOk result (λ path. IsPath namespaces.now path) }
    ensures ns { IfOk result (λ path. path.ns ≡ ns) }
{
    let mut marks = Vec::new(alloc);
    for other in 0..namespaces.len() {
        marks.push(are_on_one_path(namespaces, ns, other as u16))?;
    }
    Ok(Path { ns, marks })
}

impl Path {
    /// Whether the other namespace is on the path.
    pub fn has(&self, namespaces: &[Namespace], other: u16) -> bool
        requires is { IsPath namespaces.now self.now }
        requires there { other < length namespaces.now }
        ensures { result ≡ on_one_path namespaces.now self.now.ns other }
    {
        self.marks[other as usize]
    }
}
