//! The list of namespaces.

ghost use Rattle.std.specs.Prelude.{◌≡◌, ◌<◌, IfOk, IfSome, length};
ghost use Rattle.cell_num.specs.Lists.{equals};
ghost use Rattle.cell_space.specs.Spaces.{kernel, namespace_named};

use cell_num::Name;
use cell_world::Namespace;
use std::alloc::{AllocError, Global};

/// The namespace `k` alone.
pub fn first_namespace(alloc: Global) -> Result<Vec<Namespace>, AllocError>
    ensures { IfOk result (λ spaces. spaces.items ≡ kernel) }
{
    let name = Name::of(alloc, b"k")?;
    let mut namespaces = Vec::new(alloc);
    namespaces.push(Namespace { name, parent: None })?;
    Ok(namespaces)
}

fn is_named(space: &Namespace, name: &[u8]) -> bool
    ensures { result ≡ equals space.now.name name.now }
{
    space.name.bytes() == name
}

/// Where the namespace of that name stands.
pub fn place_of(namespaces: &[Namespace], name: &[u8]) -> Option<usize>
    ensures place { result ≡ namespace_named namespaces.now name.now }
    ensures inside { IfSome result (λ i. i < length namespaces.now) }
{
    namespaces.iter().position(|space| is_named(space, name))
}

/// Equal namespaces.
pub fn copy_namespaces(
    alloc: Global,
    namespaces: &[Namespace],
) -> Result<Vec<Namespace>, AllocError>
    ensures { IfOk result (λ copies. copies.items ≡ namespaces.now) }
{
    let mut copies = Vec::new(alloc);
    for space in namespaces {
        copies.push(Namespace {
            name: space.name.copy(alloc)?,
            parent: space.parent,
        })?;
    }
    Ok(copies)
}
