//! The way from a namespace up to `k`.

ghost use Rattle.std.specs.Prelude.{◌≡◌, IfOk};
ghost use Rattle.cell_world.specs.Names.{chain};

use cell_world::Namespace;
use std::alloc::{AllocError, Global};

/// The namespace, its parent, and so on.
pub fn chain_of(alloc: Global, namespaces: &[Namespace], ns: u16) -> Result<Vec<u16>, AllocError>
    ensures { IfOk result (λ spaces. spaces.items ≡ chain namespaces.now ns) }
{
    let mut spaces = Vec::new(alloc);
    let mut next = Some(ns);
    for _ in 0..namespaces.len() {
        let Some(here) = next else {
            break;
        };
        let Some(space) = namespaces.get(here as usize) else {
            break;
        };
        spaces.push(here)?;
        next = space.parent;
    }
    Ok(spaces)
}
