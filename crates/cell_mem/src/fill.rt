//! Lists of one value.

ghost use Rattle.std.specs.Prelude.{◌≡◌, ◌+◌, ◌≤◌, length, replicate, IfOk, None};
ghost use Rattle.cell_world.specs.Placed.Pages.{filled};

use std::alloc::{AllocError, Global};

/// Sets so many places.
pub fn fill<T: Copy>(items: &mut [T], from: usize, count: usize, value: T)
    requires { from + count ≤ length items.old }
    ensures { items.new ≡ filled items.old from count value }
{
    for i in 0..count {
        items[from + i] = value;
    }
}

/// So many copies of one value.
pub fn repeated<T: Copy>(alloc: Global, value: T, count: usize) -> Result<Vec<T>, AllocError>
    ensures { IfOk result (λ items. items.items ≡ replicate count value) }
{
    let mut items = Vec::new(alloc);
    items.resize(count, value)?;
    Ok(items)
}

/// So many places with nothing in them.
pub fn nothing<T: Drop>(alloc: Global, count: usize) -> Result<Vec<Option<T>>, AllocError>
    ensures { IfOk result (λ items. items.items ≡ replicate count None) }
{
    let mut items = Vec::new(alloc);
    for _ in 0..count {
        items.push(None)?;
    }
    Ok(items)
}
