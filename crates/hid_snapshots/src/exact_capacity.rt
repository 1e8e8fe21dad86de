//! Lists that are made without spare room: what they have reserved is what they hold.

ghost use Rattle.std.specs.Prelude.{◌≡◌, replicate, IfOk};
ghost use Rattle.hid_snapshots.specs.ExactCapacity.{IsFull};

use std::alloc::{AllocError, Global};

/// An item n times, without room for more.
///
/// # Errors
/// Out of memory.
pub fn full_of<T: Copy>(alloc: Global, item: T, count: usize) -> Result<Vec<T>, AllocError>
    ensures items { IfOk result (λ items. items.items ≡ replicate count item) }
    ensures full { IfOk result (λ items. IsFull items) }
{
    let mut items = Vec::with_capacity(alloc, count)?;
    for _ in 0..count {
        items.push_reserved(item);
    }
    Ok(items)
}

/// These items, without room for more.
///
/// # Errors
/// Out of memory.
pub fn full_from<T: Copy>(alloc: Global, from: &[T]) -> Result<Vec<T>, AllocError>
    ensures items { IfOk result (λ items. items.items ≡ from.now) }
    ensures full { IfOk result (λ items. IsFull items) }
{
    let mut items = Vec::with_capacity(alloc, from.len())?;
    for item in from {
        items.push_reserved(*item);
    }
    Ok(items)
}
