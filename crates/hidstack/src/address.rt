//! A boxed value by the address of its block alone.

ghost use Rattle.std.specs.Prelude.{◌≡◌};
ghost use Rattle.std.specs.Box.Ownership.{box_owns};
ghost use Rattle.hidstack.specs.Held.{block_right};

use std::alloc::Global;
use std::marker::Model;

/// Owns the block of a box. An address says nothing of the allocator, so it is always the C library's.
pub(crate) struct Address<T> {
    pub(crate) at: *mut T,
    pub(crate) ghost value: { T },
}

impl<T> Model for Address<T> {
    ghost also_owns = { λ a. box_owns block_right T.row a.at a.value };
}

/// Takes a box to its address.
pub(crate) fn lower<T: Drop>(value: Box<T>) -> Address<T>
    ensures { result.value ≡ value.value }
{
    Address {
        at: Box::into_raw(value),
    }
}

/// Makes the box again.
pub(crate) fn raise<T>(alloc: Global, address: Address<T>) -> Box<T>
    ensures { result.value ≡ address.value }
{
    let Address { at } = address;
    unsafe { Box::from_raw(alloc, at) }
}
