//! A boxed value by the address of its block, or none.

ghost use Rattle.std.specs.Prelude.{◌≡◌, Option, None, Some, MatchOption};
ghost use Rattle.hidstack.specs.Held.{owned_box};

use crate::address::{Address, lower, raise};
use std::alloc::Global;
use std::marker::Model;
use std::ptr::null_mut;

/// Owns the block of a box, or nothing: null.
pub(crate) struct Owner<T> {
    pub(crate) at: *mut T,
    pub(crate) ghost kept: { Option T },
}

impl<T> Model for Owner<T> {
    ghost also_owns = { λ o. owned_box T.row o.at o.kept };
}

impl<T> Owner<T> {
    /// Nothing is kept.
    pub(crate) fn empty() -> Owner<T>
        ensures { result.kept ≡ None }
    {
        Owner { at: null_mut() }
    }

    /// Keeps the value at an address.
    fn of_address(address: Address<T>) -> Owner<T>
        ensures { result.kept ≡ Some address.value }
    {
        let Address { at } = address;
        Owner { at }
    }

    /// The address of the value; none where nothing is kept.
    fn into_address(self) -> Option<Address<T>>
        ensures { MatchOption result (self.kept ≡ None) (λ a. self.kept ≡ Some a.value) }
    {
        let Owner { at } = self;
        if at.is_null() {
            None
        } else {
            Some(Address { at })
        }
    }

    /// Makes the box again; none where nothing is kept.
    pub(crate) fn into_box(self, alloc: Global) -> Option<Box<T>>
        ensures { MatchOption result (self.kept ≡ None) (λ value. self.kept ≡ Some value.value) }
    {
        match self.into_address() {
            Some(address) => Some(raise(alloc, address)),
            None => None,
        }
    }
}

impl<T: Drop> Owner<T> {
    /// Keeps a boxed value.
    pub(crate) fn of(value: Box<T>) -> Owner<T>
        ensures { result.kept ≡ Some value.value }
    {
        Owner::of_address(lower(value))
    }
}
