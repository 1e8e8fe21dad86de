//! A host by its address, as C keeps it.

ghost use Rattle.std.specs.Prelude.{◌≡◌, Option, None, Some, MatchOption};
ghost use Rattle.hid_driver.specs.Driver.{DriverValue};
ghost use Rattle.hidstack_host.specs.contracts.host.Host.{the_row};
ghost use Rattle.hidstack.specs.Held.{owned_box};

use crate::owner::Owner;
use hidstack_host::Host;
use std::alloc::Global;
use std::marker::Model;
use std::mem;

/// A host, or none: null. It may go to another thread.
#[repr(C)]
#[derive(Drop)]
pub struct HostHandle {
    at: *mut u8,
    pub ghost kept: { Option DriverValue },
}

impl Model for HostHandle {
    ghost also_owns = { λ h. owned_box the_row h.at h.kept };
}

impl HostHandle {
    /// The handle of an owner.
    fn of_owner(owner: Owner<Host>) -> HostHandle
        ensures { result.kept ≡ owner.kept }
    {
        let Owner { at } = owner;
        HostHandle { at: at as *mut u8 }
    }

    /// The owner of what a handle keeps.
    fn into_owner(self) -> Owner<Host>
        ensures { result.kept ≡ self.kept }
    {
        let HostHandle { at } = self;
        Owner {
            at: at as *mut Host,
        }
    }

    /// Keeps a host.
    pub fn of(host: Box<Host>) -> HostHandle
        ensures { result.kept ≡ Some host.value }
    {
        HostHandle::of_owner(Owner::of(host))
    }

    /// Takes the host out, which leaves the handle closed.
    pub fn take(&mut self, alloc: Global) -> Option<Box<Host>>
        ensures taken { MatchOption result (self.old.kept ≡ None)
            (λ host. self.old.kept ≡ Some host.value) }
        ensures closed { self.new.kept ≡ None }
    {
        let handle = mem::replace(self, HostHandle::of_owner(Owner::empty()));
        handle.into_owner().into_box(alloc)
    }
}

unsafe impl Send for HostHandle {}
