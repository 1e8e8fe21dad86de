//! A virtual device by its address, as C keeps it.

ghost use Rattle.std.specs.Prelude.{◌≡◌, Option, None, Some, MatchOption};
ghost use Rattle.hid_device.specs.Core.{CoreState};
ghost use Rattle.hid_gadget.specs.contracts.gadget.Gadget.{the_row};
ghost use Rattle.hidstack.specs.Held.{owned_box};

use crate::owner::Owner;
use hid_gadget::Gadget;
use std::alloc::Global;
use std::marker::Model;
use std::mem;

/// A virtual device, or none: null. It may go to another thread.
#[repr(C)]
#[derive(Drop)]
pub struct DeviceHandle {
    at: *mut u8,
    pub ghost kept: { Option CoreState },
}

impl Model for DeviceHandle {
    ghost also_owns = { λ h. owned_box the_row h.at h.kept };
}

impl DeviceHandle {
    /// The handle of an owner.
    fn of_owner(owner: Owner<Gadget>) -> DeviceHandle
        ensures { result.kept ≡ owner.kept }
    {
        let Owner { at } = owner;
        DeviceHandle { at: at as *mut u8 }
    }

    /// The owner of what a handle keeps.
    fn into_owner(self) -> Owner<Gadget>
        ensures { result.kept ≡ self.kept }
    {
        let DeviceHandle { at } = self;
        Owner {
            at: at as *mut Gadget,
        }
    }

    /// Keeps a device.
    pub fn of(gadget: Box<Gadget>) -> DeviceHandle
        ensures { result.kept ≡ Some gadget.value }
    {
        DeviceHandle::of_owner(Owner::of(gadget))
    }

    /// Takes the device out, which leaves the handle closed.
    pub fn take(&mut self, alloc: Global) -> Option<Box<Gadget>>
        ensures taken { MatchOption result (self.old.kept ≡ None)
            (λ gadget. self.old.kept ≡ Some gadget.value) }
        ensures closed { self.new.kept ≡ None }
    {
        let handle = mem::replace(self, DeviceHandle::of_owner(Owner::empty()));
        handle.into_owner().into_box(alloc)
    }
}

unsafe impl Send for DeviceHandle {}
