//! A session by its address, as C keeps it.

ghost use Rattle.std.specs.Prelude.{◌≡◌, Option, None, Some, MatchOption};
ghost use Rattle.hidstack_session.specs.States.{SessionState};
ghost use Rattle.hidstack_session.specs.contracts.session.Session.{the_row};
ghost use Rattle.hidstack.specs.Held.{owned_box};

use crate::owner::Owner;
use hidstack_session::Session;
use std::alloc::Global;
use std::marker::Model;
use std::mem;

/// A session, or none: null. It may go to another thread.
#[repr(C)]
#[derive(Drop)]
pub struct Handle {
    at: *mut u8,
    pub ghost kept: { Option SessionState },
}

impl Model for Handle {
    ghost also_owns = { λ h. owned_box the_row h.at h.kept };
}

impl Handle {
    /// The handle of an owner.
    fn of_owner(owner: Owner<Session>) -> Handle
        ensures { result.kept ≡ owner.kept }
    {
        let Owner { at } = owner;
        Handle { at: at as *mut u8 }
    }

    /// The owner of what a handle keeps.
    fn into_owner(self) -> Owner<Session>
        ensures { result.kept ≡ self.kept }
    {
        let Handle { at } = self;
        Owner {
            at: at as *mut Session,
        }
    }

    /// Keeps a session.
    pub fn of(session: Box<Session>) -> Handle
        ensures { result.kept ≡ Some session.value }
    {
        Handle::of_owner(Owner::of(session))
    }

    /// Takes the session out, which leaves the handle closed.
    pub fn take(&mut self, alloc: Global) -> Option<Box<Session>>
        ensures taken { MatchOption result (self.old.kept ≡ None)
            (λ session. self.old.kept ≡ Some session.value) }
        ensures closed { self.new.kept ≡ None }
    {
        let handle = mem::replace(self, Handle::of_owner(Owner::empty()));
        handle.into_owner().into_box(alloc)
    }
}

unsafe impl Send for Handle {}
