//! The submits that wait for a report.
ghost use Rattle.std.specs.Prelude.{◌≡◌, ◌<◌, [], length, true, false, MatchOption, slice_get, drop};
ghost use Rattle.std.specs.List.{remove};
ghost use Rattle.usbip.specs.Pending.{is_pending, pending_after_submit, pending_after_unlink, reply_to_oldest, reply_to_submit, reply_to_unlink, without};

use crate::message::{Status, Submit, SubmitReply, Unlink, UnlinkReply};
use arrayvec::ArrayVec;
use std::marker::Model;

/// The most submits of one device that wait (our choice; Linux has one at a time).
pub const MAX_PENDING: usize = 16;

/// A submit that waits for a report.
#[derive(Clone, Copy, Debug, Default, PartialEq, Eq)]
pub struct PendingSubmit {
    /// Its number.
    pub seqnum: u32,
    /// In bytes, its room.
    pub length: u32,
}

/// The submits of one device that wait for a report. A contract sees them as their list, oldest first.
#[derive(Drop)]
pub struct PendingSubmits {
    submits: ArrayVec<PendingSubmit, 16>,
}

impl Model for PendingSubmits {
    ghost use Rattle.std.specs.Prelude.{List};
    ghost use Rattle.usbip.specs.declared.pending.PendingSubmit.{PendingSubmit};

    ghost Value = { List PendingSubmit };

    ghost view = { λ p. p.submits.items };
}

/// The place of the oldest submit of a number.
fn place_of(submits: &[PendingSubmit], seqnum: u32) -> Option<usize>
    ensures { MatchOption result
        ((is_pending seqnum submits.now ≡ false) × (without seqnum submits.now ≡ submits.now))
        (λ i. (i < length submits.now) × (is_pending seqnum submits.now ≡ true)
        × (without seqnum submits.now ≡ remove submits.now i)) }
{
    for (place, submit) in submits.iter().enumerate() {
        if submit.seqnum == seqnum {
            return Some(place);
        }
    }
    None
}

impl PendingSubmits {
    /// None wait.
    pub fn new() -> PendingSubmits
        ensures { result ≡ [] }
    {
        PendingSubmits {
            submits: ArrayVec::new(),
        }
    }

    /// Takes a submit that waits. Where [`MAX_PENDING`] wait already, it is answered at once, with [`Status::NoMemory`].
    pub fn submit(&mut self, submit: &Submit) -> Option<SubmitReply>
        ensures reply { result ≡ reply_to_submit self.old submit.now }
        ensures pending { self.new ≡ pending_after_submit self.old submit.now }
    {
        let Submit { seqnum, length, .. } = *submit;
        if self.submits.is_full() {
            return Some(SubmitReply {
                seqnum,
                status: Status::NoMemory,
                length: 0,
            });
        }
        self.submits.push(PendingSubmit { seqnum, length });
        None
    }

    /// The oldest submit that waits.
    pub fn oldest(&self) -> Option<PendingSubmit>
        ensures { result ≡ slice_get self.now 0 }
    {
        self.submits.first().copied()
    }

    /// Answers the oldest submit, which waits no more. `None` where none waits.
    pub fn answer(&mut self, status: Status, length: u32) -> Option<SubmitReply>
        ensures reply { result ≡ reply_to_oldest self.old status length }
        ensures pending { self.new ≡ drop 1 self.old }
    {
        let oldest = self.oldest()?;
        self.submits.remove(0);
        Some(SubmitReply {
            seqnum: oldest.seqnum,
            status,
            length,
        })
    }

    /// Takes a submit back: one that waits does so no more, and gets no reply of its own.
    pub fn unlink(&mut self, unlink: &Unlink) -> UnlinkReply
        ensures reply { result ≡ reply_to_unlink self.old unlink.now }
        ensures pending { self.new ≡ pending_after_unlink self.old unlink.now }
    {
        let status = match place_of(&self.submits, unlink.submit) {
            Some(place) => {
                self.submits.remove(place);
                Status::Unlinked
            }
            None => Status::Success,
        };
        UnlinkReply {
            seqnum: unlink.seqnum,
            status,
        }
    }

    /// The connection ends: what waits is forgotten.
    pub fn clear(&mut self)
        ensures { self.new ≡ [] }
    {
        self.submits.clear();
    }
}
