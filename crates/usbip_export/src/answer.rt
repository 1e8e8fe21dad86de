//! What is known of an answer beside its bytes.
use usbip::Status;

/// An answer whose bytes stand at the front of a room.
#[derive(Clone, Copy, Debug, PartialEq, Eq)]
pub struct Answer {
    /// In bytes, how long it is; 0 where nothing is to be sent yet.
    pub length: usize,
    /// Where it is the reply to a submit whose data came: the reply's status.
    pub status: Option<Status>,
}
