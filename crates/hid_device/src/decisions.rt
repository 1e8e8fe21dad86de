//! What a device keeps of what it decided on a request, until the request is over.
use hid_requests::Protocol;

/// The answer to a read, fixed when it was decided on.
#[derive(Clone, Copy)]
pub enum Answer {
    /// The bytes that were written down then.
    Bytes,
    /// The report descriptor.
    Descriptor,
}

/// What is carried out when the status of a write is asked for.
#[derive(Clone, Copy)]
pub enum PendingWrite {
    /// Nothing: the last request was a read, or was refused.
    Nothing,
    /// SET_CONFIGURATION takes effect.
    Configure,
    /// The report at this place among the Output and Feature reports is set.
    Keep { place: usize },
    /// An idle time is set, in units of four frames: that of an Input report, by its number, or of all.
    Idle { report: Option<usize>, time: u8 },
    /// Reports are sent in this form.
    Protocol(Protocol),
    /// The endpoint of its Input reports is halted.
    Halt,
    /// The halt of that endpoint ends.
    Clear,
}
