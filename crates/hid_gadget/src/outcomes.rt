//! How transfers end.

/// How a control transfer ends (USB 2.0, 8.5.3).
#[derive(Clone, Copy, Debug, PartialEq, Eq)]
pub enum Control {
    /// It is done. Of a read, how many bytes were answered, at most wLength; of a write 0.
    Done(usize),
    /// The device refuses the request: STALL (8.5.3.4).
    Stalled,
}

/// How an interrupt transfer from the device ends (USB 2.0, 8.5.4).
#[derive(Clone, Copy, Debug, PartialEq, Eq)]
pub enum Poll {
    /// How many bytes of a report came.
    Done(usize),
    /// The device has nothing to send: NAK. Or it isn't configured, and so doesn't answer.
    Nothing,
    /// The endpoint is halted: STALL (9.4.5).
    Stalled,
    /// The next piece has more bytes than there is room for. Nothing of it is taken.
    TooSmall,
}
