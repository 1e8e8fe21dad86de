//! What is done at devices while they are served, and what a turn did.
use usbip_export::Change;

/// What is done at a device, or the time that passes before what comes next.
#[derive(Clone, Copy)]
pub enum Action {
    /// A control of the device at this place changes.
    Change(usize, Change),
    /// The device at this place halts the endpoint of its reports.
    Halt(usize),
    /// The device at this place is reset.
    Reset(usize),
    /// So many frames of 1 ms pass before the next action.
    Frames(u16),
}

/// What a turn did.
#[derive(Clone, Copy, Debug, PartialEq, Eq)]
pub enum Turn {
    /// A report was asked for and is due, or its endpoint is halted: so many bytes of the answer stand at the front of the room.
    Sends(usize),
    /// An action was done, or passed over. There may be more to do.
    Acted,
    /// There is nothing to do until bytes come or time passes.
    Waits,
}
