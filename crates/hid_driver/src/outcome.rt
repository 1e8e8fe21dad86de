//! The outcomes of transfers, and the events of a driver.
use hid_snapshots::Event;

/// What came of a transfer.
#[derive(Clone, Copy, Debug)]
pub enum Outcome<'a> {
    /// It is done, with these bytes to the host; none where it has no data to the host.
    Done(&'a [u8]),
    /// The device answered STALL (USB 2.0, 8.4.5).
    Stalled,
    /// It failed: no answer, or one that the controller can't use.
    Failed,
}

/// An event of an interface.
#[derive(Clone, Copy, Debug, PartialEq, Eq)]
pub struct DriverEvent {
    /// The place of the interface in the list of the driver.
    pub interface: usize,
    /// What became of one of its controls.
    pub event: Event,
}
