//! How much a device and its host know of one another at first.

/// How a device and its host begin.
#[derive(Clone, Copy, Debug, PartialEq, Eq)]
pub enum Start {
    /// Both ends are freshly configured, and the host has the layout of the device's reports.
    Ready,
    /// The device isn't configured, and the host knows nothing of it: it is to read and configure it by transfers.
    Cold,
}
