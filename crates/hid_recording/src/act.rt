//! What a capture says to a player.

use super::fault::Refusal;
use super::line_fields::DeviceNumber;

/// What a frame of a capture says of a device.
#[derive(Clone, Copy)]
pub enum Act<'a> {
    /// The bytes are the report descriptor of a device.
    Descriptor {
        device: DeviceNumber,
        bytes: &'a [u8],
    },
    /// The bytes are a report of a device.
    Report {
        device: DeviceNumber,
        bytes: &'a [u8],
    },
    /// The frame is refused.
    RefusedFrame(Refusal),
    /// The device is gone, and has no descriptor any more.
    Disconnection {
        device: DeviceNumber,
    },
}
