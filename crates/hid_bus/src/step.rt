//! The steps of a bus, their results and the events that they deliver.
use arrayvec::ArrayVec;
use hid_requests::Request;
use hid_snapshots::{Change, Event};
use usb_control::Progress;
use usb_transact::{Fate, Took};

/// A step of the bus: one control change, one frame, a request that begins, one whole transaction with what is lost of
/// it, a halt, or a reset.
#[derive(Debug, Drop, PartialEq, Eq)]
pub enum Step {
    /// A control of a device changes.
    Change {
        /// The device, from 1.
        dev: u8,
        /// What is pressed, let go, set or moved.
        change: Change,
    },
    /// A frame passes, for every device (USB 2.0, 8.4.3).
    Frame,
    /// The host polls a device (USB 2.0, 8.5.4).
    Poll {
        /// The device, from 1.
        dev: u8,
        /// What is lost of the poll.
        fate: Fate,
    },
    /// The host of a device begins a request, and sends nothing yet (USB 2.0, 8.5.3).
    Begin {
        /// The device, from 1.
        dev: u8,
        /// What is asked of the device, with the data that go with it.
        request: Request,
    },
    /// The host of a device makes one try of its transfer (USB 2.0, 8.5.3).
    Control {
        /// The device, from 1.
        dev: u8,
        /// What is lost of the try.
        fate: Fate,
    },
    /// A device halts the endpoint of its Input reports by itself (USB 2.0, 9.4.5): polls get STALL until its host clears the
    /// halt, or configures or resets the device. On a device that isn't configured it changes nothing.
    Halt {
        /// The device, from 1.
        dev: u8,
    },
    /// The bus of a device is reset (USB 2.0, 7.1.7.5): the device isn't configured, and its host knows nothing of it.
    Reset {
        /// The device, from 1.
        dev: u8,
    },
}

/// The result of a step.
#[derive(Debug, Drop, PartialEq, Eq)]
pub enum Told {
    /// Nothing: no packet was sent.
    Quiet,
    /// A poll.
    Polled {
        /// The bytes that the device sent, also where they were lost; none where the token didn't reach it.
        reply: Option<ArrayVec<u8, 65>>,
        /// What the host made of it.
        took: Took,
    },
    /// A try of a transfer: how far the transfer has come.
    Transfer(Progress),
}

/// An event, and the device that it came from.
#[derive(Clone, Copy, Debug, PartialEq, Eq)]
pub struct Delivered {
    /// The device, from 1.
    pub dev: u8,
    /// The event.
    pub event: Event,
}
