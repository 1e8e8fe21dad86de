//! How far an import has come.
ghost use Rattle.std.specs.Prelude.{◌≡◌};

use crate::flight::Flight;
use hid_driver::{DriverFault, Moved};
use usbip::Status;

/// How far an import has come: what the server sends next.
#[derive(Clone, Copy, Debug)]
pub enum Stage {
    /// The device is to be asked for; nothing comes before.
    Start {
        /// Its bus ID: text, then zeros.
        bus_id: [u8; 32],
    },
    /// The head of OP_REP_IMPORT comes: 8 bytes.
    Requested,
    /// The device comes as it is described: 312 bytes.
    Described,
    /// The header of a reply comes: 48 bytes.
    Attached,
    /// The data of a reply come.
    Answering {
        /// The submit that is answered.
        flight: Flight,
        /// How it ended.
        status: Status,
        /// In bytes, the data.
        length: u32,
    },
    /// It is over: nothing is sent, and nothing is taken.
    Over,
}

/// What the bytes that were taken led to.
#[derive(Clone, Copy, Debug, PartialEq, Eq)]
pub enum Told {
    /// Nothing yet: more is to come.
    Onward,
    /// A control transfer was answered.
    Control {
        /// How it ended.
        status: Status,
        /// What the driver made of it.
        result: Result<Moved, DriverFault>,
    },
    /// A transfer for a report was answered.
    Report {
        /// The place of its interface in the list of the driver.
        interface: usize,
        /// How it ended.
        status: Status,
        /// What the driver made of it.
        result: Result<(), DriverFault>,
    },
}
