//! Why an import ends.
ghost use Rattle.std.specs.Prelude.{Some};
ghost use Rattle.usbip_import.specs.Faults.{import_fault_text};

use std::fmt;
use usbip::UsbipFault;

/// Why an import ends. It is printed as its code.
#[derive(Clone, Copy, Debug, PartialEq, Eq)]
pub enum ImportFault {
    /// N1, N2 or N3: what came is no message of USB/IP that may stand there.
    Message(UsbipFault),
    /// A1: the server refused the device; usbip-host of Linux does so where it has none of this bus ID.
    Refused,
    /// A2: somebody else has the device.
    Busy,
    /// A3: the server has no such device.
    NoDevice,
    /// A4: an answer to no submit that is in flight.
    UnknownNumber,
    /// A5: an answer with more bytes than were asked for.
    TooLong,
    /// A6: the device is gone (ESHUTDOWN).
    Gone,
    /// A7: memory ran out. Nothing was sent, and the call may be made again.
    Memory,
}

impl fmt::Display for ImportFault {
    ghost output = { λ fault. Some (import_fault_text fault) };

    fn fmt<W: fmt::Write>(&self, f: &mut fmt::Formatter<W>) -> fmt::Result {
        match self {
            ImportFault::Message(fault) => write!(f, "{fault}"),
            ImportFault::Refused => f.write_str("A1"),
            ImportFault::Busy => f.write_str("A2"),
            ImportFault::NoDevice => f.write_str("A3"),
            ImportFault::UnknownNumber => f.write_str("A4"),
            ImportFault::TooLong => f.write_str("A5"),
            ImportFault::Gone => f.write_str("A6"),
            ImportFault::Memory => f.write_str("A7"),
        }
    }
}
