//! What ends a session.
ghost use Rattle.std.specs.Prelude.{Some};
ghost use Rattle.usbip_session.specs.Ends.{end_text};

use crate::words::{driver_words, import_words};
use hid_driver::DriverFault;
use std::fmt;
use usbip_import::ImportFault;

/// What ends a session. It is printed as its code and words.
#[derive(Clone, Copy, Debug, PartialEq, Eq)]
pub enum End {
    /// The server closed the connection between two messages, and nothing was asked.
    Closed,
    /// A1 to A7, and N1 to N3: the server, its device or its answer is refused, or memory ran out.
    Import(ImportFault),
    /// H8 to H11: the device can't be read.
    Device(DriverFault),
    /// A8: the connection ended before the device was read, in a message, or with a request unanswered.
    Early,
    /// A9: an answer, or the rest of a message, took too long, or transfers failed without an end.
    Late,
    /// A10: no interface of the device can be read.
    Unread,
    /// A11: the connection can't be read or written.
    Connection,
    /// A12: the events can't be written.
    Output,
    /// A13: the file of Output reports can't be read.
    Requests,
    /// A14: an interface's endpoint stays halted, and others are read, or may be.
    Stopped,
}

impl fmt::Display for End {
    ghost output = { λ end. Some (end_text end) };

    fn fmt<W: fmt::Write>(&self, f: &mut fmt::Formatter<W>) -> fmt::Result {
        match self {
            End::Closed => f.write_str("the server closed the connection"),
            End::Import(fault) => {
                let words = import_words(*fault);
                write!(f, "{fault}: {words}")
            }
            End::Device(fault) => {
                let words = driver_words(*fault);
                write!(f, "{fault}: {words}")
            }
            End::Early => f.write_str("A8: the connection ended too early"),
            End::Late => f.write_str("A9: an answer took too long"),
            End::Unread => f.write_str("A10: no interface of the device can be read"),
            End::Connection => f.write_str("A11: the connection can't be read or written"),
            End::Output => f.write_str("A12: the events can't be written"),
            End::Requests => f.write_str("A13: the file of Output reports can't be read"),
            End::Stopped => f.write_str("A14: an interface's endpoint stays halted"),
        }
    }
}
