//! What is reported while a session goes on.
ghost use Rattle.std.specs.Prelude.{◌≡◌, Some};
ghost use Rattle.usbip_session.specs.Notices.{notice_of, notice_of_move, notice_text, refusal_of};

use crate::words::{cause_words, driver_words};
use hid_driver::{Driver, DriverFault, InterfaceCause, InterfaceState, Moved};
use std::fmt;
use usbip_import::Told;

/// What is reported while a session goes on. Only [`Notice::Stopped`] also ends it. It is printed in words, with the code of a
/// refusal.
#[derive(Clone, Copy, Debug, PartialEq, Eq)]
pub enum Notice {
    /// The reports of an interface are read from now on.
    Live {
        /// Its place in the list of the driver.
        interface: usize,
    },
    /// An interface can't be read.
    Refused {
        /// Its place in the list of the driver.
        interface: usize,
        /// Why.
        cause: InterfaceCause,
    },
    /// The halt of an interface's endpoint couldn't be cleared: its reports aren't read any more.
    Stopped {
        /// Its place in the list of the driver.
        interface: usize,
    },
    /// An Output report wasn't taken.
    Request {
        /// Why.
        fault: DriverFault,
    },
    /// A report of an interface isn't read.
    Report {
        /// Its place in the list of the driver.
        interface: usize,
        /// Why.
        fault: DriverFault,
    },
}

impl fmt::Display for Notice {
    ghost output = { λ notice. Some (notice_text notice) };

    fn fmt<W: fmt::Write>(&self, f: &mut fmt::Formatter<W>) -> fmt::Result {
        match self {
            Notice::Live { interface } => write!(f, "interface {interface}: live"),
            Notice::Refused { interface, cause } => {
                let words = cause_words(*cause);
                write!(f, "interface {interface}: {cause}: {words}")
            }
            Notice::Stopped { interface } => write!(f, "interface {interface}: stopped"),
            Notice::Request { fault } => {
                let words = driver_words(*fault);
                write!(f, "output: {fault}: {words}")
            }
            Notice::Report { interface, fault } => {
                let words = driver_words(*fault);
                write!(f, "interface {interface}: {fault}: {words}")
            }
        }
    }
}

/// What is reported of an interface that can't be read.
fn refusal_of(interface: usize, driver: &Driver) -> Option<Notice>
    ensures { result ≡ refusal_of interface driver.now }
{
    match driver.interfaces().get(interface)?.state() {
        InterfaceState::Refused(cause) => Some(Notice::Refused { interface, cause }),
        InterfaceState::Waiting
        | InterfaceState::Live
        | InterfaceState::Halted
        | InterfaceState::Stopped
        | InterfaceState::Boot => None,
    }
}

/// What is reported of a control transfer that is done.
fn notice_of_move(moved: Moved, driver: &Driver) -> Option<Notice>
    ensures { result ≡ notice_of_move moved driver.now }
{
    match moved {
        Moved::Live { interface } => Some(Notice::Live { interface }),
        Moved::Refused { interface } => refusal_of(interface, driver),
        Moved::Stopped { interface } => Some(Notice::Stopped { interface }),
        Moved::Onward | Moved::Cleared { .. } | Moved::Answered => None,
    }
}

/// What is reported of what a message led to, where the driver is this one, and the message was the data of an answer or not.
pub(crate) fn notice_of(told: Told, has_data: bool, driver: &Driver) -> Option<Notice>
    ensures { result ≡ notice_of told has_data driver.now }
{
    match told {
        Told::Onward => None,
        Told::Control { result, .. } => match result {
            Ok(moved) => notice_of_move(moved, driver),
            Err(fault) => Some(Notice::Request { fault }),
        },
        Told::Report {
            interface,
            result,
            ..
        } => match result {
            Err(fault) if has_data => Some(Notice::Report { interface, fault }),
            _ => None,
        },
    }
}
