//! Exit statuses.

ghost use Rattle.std.specs.Prelude.{◌≡◌};
ghost use Rattle.usbip_script.specs.Status.{status_of};

use super::fault::{LineCause, ServeFault};

/// The connection ended as connections do.
pub const FINE: u8 = 0;

/// The script or a message of the host is refused.
pub const REFUSED: u8 = 1;

/// The command line is wrong.
pub const WRONG_USAGE: u8 = 2;

/// A file, a stream, the clock or memory failed.
pub const OUTSIDE: u8 = 3;

/// What is expected of the host wasn't set, or no host came.
pub const UNMET: u8 = 4;

/// The exit status of what ended serving early: 1 where the script or what the host sent is refused, 3 where the cause lies outside
/// of both, and 4 where what is expected wasn't set, or no host came.
pub fn exit_of(fault: &ServeFault) -> u8
    ensures { result ≡ status_of fault.now }
{
    match fault {
        ServeFault::Line(_, LineCause::Unmet) | ServeFault::NoHost => UNMET,
        ServeFault::Line(..)
        | ServeFault::Message(_)
        | ServeFault::NoDevices
        | ServeFault::TooLong
        | ServeFault::HalfMessage => REFUSED,
        ServeFault::Script
        | ServeFault::Memory
        | ServeFault::Input
        | ServeFault::Output
        | ServeFault::Full
        | ServeFault::Told
        | ServeFault::Clock => OUTSIDE,
    }
}
