//! Exit statuses.

ghost use Rattle.std.specs.Prelude.{◌≡◌};
ghost use Rattle.hidattach.specs.Status.{driver_status, exit_of, import_status};

use hid_driver::DriverFault;
use usbip_session::{End, ImportFault};

/// The server closed the connection, and nothing was refused.
pub const FINE: u8 = 0;

/// The server, its device or its answer is refused.
pub const REFUSED: u8 = 1;

/// The command line is wrong.
pub const WRONG_USAGE: u8 = 2;

/// A file, the connection or memory failed.
pub const OUTSIDE: u8 = 3;

/// The exit status of what ended an import.
fn import_status(fault: ImportFault) -> u8
    ensures { result ≡ import_status fault }
{
    match fault {
        ImportFault::Memory => OUTSIDE,
        ImportFault::Message(_)
        | ImportFault::Refused
        | ImportFault::Busy
        | ImportFault::NoDevice
        | ImportFault::UnknownNumber
        | ImportFault::TooLong
        | ImportFault::Gone => REFUSED,
    }
}

/// The exit status of why a device can't be read.
fn driver_status(fault: DriverFault) -> u8
    ensures { result ≡ driver_status fault }
{
    match fault {
        DriverFault::Memory => OUTSIDE,
        _ => REFUSED,
    }
}

/// The exit status of a session that ended so.
pub fn exit_of(end: End) -> u8
    ensures { result ≡ exit_of end }
{
    match end {
        End::Closed => FINE,
        End::Import(fault) => import_status(fault),
        End::Device(fault) => driver_status(fault),
        End::Early | End::Late | End::Unread | End::Stopped => REFUSED,
        End::Connection | End::Output | End::Requests => OUTSIDE,
    }
}
