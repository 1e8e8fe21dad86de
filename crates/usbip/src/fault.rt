//! Why bytes are no message of USB/IP.
use std::fmt;

/// Why bytes are no message of USB/IP: the first of these that stands. It is printed as its code.
#[derive(Clone, Copy, Debug, PartialEq, Eq)]
pub enum UsbipFault {
    /// N1: an operation of another version than 1.1.1.
    BadVersion,
    /// N2: an operation that is neither a list of devices nor an import; of replies, another than was asked for.
    UnknownOperation,
    /// N3: neither CMD_SUBMIT nor CMD_UNLINK; of replies, neither RET_SUBMIT nor RET_UNLINK.
    UnknownCommand,
    /// N4: the direction of a submit is neither 0 nor 1, so it is unknown whether data follow.
    BadDirection,
    /// N5: a submit sends more than [`MAX_DATA`](crate::MAX_DATA) bytes.
    TooLong,
}

impl fmt::Display for UsbipFault {
    ghost use Rattle.std.specs.Prelude.{Some};
    ghost use Rattle.usbip.specs.Faults.{usbip_fault_code};

    ghost output = { λ fault. Some (usbip_fault_code fault) };

    fn fmt<W: fmt::Write>(&self, f: &mut fmt::Formatter<W>) -> fmt::Result {
        f.write_str(match self {
            UsbipFault::BadVersion => "N1",
            UsbipFault::UnknownOperation => "N2",
            UsbipFault::UnknownCommand => "N3",
            UsbipFault::BadDirection => "N4",
            UsbipFault::TooLong => "N5",
        })
    }
}
