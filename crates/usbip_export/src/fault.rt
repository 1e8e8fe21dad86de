//! Why a connection to exported devices ends.
use std::fmt;
use usbip::UsbipFault;

/// Why a connection to exported devices ends. It is printed as its code.
#[derive(Clone, Copy, Debug, PartialEq, Eq)]
pub enum ExportFault {
    /// N1 to N5: the bytes are no message.
    Message(UsbipFault),
    /// N6: a command for another device than the one that was imported.
    OtherDevice,
}

impl fmt::Display for ExportFault {
    ghost use Rattle.std.specs.Prelude.{Some};
    ghost use Rattle.usbip_export.specs.Faults.{export_fault_code};

    ghost output = { λ fault. Some (export_fault_code fault) };

    fn fmt<W: fmt::Write>(&self, f: &mut fmt::Formatter<W>) -> fmt::Result {
        match self {
            ExportFault::Message(fault) => fmt::Display::fmt(fault, f),
            ExportFault::OtherDevice => f.write_str("N6"),
        }
    }
}
