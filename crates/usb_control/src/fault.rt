//! Why a control transfer or a descriptor is refused.
use std::fmt;

/// Why there is no transfer, or why it failed. It is printed as its code.
#[derive(Clone, Copy, Debug, PartialEq, Eq)]
pub enum ControlFault {
    /// C1: the device answered STALL, so it refused the request (USB 2.0, 8.5.3.4).
    Stalled,
    /// C2: the third try in a row had no answer (USB 2.0, 8.5.3 and 10.2.6).
    BusFault,
    /// C3: more came than was asked for: more than wLength bytes, more than 8 in a packet, or data in the status stage
    /// (USB 2.0, 8.5.3.1, 8.5.3.2 and 9.3.5).
    Overrun,
    /// C4: there is no transfer that runs.
    NoTransfer,
    /// C5: another transfer runs.
    Busy,
    /// C6: there was no memory for wLength bytes.
    Memory,
}

impl fmt::Display for ControlFault {
    ghost use Rattle.std.specs.Prelude.{Some};
    ghost use Rattle.usb_control.specs.Fault.{control_code_of};

    ghost output = { λ fault. Some (control_code_of fault) };

    fn fmt<W: fmt::Write>(&self, f: &mut fmt::Formatter<W>) -> fmt::Result {
        f.write_str(match self {
            ControlFault::Stalled => "C1",
            ControlFault::BusFault => "C2",
            ControlFault::Overrun => "C3",
            ControlFault::NoTransfer => "C4",
            ControlFault::Busy => "C5",
            ControlFault::Memory => "C6",
        })
    }
}

/// Why descriptors can't be read: the first of these that stands. It is printed as its code.
#[derive(Clone, Copy, Debug, PartialEq, Eq)]
pub enum InfoFault {
    /// B1: a device descriptor has under 18 bytes (USB 2.0, 9.6.1). Or the bytes of a configuration are no descriptors
    /// one after another, each as long as its first byte says, or the first of them has under 9 bytes (9.5, 9.6.3).
    TooShort,
    /// B2: the first descriptor is of another type than the one that is read (USB 2.0, table 9-5).
    WrongType,
    /// B3: no interface descriptor has the class of human interface devices (USB 2.0, 9.6.5; HID 1.11, 4.1).
    NoHidInterface,
    /// B4: the HID descriptor of that interface is missing, or names no report descriptor (HID 1.11, 6.2.1).
    NoReportDescriptor,
    /// B5: that interface has no interrupt-IN endpoint (USB 2.0, 9.6.6).
    NoEndpoint,
}

impl fmt::Display for InfoFault {
    ghost use Rattle.std.specs.Prelude.{Some};
    ghost use Rattle.usb_control.specs.Fault.{info_code_of};

    ghost output = { λ fault. Some (info_code_of fault) };

    fn fmt<W: fmt::Write>(&self, f: &mut fmt::Formatter<W>) -> fmt::Result {
        f.write_str(match self {
            InfoFault::TooShort => "B1",
            InfoFault::WrongType => "B2",
            InfoFault::NoHidInterface => "B3",
            InfoFault::NoReportDescriptor => "B4",
            InfoFault::NoEndpoint => "B5",
        })
    }
}
