//! Why a device, one of its interfaces, or a call is refused.
ghost use Rattle.std.specs.Prelude.{◌≡◌, Some};
ghost use Rattle.hid_driver.specs.Faults.{cause_text, fault_text};

use hid_interfaces::{ConfigurationFault, InterfaceFault};
use hid_layout::LayoutFault;
use hid_snapshots::ReportFault;
use std::fmt;
use usb_control::InfoFault;

/// Why no reports of an interface are read. It is printed as its code, with the place where there is one.
#[derive(Clone, Copy, Debug, PartialEq, Eq)]
pub enum InterfaceCause {
    /// B13, B4, B5, B8 and B9: what its descriptors say (USB 2.0, 9.6.5 and 9.6.6; HID 1.11, 6.2.1).
    Descriptors(InterfaceFault),
    /// B6: its report descriptor came with another length than its HID descriptor says (HID 1.11, 6.2.1).
    ReportLength,
    /// L1 to L16: its reports can't be laid out (HID 1.11, 6.2.2).
    Layout(LayoutFault),
    /// H8: the device answered STALL when asked for its report descriptor (USB 2.0, 8.5.3.4).
    Stalled,
    /// H9: that transfer failed.
    Failed,
}

impl fmt::Display for InterfaceCause {
    ghost output = { λ cause. Some (cause_text cause) };

    fn fmt<W: fmt::Write>(&self, f: &mut fmt::Formatter<W>) -> fmt::Result {
        match self {
            InterfaceCause::Descriptors(fault) => write!(f, "{fault}"),
            InterfaceCause::ReportLength => f.write_str("B6"),
            InterfaceCause::Layout(fault) => write!(f, "{fault}"),
            InterfaceCause::Stalled => f.write_str("H8"),
            InterfaceCause::Failed => f.write_str("H9"),
        }
    }
}

/// Why a call is refused, or what it came to. It is printed as its codes, from the outermost to the innermost, as in
/// `H10 B2`.
#[derive(Clone, Copy, Debug, PartialEq, Eq)]
pub enum DriverFault {
    /// H1: no request is to be made, so none can be done.
    NoRequest,
    /// H2: memory ran out. Nothing changed, and the call may be made again.
    Memory,
    /// H3: the configuration has no HID interface at this place.
    NoInterface,
    /// H4: the report descriptor of the interface wasn't read yet, or it is refused; or of a transfer, its endpoint is halted; of
    /// what is asked, it may be in the boot protocol; of a protocol, its halt couldn't be cleared.
    NotRead,
    /// H5: another request is to be made first.
    Busy,
    /// H6: the interface has no report of this kind with this ID (HID 1.11, 5.6).
    NoReport,
    /// H7: the data are longer than the report (HID 1.11, 7.2.2).
    TooLong,
    /// H8: the device answered STALL, so it refuses the request (USB 2.0, 8.5.3.4).
    Stalled,
    /// H9: the transfer failed.
    Failed,
    /// H10 with B1 or B2: the device descriptor can't be read (USB 2.0, 9.6.1).
    Device(InfoFault),
    /// H11 with B1, B2, B3, B7, B11 or B12: the configuration can't be read (USB 2.0, 9.5 and 9.6.3).
    Configuration(ConfigurationFault),
    /// H12 with U8 or U9: the bytes are no Input report of the interface (HID 1.11, 5.6).
    Report(ReportFault),
    /// H13: with a transfer, and what came of its report before, a whole packet or more lies past the end of the report.
    LongTransfer,
    /// H14: the interface may send boot reports, which aren't those of its layout (HID 1.11, 7.2.6).
    BootProtocol,
    /// H15: the interface has no boot protocol: its subclass isn't 1 (HID 1.11, 4.2 and 7.2.6).
    NoBootProtocol,
    /// H16: the data of a report with an ID don't begin with it (HID 1.11, 5.6).
    WrongId,
}

impl fmt::Display for DriverFault {
    ghost output = { λ fault. Some (fault_text fault) };

    fn fmt<W: fmt::Write>(&self, f: &mut fmt::Formatter<W>) -> fmt::Result {
        match self {
            DriverFault::NoRequest => f.write_str("H1"),
            DriverFault::Memory => f.write_str("H2"),
            DriverFault::NoInterface => f.write_str("H3"),
            DriverFault::NotRead => f.write_str("H4"),
            DriverFault::Busy => f.write_str("H5"),
            DriverFault::NoReport => f.write_str("H6"),
            DriverFault::TooLong => f.write_str("H7"),
            DriverFault::Stalled => f.write_str("H8"),
            DriverFault::Failed => f.write_str("H9"),
            DriverFault::Device(fault) => write!(f, "H10 {fault}"),
            DriverFault::Configuration(fault) => write!(f, "H11 {fault}"),
            DriverFault::Report(fault) => write!(f, "H12 {fault}"),
            DriverFault::LongTransfer => f.write_str("H13"),
            DriverFault::BootProtocol => f.write_str("H14"),
            DriverFault::NoBootProtocol => f.write_str("H15"),
            DriverFault::WrongId => f.write_str("H16"),
        }
    }
}
