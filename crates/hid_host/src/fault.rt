//! Why a call on a host, or on a rig of hosts and devices, is refused.
ghost use Rattle.std.specs.Prelude.{◌≡◌, Some};
ghost use Rattle.hid_host.specs.Faults.{descriptor_text, stack_text};
ghost use Rattle.hid_host.specs.declared.fault.DescriptorFault.TheVariants.{Info};
ghost use Rattle.hid_host.specs.declared.fault.StackFault.TheVariants.{BadDescriptor, Memory as NoMemory};

use hid_layout::LayoutFault;
use hid_requests::DeviceFault;
use hid_snapshots::{ChangeFault, MemoryFault, ReportFault};
use std::fmt;
use usb_control::{ControlFault, InfoFault};

/// Why a descriptor is refused. It is printed as the code of its cause, with the place where there is one.
#[derive(Clone, Copy, Debug, PartialEq, Eq)]
pub enum DescriptorFault {
    /// B1 to B5: a device descriptor or a configuration can't be read (USB 2.0, 9.5 and 9.6; HID 1.11, 6.2.1).
    Info(InfoFault),
    /// B6: a report descriptor has another length than the configuration says (HID 1.11, 6.2.1).
    ReportLength,
    /// L1 to L16: the host can't lay the reports out (HID 1.11, 6.2.2).
    Layout(LayoutFault),
    /// V1 to V20: no virtual device has this descriptor.
    Device(DeviceFault),
}

impl fmt::Display for DescriptorFault {
    ghost output = { λ fault. Some (descriptor_text fault) };

    fn fmt<W: fmt::Write>(&self, f: &mut fmt::Formatter<W>) -> fmt::Result {
        match self {
            DescriptorFault::Info(fault) => write!(f, "{fault}"),
            DescriptorFault::ReportLength => f.write_str("B6"),
            DescriptorFault::Layout(fault) => write!(f, "{fault}"),
            DescriptorFault::Device(fault) => write!(f, "{fault}"),
        }
    }
}

/// Why a call is refused. It is printed as its codes, from the outermost to the innermost, as in `S3 U5`.
///
/// A host answers S2, S4, S5, S6 and S8. S1, S3, S7 and a device's causes of S5 come from a rig of `hid_stack` alone, which
/// returns what its hosts return: so it is one type, and stands here.
#[derive(Clone, Copy, Debug, PartialEq, Eq)]
pub enum StackFault {
    /// S1: no device of this number is attached.
    NoDevice,
    /// S2: the host isn't in the state for this: a poll needs a ready host without a pending clear, a request the state of
    /// its row (USB 2.0, 9.1.1.5).
    NotReady,
    /// S3: the device has no such control, or it can't change so.
    Refused(ChangeFault),
    /// S4: C4, no transfer runs; or C5, one does.
    Control(ControlFault),
    /// S5: the descriptor is refused.
    BadDescriptor(DescriptorFault),
    /// S6: fresh data are no Input report of the layout (HID 1.11, 5.6).
    Report(ReportFault),
    /// S7: there are as many devices as the bus has room for.
    TooManyDevices,
    /// S8: memory ran out.
    Memory,
}

impl fmt::Display for StackFault {
    ghost output = { λ fault. Some (stack_text fault) };

    fn fmt<W: fmt::Write>(&self, f: &mut fmt::Formatter<W>) -> fmt::Result {
        match self {
            StackFault::NoDevice => f.write_str("S1"),
            StackFault::NotReady => f.write_str("S2"),
            StackFault::Refused(fault) => write!(f, "S3 {fault}"),
            StackFault::Control(fault) => write!(f, "S4 {fault}"),
            StackFault::BadDescriptor(fault) => write!(f, "S5 {fault}"),
            StackFault::Report(fault) => write!(f, "S6 {fault}"),
            StackFault::TooManyDevices => f.write_str("S7"),
            StackFault::Memory => f.write_str("S8"),
        }
    }
}

impl From<InfoFault> for StackFault {
    ghost from_gives = { λ found fault. fault ≡ BadDescriptor (Info found) };

    fn from(found: InfoFault) -> StackFault {
        StackFault::BadDescriptor(DescriptorFault::Info(found))
    }
}

impl From<MemoryFault> for StackFault {
    ghost from_gives = { λ _ fault. fault ≡ NoMemory };

    fn from(_: MemoryFault) -> StackFault {
        StackFault::Memory
    }
}
