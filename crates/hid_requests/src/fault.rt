//! Why there is no device.

ghost use Rattle.std.specs.Prelude.{◌≡◌, Some};
ghost use Rattle.hid_requests.specs.declared.fault.DeviceCause.TheVariants.{Layout, Memory};
ghost use Rattle.hid_requests.specs.Fault.{layout_code, device_cause_code, device_fault_text};

use hid_report_descriptor::{Cause, LayoutFault};
use std::alloc::AllocError;
use std::fmt;

/// Why there is no device: the first of these that stands, in this order. It is printed as its code.
#[derive(Clone, Copy, Debug, PartialEq, Eq)]
pub enum DeviceCause {
    /// V20: the address is 0 or over 127, the interval is 0, or a boot device has another descriptor than that of its
    /// kind (USB 2.0, 9.1.1.4 and 9.6.6; HID 1.11, appendix B).
    BadConfig,
    /// V1 to V17: the report descriptor is refused for the layout's cause of that number.
    Layout(Cause),
    /// V18: an Input array has no code that names nothing, so it can't send that no key is pressed.
    NoEmptyCode,
    /// V19: a relative control can't send 0, so it can't send that nothing moved.
    RelativeWithoutZero,
    /// V21: memory ran out for what is kept beside the layout.
    Memory,
}

/// The code of a layout's cause, as a device reports it.
fn layout_code(cause: Cause) -> &'static str
    ensures { result.now ≡ layout_code cause }
{
    match cause {
        Cause::Truncated => "V1",
        Cause::TooLong => "V2",
        Cause::PopEmpty => "V3",
        Cause::PushDepth => "V4",
        Cause::CollectionDepth => "V5",
        Cause::EndWithout => "V6",
        Cause::Unclosed => "V7",
        Cause::BadReportId => "V8",
        Cause::MixedReportId => "V9",
        Cause::BadRange => "V10",
        Cause::BadSize => "V11",
        Cause::BadUsageRange => "V12",
        Cause::UnpairedUsage => "V13",
        Cause::Delimiter => "V14",
        Cause::ReportTooLong => "V15",
        Cause::TooMany => "V16",
        Cause::Memory => "V17",
    }
}

impl fmt::Display for DeviceCause {
    ghost output = { λ cause. Some (device_cause_code cause) };

    fn fmt<W: fmt::Write>(&self, f: &mut fmt::Formatter<W>) -> fmt::Result {
        f.write_str(match self {
            DeviceCause::BadConfig => "V20",
            DeviceCause::Layout(cause) => layout_code(*cause),
            DeviceCause::NoEmptyCode => "V18",
            DeviceCause::RelativeWithoutZero => "V19",
            DeviceCause::Memory => "V21",
        })
    }
}

/// A refusal of a device. It is printed as its code, and after V1 to V16 with the place, as in `V3 at 0`.
#[derive(Clone, Copy, Debug, PartialEq, Eq)]
pub struct DeviceFault {
    /// Of the causes that stand, the first in the order of [`DeviceCause`].
    pub cause: DeviceCause,
    /// Of V1 to V16 the layout's place in the descriptor, else 0.
    pub at: usize,
}

impl fmt::Display for DeviceFault {
    ghost output = { λ fault. Some (device_fault_text fault.cause fault.at) };

    fn fmt<W: fmt::Write>(&self, f: &mut fmt::Formatter<W>) -> fmt::Result {
        let DeviceFault { cause, at } = *self;
        match cause {
            DeviceCause::Layout(found) => match found {
                Cause::Memory => f.write_str("V17"),
                _ => write!(f, "{cause} at {at}"),
            },
            _ => fmt::Display::fmt(&cause, f),
        }
    }
}

impl From<LayoutFault> for DeviceFault {
    ghost from_gives = { λ found fault. fault ≡ record { cause = Layout found.cause; at = found.at } };

    fn from(found: LayoutFault) -> DeviceFault {
        DeviceFault {
            cause: DeviceCause::Layout(found.cause),
            at: found.at,
        }
    }
}

impl From<AllocError> for DeviceFault {
    ghost from_gives = { λ _ fault. fault ≡ record { cause = Memory; at = 0 } };

    fn from(_: AllocError) -> DeviceFault {
        DeviceFault {
            cause: DeviceCause::Memory,
            at: 0,
        }
    }
}
