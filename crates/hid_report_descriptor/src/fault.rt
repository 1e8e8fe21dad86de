//! Why a descriptor is refused.

ghost use Rattle.std.specs.Prelude.{◌≡◌, Some};
ghost use Rattle.hid_report_descriptor.specs.Codes.{code_of, layout_fault_text};
ghost use Rattle.hid_report_descriptor.specs.Faults.{is_memory};

use std::alloc::AllocError;
use std::fmt;

/// Why a descriptor is refused. TooLong comes first; then the item that comes first decides; after the last item
/// Unclosed comes before MixedReportId. Of one Input, Output or Feature item the order is UnpairedUsage, BadUsageRange,
/// BadSize, BadRange, ReportTooLong, TooMany. It is printed as its code.
#[derive(Clone, Copy, Debug, PartialEq, Eq)]
pub enum Cause {
    /// L1: what is left begins with no whole item (HID 1.11, 6.2.2.2 and 6.2.2.3).
    Truncated,
    /// L2: more than 4,096 bytes (our choice).
    TooLong,
    /// L3: a Pop that no Push matches (HID 1.11, 6.2.2.7).
    PopEmpty,
    /// L4: more than 8 open Pushes (our choice).
    PushDepth,
    /// L5: more than 16 open collections (our choice).
    CollectionDepth,
    /// L6: an End Collection that no Collection matches (HID 1.11, 6.2.2.6).
    EndWithout,
    /// L7: a Collection that nothing ends (HID 1.11, 6.2.2.6).
    Unclosed,
    /// L8: a Report ID of 0 or over 255 (HID 1.11, 6.2.2.7).
    BadReportId,
    /// L9: an item with bits and no Report ID in force, though a Report ID item stands somewhere (HID 1.11, 5.6).
    MixedReportId,
    /// L10: the minimum is over the maximum, or no pattern of the width is in the range (HID 1.11, 6.2.2.7).
    BadRange,
    /// L11: data fields of 0 bits, or of more than the limits allow (HID 1.11, 6.2.2.7; the limit is our choice).
    BadSize,
    /// L12: a Usage Minimum over its Usage Maximum, or the two on different pages (HID 1.11, 6.2.2.8).
    BadUsageRange,
    /// L13: a Usage Minimum without its Usage Maximum, or the other way round (HID 1.11, 6.2.2.8).
    UnpairedUsage,
    /// L14: a Delimiter item (HID 1.11, 6.2.2.8), which this reader doesn't know.
    Delimiter,
    /// L15: a report of more bytes with its ID than the limits allow (our choice).
    ReportTooLong,
    /// L16: more than 512 listed items, 64 usage entries of one item or 64 report IDs, or more data fields than the limits
    /// allow (our choice).
    TooMany,
    /// L17: memory ran out.
    Memory,
}

impl From<AllocError> for Cause {
    ghost use Rattle.hid_report_descriptor.specs.declared.fault.Cause.TheVariants.{Memory};

    ghost from_gives = { λ _ cause. cause ≡ Memory };

    fn from(_: AllocError) -> Cause {
        Cause::Memory
    }
}

impl Cause {
    /// Whether memory ran out, which is no fault of the descriptor.
    pub fn is_memory(self) -> bool
        ensures { result ≡ is_memory self }
    {
        match self {
            Cause::Memory => true,
            _ => false,
        }
    }

    /// The code as which it is printed.
    fn code(&self) -> &'static str
        ensures { result.now ≡ code_of self.now }
    {
        match self {
            Cause::Truncated => "L1",
            Cause::TooLong => "L2",
            Cause::PopEmpty => "L3",
            Cause::PushDepth => "L4",
            Cause::CollectionDepth => "L5",
            Cause::EndWithout => "L6",
            Cause::Unclosed => "L7",
            Cause::BadReportId => "L8",
            Cause::MixedReportId => "L9",
            Cause::BadRange => "L10",
            Cause::BadSize => "L11",
            Cause::BadUsageRange => "L12",
            Cause::UnpairedUsage => "L13",
            Cause::Delimiter => "L14",
            Cause::ReportTooLong => "L15",
            Cause::TooMany => "L16",
            Cause::Memory => "L17",
        }
    }
}

impl fmt::Display for Cause {
    ghost output = { λ cause. Some (code_of cause) };

    fn fmt<W: fmt::Write>(&self, f: &mut fmt::Formatter<W>) -> fmt::Result {
        f.write_str(self.code())
    }
}

/// A refusal of a descriptor. It is printed as its cause and its place, as in `L10 at 12`.
#[derive(Clone, Copy, Debug, PartialEq, Eq)]
pub struct LayoutFault {
    /// What is wrong.
    pub cause: Cause,
    /// The byte at which the refused item begins; 4,096 for TooLong, the descriptor's length for Unclosed and
    /// MixedReportId, 0 for Memory.
    pub at: usize,
}

impl LayoutFault {
    /// Memory ran out. The place is 0.
    pub fn memory() -> LayoutFault
        ensures { result ≡ record { cause = Cause.Memory; at = 0 } }
    {
        LayoutFault {
            cause: Cause::Memory,
            at: 0,
        }
    }
}

impl fmt::Display for LayoutFault {
    ghost output = { λ fault. Some (layout_fault_text fault) };

    fn fmt<W: fmt::Write>(&self, f: &mut fmt::Formatter<W>) -> fmt::Result {
        let LayoutFault { cause, at } = *self;
        write!(f, "{cause} at {at}")
    }
}
