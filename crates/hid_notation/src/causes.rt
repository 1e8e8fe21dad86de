//! Why a descriptor is refused, in words.

ghost use Rattle.std.specs.Prelude.{◌≡◌, Some};
ghost use Rattle.hid_notation.specs.Causes.{layout_refusal_text, layout_words};

use hid_layout::{LayoutFault, LongReport};
use std::fmt;

/// Why a descriptor is refused, and where. It is printed as in `L15 at 326: Feature report 68 has 20000 bytes, over 16384`, or
/// with words as in `L3 at 0: a Pop without a Push`.
#[derive(Clone, Copy)]
pub struct RefusalText {
    /// Cause and place.
    pub fault: LayoutFault,
    /// The report that is too long, where [`long_report`](hid_layout::long_report) names one.
    pub report: Option<LongReport>,
}

impl fmt::Display for RefusalText {
    ghost output = { λ refusal. Some (layout_refusal_text refusal.fault refusal.report) };

    fn fmt<W: fmt::Write>(&self, f: &mut fmt::Formatter<W>) -> fmt::Result {
        let fault = self.fault;
        match self.report {
            Some(report) => write!(f, "{fault}: {report}"),
            None => {
                let words = layout_words(fault.cause);
                write!(f, "{fault}: {words}")
            }
        }
    }
}

/// Why a descriptor is refused, in words.
pub fn layout_words(cause: hid_layout::Cause) -> &'static str
    ensures { result.now ≡ layout_words cause }
{
    match cause {
        hid_layout::Cause::Truncated => "the descriptor ends in the middle of an item",
        hid_layout::Cause::TooLong => "a descriptor of over 4096 bytes",
        hid_layout::Cause::PopEmpty => "a Pop without a Push",
        hid_layout::Cause::PushDepth => "over 8 open Pushes",
        hid_layout::Cause::CollectionDepth => "over 16 open collections",
        hid_layout::Cause::EndWithout => "an End Collection without its Collection",
        hid_layout::Cause::Unclosed => "a Collection is open at the end",
        hid_layout::Cause::BadReportId => "a Report ID of 0, or over 255",
        hid_layout::Cause::MixedReportId => "some items have a Report ID, and some have none",
        hid_layout::Cause::BadRange => "no number is in the range of a field",
        hid_layout::Cause::BadSize => "a data field of 0 bits, or too wide",
        hid_layout::Cause::BadUsageRange => "a Usage Minimum over its Maximum, or on another page",
        hid_layout::Cause::UnpairedUsage => "a Usage Minimum or Maximum without the other",
        hid_layout::Cause::Delimiter => "a Delimiter",
        hid_layout::Cause::ReportTooLong => "a report that is too long",
        hid_layout::Cause::TooMany => "too many items, fields, usages or Report IDs",
        hid_layout::Cause::Memory => "out of memory",
    }
}
