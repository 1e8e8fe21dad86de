//! Reports written: a report of zeros, and the number of an element (HID 1.11, 5.6 and 5.8).

ghost use Rattle.std.specs.Prelude.{◌≡◌, ◌<◌, ◌≤◌, ◌++◌, length, drop, position, IfSome};
ghost use Rattle.std.specs.Bool.{OnTrue, OnFalse};
ghost use Rattle.hid_fields.specs.Value.{FitsField};
ghost use Rattle.hid_layout.specs.Reports.{report_bytes};
ghost use Rattle.hid_snapshots.specs.Encoding.{bare_report};
ghost use Rattle.hidstack_session.specs.Writing.{PutsNumber, is_report_named};

use crate::element::{HidElement, kind_number, look_for};
use hid_fields::{FieldCodec, MAX_WIDTH, WordCodec, to_pattern};
use hid_layout::{Layout, Report};
use hid_usages::ReportFault;

/// In bits, a Report ID, with which the bytes of a report begin.
const ID_BITS: u32 = 8;

/// Why a number isn't written, in the order in which causes are looked for.
#[derive(Clone, Copy, Debug, PartialEq, Eq)]
pub enum PutFault {
    /// The element doesn't lie in the bytes of its report, after the Report ID.
    Refused(ReportFault),
    /// The element has no pattern for the number.
    OutOfRange,
}

/// Whether a report has this kind, as a number, and this ID.
fn is_report_named(report: &Report, kind: u32, id: u8) -> bool
    ensures { result ≡ is_report_named kind id report.now }
{
    u32::from(kind_number(report.kind)) == kind && report.id == id
}

/// The place of the report of this kind, [`INPUT`](crate::INPUT), [`OUTPUT`](crate::OUTPUT) or
/// [`FEATURE`](crate::FEATURE), and this ID, 0 where reports have none.
pub fn report_with(layout: &Layout, kind: u32, id: u8) -> Option<usize>
    ensures place { result ≡ position (is_report_named kind id) layout.now.reports }
    ensures within { IfSome result (λ r. r < length layout.now.reports) }
{
    layout
        .reports()
        .iter()
        .position(|report| is_report_named(report, kind, id))
}

/// Writes a report of zeros, after its ID where reports have IDs, over the first bytes of a room.
pub fn put_blank_report(layout: &Layout, report: usize, out: &mut [u8])
    requires report { report < length layout.now.reports }
    requires room { report_bytes layout.now report ≤ length out.old }
    ensures { out.new ≡ bare_report layout.now report ++ drop (report_bytes layout.now report) out.old }
{
    // For the prover: what holds of every layout.
    let _ = layout.items();

    let count = layout.report_bytes(report);
    out[..count].fill(0);
    if layout.numbered() {
        out[0] = layout.reports()[report].id;
    }
}

/// Whether a field of `width` bits, 1 to 32, has a pattern for a number.
fn fits_field(value: i64, width: u32, signed: bool) -> bool
    requires some { 0 < width }
    requires width { width ≤ MAX_WIDTH }
    ensures fits { OnTrue result (FitsField value width signed) }
    ensures not_fits { OnFalse result (FitsField value width signed → ⊥) }
{
    if signed {
        let half = 1i64 << (width - 1);
        -half <= value && value < half
    } else {
        0 <= value && value < 1i64 << width
    }
}

/// Makes this the number of an element in the bytes of a report (HID 1.11, 5.8): read again it is the same, and all other
/// bits stay. So a null is written too, as a number out of the logical range that has a pattern.
///
/// # Errors
/// [`PutFault::Refused`] as [`number_in`](crate::number_in) refuses, and [`ReportFault::Short`] of an element with a Report
/// ID that lies in the ID; then [`PutFault::OutOfRange`] of a number without a pattern. The bytes stay.
pub fn put_number(element: &HidElement, bytes: &mut [u8], value: i64) -> Result<(), PutFault>
    ensures { PutsNumber element.now value bytes.old result bytes.new }
{
    if element.report != 0 && element.bit < ID_BITS {
        return Err(PutFault::Refused(ReportFault::Short));
    }
    if let Err(fault) = look_for(element, bytes) {
        return Err(PutFault::Refused(fault));
    }
    if !fits_field(value, element.width, element.is_signed != 0) {
        return Err(PutFault::OutOfRange);
    }
    let pattern = to_pattern(value, element.width);
    WordCodec::put(bytes, element.bit as usize, element.width, pattern);
    Ok(())
}
