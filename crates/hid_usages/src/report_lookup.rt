//! Which Input report bytes are, and the number of one of its elements.

ghost use Rattle.std.specs.Prelude.{◌≡◌, ◌<◌, ◌≤◌, ◌*◌, false, length, Option, Some, None, position, IsSomeAnd, IfSome};
ghost use Rattle.hid_layout.specs.Reports.{element_of, report_bytes, IsOfBus};
ghost use Rattle.hid_usages.specs.Reading.{is_input_with, whole_report, report_named, report_begun, bytes_awaited, element_number, IsInside};

use hid_fields::{FieldCodec, to_value};
use hid_layout::{Element, Layout, MAX_REAL_REPORT_BYTES, MAX_REPORT_BYTES, Report, ReportKind};
use hid_snapshots::ReportFault;

/// Whether it is an Input report with this ID.
fn is_input_with(report: &Report, id: u8) -> bool
    ensures { result ≡ is_input_with id report.now }
{
    match report.kind {
        ReportKind::Input => report.id == id,
        ReportKind::Output | ReportKind::Feature => false,
    }
}

/// The place of the Input report with this ID.
fn input_with(layout: &Layout, id: u8) -> Option<usize>
    ensures place { result ≡ position (is_input_with id) layout.now.reports }
    ensures within { IfSome result (λ r. r < length layout.now.reports) }
{
    layout
        .reports()
        .iter()
        .position(|report| is_input_with(report, id))
}

/// The Input report with this ID, if there are enough bytes for it.
fn whole_report(layout: &Layout, bytes: &[u8], id: u8) -> Result<usize, ReportFault>
    ensures { result
        ≡ whole_report layout.now bytes.now (position (is_input_with id) layout.now.reports) }
{
    match input_with(layout, id) {
        None => Err(ReportFault::UnknownReport),
        Some(report) => {
            if bytes.len() < layout.report_bytes(report) {
                Err(ReportFault::Short)
            } else {
                Ok(report)
            }
        }
    }
}

/// The place, in the layout's list of reports, of the Input report that the bytes are, by their first byte where reports are
/// numbered (HID 1.11, 5.6). More bytes than the report has are ignored.
///
/// # Errors
/// [`ReportFault::Short`] (U8) where reports are numbered and there is no byte; else [`ReportFault::UnknownReport`] (U9)
/// where no Input report has the number, or the layout has no Input report; else U8 under the bytes of the report.
pub fn input_report(layout: &Layout, bytes: &[u8]) -> Result<usize, ReportFault>
    ensures { result ≡ report_named layout.now bytes.now }
{
    if layout.numbered() {
        match bytes.first() {
            None => Err(ReportFault::Short),
            Some(id) => whole_report(layout, bytes, *id),
        }
    } else {
        whole_report(layout, bytes, 0)
    }
}

/// The number of the Input report that begins with these bytes.
fn report_begun(layout: &Layout, bytes: &[u8]) -> Option<usize>
    ensures begun { result ≡ report_begun layout.now bytes.now }
    ensures within { IfSome result (λ r. r < length layout.now.reports) }
{
    if !layout.numbered() {
        return input_with(layout, 0);
    }
    match bytes.first() {
        None => None,
        Some(id) => input_with(layout, *id),
    }
}

/// How many bytes the Input report has that begins with these, its ID byte included, by the first of them where reports are
/// numbered (HID 1.11, 5.6): at most 16,384, and 256 within the limits of the bus. Where they begin none it is
/// [`MAX_REPORT_BYTES`], as many as the longest report of the bus has.
pub fn bytes_awaited(layout: &Layout, bytes: &[u8]) -> usize
    ensures awaited { result ≡ bytes_awaited layout.now bytes.now }
    ensures long { result ≤ MAX_REAL_REPORT_BYTES }
    ensures short { IsOfBus layout.now → result ≤ MAX_REPORT_BYTES }
{
    // For the prover: what holds of every layout, as that its reports are so long at most.
    let _ = layout.items();

    match report_begun(layout, bytes) {
        None => MAX_REPORT_BYTES as usize,
        Some(report) => layout.report_bytes(report),
    }
}

/// The number of a data element, of the item at this place and at this index of its elements, in the bytes of its report
/// (HID 1.11, 5.8), its ID byte included. The item is listed, it has the element, and the element lies in the bytes.
pub fn element_value<C: FieldCodec>(layout: &Layout, bytes: &[u8], item: usize, j: usize) -> i64
    requires listed { item < length layout.now.items }
    requires element { IsSomeAnd (element_of layout.now item j)
        (λ element. IsInside layout.now bytes.now element) }
    ensures { IfSome (element_of layout.now item j) (λ element. result
        ≡ element_number layout.now bytes.now element) }
{
    // For the prover: what holds of every layout, as that its reports are short.
    let _ = layout.items();

    match layout.element(item, j) {
        Some(element) => element_number::<C>(layout, bytes, &element),
        None => 0,
    }
}

/// The number of an element in the bytes of a report.
fn element_number<C: FieldCodec>(layout: &Layout, bytes: &[u8], element: &Element) -> i64
    requires inside { IsInside layout.now bytes.now element.now }
    requires short { element.now.bit ≤ 8 * MAX_REAL_REPORT_BYTES }
    ensures { result ≡ element_number layout.now bytes.now element.now }
{
    let first = if layout.numbered() { 8 } else { 0 };
    let pattern = C::get(bytes, first + element.bit, element.width);
    to_value(pattern, element.width, element.signed)
}
