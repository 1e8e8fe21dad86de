//! Which Input report has an ID, found by a table where the report is among the first 255 of its layout (our choice).

ghost use Rattle.std.specs.Prelude.{◌≡◌, ◌<◌, length, slice_get, Some, Err, IfOk, IfErr};
ghost use Rattle.hid_usages.specs.PlannedReports.{IsIndex, IsPlaceOf};
ghost use Rattle.hid_usages.specs.Reading.{report_begun, report_named};

use crate::report_lookup::input_report;
use hid_layout::{Layout, Report};
use hid_snapshots::{ReportFault, full_of, is_input};
use std::alloc::{AllocError, Global};

/// Stands in an index where no Input report has the ID, or one that isn't among the first 255 reports: such an ID is searched.
pub(crate) const NO_REPORT: u8 = 255;

/// The report at a place.
fn report_at(layout: &Layout, report: usize) -> &Report
    requires { report < length layout.now.reports }
    ensures { slice_get layout.now.reports report ≡ Some result.now }
{
    &layout.reports()[report]
}

/// Puts the place of a report to its ID, if it is an Input report.
fn put_report(layout: &Layout, report: usize, index: &mut [u8])
    requires report { report < length layout.now.reports }
    requires index { IsIndex layout.now index.old }
    ensures { IsIndex layout.now index.new }
{
    // For the prover: what holds of every layout.
    let _ = layout.items();

    if !is_input(layout, report) {
        return;
    }
    let id = usize::from(report_at(layout, report).id);
    if report < usize::from(NO_REPORT) && id < index.len() {
        index[id] = report as u8;
    }
}

/// Puts the places of all Input reports to their IDs.
fn put_reports(layout: &Layout, index: &mut [u8])
    requires { IsIndex layout.now index.old }
    ensures { IsIndex layout.now index.new }
{
    for report in 0..layout.reports().len() {
        put_report(layout, report, index);
    }
}

/// For each ID the place of the Input report with it; for 0 alone where reports aren't numbered.
///
/// # Errors
/// Out of memory.
pub(crate) fn index_reports(alloc: Global, layout: &Layout) -> Result<Vec<u8>, AllocError>
    ensures { IfOk result (λ index. IsIndex layout.now index.items) }
{
    let ids = if layout.numbered() { 256 } else { 1 };
    let mut index = full_of(alloc, NO_REPORT, ids)?;
    put_reports(layout, &mut index);
    Ok(index)
}

/// The place of the Input report that begins with these bytes, by their first byte where reports are numbered (HID 1.11, 5.6);
/// [`NO_REPORT`] where the index has none.
#[inline(always)]
pub(crate) fn place_by_index(layout: &Layout, index: &[u8], bytes: &[u8]) -> u8
    requires { IsIndex layout.now index.now }
    ensures { IsPlaceOf layout.now bytes.now result }
{
    let id = if layout.numbered() {
        match bytes.first() {
            Some(id) => *id,
            None => return NO_REPORT,
        }
    } else {
        0
    };
    match index.get(usize::from(id)) {
        Some(place) => *place,
        None => NO_REPORT,
    }
}

/// The Input report that begins with these bytes: the one at the place that the index has, else the one that is found. It may
/// have more bytes.
///
/// # Errors
/// Those of [`input_report`].
#[inline(always)]
pub(crate) fn begun_report(layout: &Layout, place: u8, bytes: &[u8]) -> Result<usize, ReportFault>
    requires { IsPlaceOf layout.now bytes.now place }
    ensures found { IfOk result (λ r. report_begun layout.now bytes.now ≡ Some r) }
    ensures fault { IfErr result (λ fault. report_named layout.now bytes.now ≡ Err fault) }
{
    if place < NO_REPORT {
        Ok(usize::from(place))
    } else {
        input_report(layout, bytes)
    }
}
