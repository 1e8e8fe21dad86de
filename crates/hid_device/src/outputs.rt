//! The reports of a layout by kind and ID, and what is kept of those that a host sets (HID 1.11, 7.2.1 and 7.2.2).

ghost use Rattle.std.specs.Prelude.{◌≡◌, ◌<◌, ◌≤◌, length, position, IfOk, IfSome, true};
ghost use Rattle.hid_report_descriptor.specs.declared.limits.TheConstants.{MAX_REPORT_BYTES};
ghost use Rattle.hid_layout.specs.Controls.{is_input};
ghost use Rattle.hid_layout.specs.Reports.{report_bytes, IsOfBus};
ghost use Rattle.hid_report_descriptor.specs.declared.report.ReportKind.TheVariants.{Input};
ghost use Rattle.hid_snapshots.specs.ExactCapacity.{IsFull};
ghost use Rattle.hid_snapshots.specs.Encoding.{bare_report};
ghost use Rattle.hid_device.specs.Outputs.{bare_outputs, in_place_of, is_output_named, kept_place, kept_reports, report_number_of};

use crate::inputs::input_count;
use arrayvec::ArrayVec;
use hid_layout::{Layout, Report, ReportKind};
use hid_snapshots::bare_report;
use std::alloc::{AllocError, Global};
use std::marker::Model;

/// An Output or Feature report as a host set it last, its ID first where it has one; at first zeros.
#[derive(Drop)]
pub(crate) struct KeptReport {
    bytes: ArrayVec<u8, 256>,
}

impl Model for KeptReport {
    ghost use Rattle.std.specs.Prelude.{List, ℕ};

    ghost Value = { List ℕ };

    ghost view = { λ r. r.bytes.items };
}

impl KeptReport {
    /// In bytes, its length.
    pub(crate) fn len(&self) -> usize
        ensures length { result ≡ length self.now }
        ensures short { result ≤ 256 }
    {
        self.bytes.len()
    }

    /// The bytes of the report, at most 256.
    pub(crate) fn bytes(&self) -> &[u8]
        ensures bytes { result.now ≡ self.now }
        ensures short { length result.now ≤ 256 }
    {
        &self.bytes
    }

    /// It is set to these bytes, where they are as many as it has.
    pub(crate) fn keep(&mut self, bytes: &[u8])
        ensures { self.new ≡ in_place_of self.old bytes.now }
    {
        if bytes.len() == self.bytes.len() {
            self.bytes = ArrayVec::try_from(bytes).unwrap();
        }
    }
}

/// A report of a layout as it is at first: zeros, after its ID where it has one.
fn bare(layout: &Layout, report: usize) -> KeptReport
    requires report { report < length layout.now.reports }
    requires short { report_bytes layout.now report ≤ MAX_REPORT_BYTES }
    ensures { result ≡ bare_report layout.now report }
{
    // For the prover: what holds of every layout.
    let _ = layout.items();

    let mut bytes = ArrayVec::new();
    bare_report(layout, report, &mut bytes);
    KeptReport { bytes }
}

/// Makes each of these reports what it was at first. No memory is taken.
pub(crate) fn reset_outputs(layout: &Layout, outputs: &mut [KeptReport])
    requires bus { IsOfBus layout.now }
    requires each { length outputs.old ≡ length (kept_reports layout.now.reports) }
    ensures { outputs.new ≡ bare_outputs layout.now }
{
    let first = input_count(layout);
    for report in first..layout.reports().len() {
        outputs[report - first] = bare(layout, report);
    }
}

/// One for each Output and Feature report, in the order of the layout.
pub(crate) fn bare_outputs(alloc: Global, layout: &Layout) -> Result<Vec<KeptReport>, AllocError>
    requires bus { IsOfBus layout.now }
    ensures outputs { IfOk result (λ outputs. outputs.items ≡ bare_outputs layout.now) }
    ensures full { IfOk result (λ outputs. IsFull outputs) }
{
    let first = input_count(layout);
    let count = layout.reports().len();
    let mut outputs = Vec::with_capacity(alloc, count - first)?;
    for report in first..count {
        outputs.push_reserved(bare(layout, report));
    }
    Ok(outputs)
}

/// Whether the report has this kind and ID.
fn is_named(report: &Report, kind: ReportKind, id: u8) -> bool
    ensures { result ≡ is_output_named kind id report.now }
{
    report.kind.is(kind) && report.id == id
}

/// The place of the first of these reports that is of this kind and ID.
fn place_among(reports: &[Report], kind: ReportKind, id: u8) -> Option<usize>
    ensures place { result ≡ position (is_output_named kind id) reports.now }
    ensures within { IfSome result (λ i. i < length reports.now) }
{
    reports.iter().position(|report| is_named(report, kind, id))
}

/// The number of the Input report with this ID.
pub(crate) fn input_with(layout: &Layout, id: u8) -> Option<usize>
    ensures number { result ≡ report_number_of layout.now.reports Input id }
    ensures input { IfSome result (λ r. is_input layout.now.reports r ≡ true) }
{
    place_among(layout.reports(), ReportKind::Input, id)
}

/// The place of the report of this kind and ID among the Output and Feature reports.
pub(crate) fn kept_place(layout: &Layout, kind: ReportKind, id: u8) -> Option<usize>
    ensures place { result ≡ kept_place layout.now.reports kind id }
    ensures within { IfSome result (λ i. i < length (kept_reports layout.now.reports)) }
{
    place_among(&layout.reports()[input_count(layout)..], kind, id)
}
