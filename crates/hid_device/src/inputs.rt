//! The Input reports of a layout.

ghost use Rattle.std.specs.Prelude.{◌≡◌, ◌≤◌, length};
ghost use Rattle.hid_report_descriptor.specs.Kinds.{same_kind};
ghost use Rattle.hid_device.specs.Inputs.{input_count};

use hid_layout::{Layout, Report, ReportKind};

/// Whether it is an Input report.
fn is_input(report: &Report) -> bool
    ensures { result ≡ same_kind report.now.kind ReportKind.Input }
{
    match report.kind {
        ReportKind::Input => true,
        ReportKind::Output | ReportKind::Feature => false,
    }
}

/// How many Input reports there are.
pub(crate) fn input_count(layout: &Layout) -> usize
    ensures count { result ≡ input_count layout.now.reports }
    ensures within { result ≤ length layout.now.reports }
{
    layout
        .reports()
        .iter()
        .filter(|report| is_input(report))
        .count()
}
