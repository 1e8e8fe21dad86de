//! The plans of all Input reports of a layout, and the view that a reader begins with.

ghost use Rattle.std.specs.Prelude.{◌≡◌, ◌<◌, ◌≤◌, ◌+◌, ◌^◌, ℕ, List, length, IfOk, IfSome, vec_capacity};
ghost use Rattle.hid_layout.specs.Controls.{items_of, max_events};
ghost use Rattle.hid_snapshots.specs.ControlStates.{blank};
ghost use Rattle.hid_snapshots.specs.declared.control_state.ControlState.{ControlState as StateValue};
ghost use Rattle.hid_snapshots.specs.Parts.{IsInput};
ghost use Rattle.hid_usages.specs.PlannedReports.{ArePlannedAnew, ArePlanned, AreForgotten, IsPlannedView};

use crate::planned_report::{PlannedReport, plan_report};
use crate::report_index::index_reports;
use crate::view::View;
use hid_layout::Layout;
use hid_snapshots::{Event, MemoryFault, is_input};
use std::alloc::{AllocError, Global};

/// A plan for each Input report of a layout, found by its ID.
#[derive(Drop)]
pub(crate) struct ReportPlans {
    /// By ID the place of the Input report with it.
    pub(crate) index: Vec<u8>,
    /// By place in the layout, up to the last Input report.
    pub(crate) reports: Vec<PlannedReport>,
}

/// The place after a report if it is an Input report, else the end of those before it.
fn end_with(layout: &Layout, end: usize, report: usize) -> usize
    requires end { end ≤ report }
    requires report { report < length layout.now.reports }
    requires small { report + 1 < 2 ^ 64 }
    ensures grows { end ≤ result }
    ensures input { IsInput layout.now report → report < result }
    ensures within { result ≤ report + 1 }
{
    if is_input(layout, report) {
        report + 1
    } else {
        end
    }
}

/// The place after the last Input report.
fn input_end(layout: &Layout) -> usize
    ensures inputs { (r : ℕ) → IsInput layout.now r → r < result }
    ensures within { result ≤ length layout.now.reports }
{
    let mut end = 0;
    for report in 0..layout.reports().len() {
        end = end_with(layout, end, report);
    }
    end
}

/// Plans all reports up to the last Input report.
fn plan_each(alloc: Global, layout: &Layout) -> Result<Vec<PlannedReport>, AllocError>
    ensures { IfOk result (λ reports. ArePlannedAnew layout.now reports.items) }
{
    let count = input_end(layout);
    let mut reports = Vec::with_capacity(alloc, count)?;
    for report in 0..count {
        let planned = plan_report(alloc, layout, report)?;
        reports.push_reserved(planned);
    }
    Ok(reports)
}

/// Plans the Input reports, of which none came yet.
fn plan_reports(alloc: Global, layout: &Layout) -> Result<ReportPlans, AllocError>
    ensures { IfOk result (λ plans. (view : List StateValue) → ArePlanned layout.now view plans) }
{
    let index = index_reports(alloc, layout)?;
    let reports = plan_each(alloc, layout)?;
    Ok(ReportPlans { index, reports })
}

/// Forgets the last report of each number.
pub(crate) fn forget_last(reports: &mut [PlannedReport])
    ensures { AreForgotten reports.old reports.new }
{
    for k in 0..reports.len() {
        reports[k].forget();
    }
}

/// The initial view of a layout, and a plan for each of its Input reports: what a [`Reader`](crate::Reader) begins with.
#[derive(Drop)]
pub struct PlannedView {
    pub(crate) view: View,
    pub(crate) plans: ReportPlans,
}

impl PlannedView {
    /// What a host holds before the first report, as [`View::initial`] makes it, with the plans of the layout's reports.
    ///
    /// # Errors
    /// [`MemoryFault`], U10, for lack of memory.
    pub fn initial(alloc: Global, layout: &Layout) -> Result<PlannedView, MemoryFault>
        ensures initial { IfOk result (λ planned. planned.view ≡ blank (items_of layout.now)) }
        ensures planned { IfOk result (IsPlannedView layout.now) }
    {
        let view = View::initial(alloc, layout)?;
        match plan_reports(alloc, layout) {
            Ok(plans) => Ok(PlannedView { view, plans }),
            Err(_) => Err(MemoryFault),
        }
    }
}

/// The initial view of a layout with plans, and room for the events of a report. None for lack of memory.
pub fn first_view(alloc: Global, layout: &Layout) -> Option<(PlannedView, Vec<Event>)>
    ensures view { IfSome result (λ made. (made.0.view ≡ blank (items_of layout.now))
        × IsPlannedView layout.now made.0) }
    ensures room { IfSome result (λ made. max_events (items_of layout.now) ≤ vec_capacity made.1) }
{
    let view = PlannedView::initial(alloc, layout).ok()?;
    let events = Vec::with_capacity(alloc, layout.max_events()).ok()?;
    Some((view, events))
}
