//! The listed items of a layout.

ghost use Rattle.std.specs.Prelude.{◌≡◌, ◌<◌, length, slice_get, Some, All};
ghost use Rattle.hid_report_descriptor.specs.Kinds.{same_kind};
ghost use Rattle.hid_layout.specs.Controls.{items_of, is_input};
ghost use Rattle.hid_layout.specs.Reports.{IsLayout};
ghost use Rattle.hid_layout.specs.ArrayCodes.{plan_of};
ghost use Rattle.hid_snapshots.specs.Parts.{IsInput, item_at, is_of};

use hid_layout::{Layout, MainItem, ReportKind};

/// How many items are listed.
#[tactic(auto, using(crate::proofs::ItemLemmas::item_counts))]
pub fn item_count(layout: &Layout) -> usize
    ensures listed { result ≡ length layout.now.items }
    ensures all { result ≡ length (items_of layout.now) }
    ensures layout { IsLayout layout.now }
{
    layout.items().len()
}

/// Whether a listed item stands in an Input report.
#[tactic(auto, using(crate::proofs::PartLemmas::of_report_at))]
pub fn is_of(layout: &Layout, i: usize, report: usize) -> bool
    requires listed { i < length layout.now.items }
    requires input { IsInput layout.now report }
    ensures { result ≡ is_of report (item_at (items_of layout.now) i) }
{
    layout.items()[i].report == report
}

/// The listed item at a place.
pub fn item_at(layout: &Layout, i: usize) -> &MainItem
    requires { i < length layout.now.items }
    ensures item { slice_get layout.now.items i ≡ Some result.now }
    ensures layout { IsLayout layout.now }
{
    &layout.items()[i]
}

/// The places of the items of an Input report, in order.
#[tactic(auto, using(crate::proofs::PlanLemmas::plans))]
pub fn plan_of(layout: &Layout, report: usize) -> &[usize]
    requires { IsInput layout.now report }
    ensures plan { result.now ≡ plan_of layout.now report }
    ensures within { All (λ place. place < length layout.now.items) result.now }
    ensures all { length (items_of layout.now) ≡ length layout.now.items }
    ensures layout { IsLayout layout.now }
{
    // For the prover: what holds of every layout.
    let _ = item_count(layout);

    layout.plan(report)
}

/// Whether it is the kind of Input reports.
fn is_input_kind(kind: ReportKind) -> bool
    ensures { result ≡ same_kind kind ReportKind.Input }
{
    match kind {
        ReportKind::Input => true,
        ReportKind::Output | ReportKind::Feature => false,
    }
}

/// Whether a layout has an Input report of this number: the condition of the calls that take one.
pub fn is_input(layout: &Layout, report: usize) -> bool
    ensures { result ≡ is_input layout.now.reports report }
{
    match layout.reports().get(report) {
        Some(report) => is_input_kind(report.kind),
        None => false,
    }
}
