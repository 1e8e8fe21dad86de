//! The plan of a report: of each of its items what reading needs, so that it isn't found out at each report (our choice).

ghost use Rattle.std.specs.Prelude.{◌≡◌, ◌<◌, ◌≤◌, ◌+◌, ◌-◌, ◌*◌, ◌^◌, ℕ, false, length, slice_get, Some, IfOk};
ghost use Rattle.std.specs.Bool.{OnTrue};
ghost use Rattle.hid_report_descriptor.specs.Fields.{is_padding};
ghost use Rattle.hid_layout.specs.Reports.{HasElements};
ghost use Rattle.hid_usages.specs.declared.plan.PlannedItem.{PlannedItem as Planned};
ghost use Rattle.hid_usages.specs.Plans.{planned_kind, IsPlannedItem, IsInOrder, HoldsMotions, HoldsChanged, IsPassed, FindsUnpassed, IsPlan};

use crate::bits::are_bits;
use crate::changed_bits::BitSpan;
use crate::event_source::{ItemUsages, item_usages};
use hid_layout::{ControlKind, Layout, MainItem, Shape};
use hid_snapshots::{first_bit, item_at};
use std::alloc::{AllocError, Global};

/// The most items that are gone over without a search for those that changed.
const FEW_ITEMS: usize = 8;

/// As what the fields of an item are read.
#[derive(Clone, Copy, PartialEq, Eq)]
pub(crate) enum PlannedKind {
    /// Not at all.
    Padding,
    /// As the pattern of up to 32 switches of one bit each.
    Bits,
    /// As other switches.
    Switches,
    /// As values without null.
    Values,
    /// As values that can be null.
    NullValues,
    /// As motions.
    Motions,
    /// As keys that the elements of an array name.
    Keys,
}

/// Where an item stands, and as what it is read.
#[derive(Clone, Copy)]
pub(crate) struct PlannedItem {
    /// The place of the item in the layout.
    pub(crate) place: usize,
    /// The first bit of its fields, in the bytes of a report.
    pub(crate) first: usize,
    /// The bit after its fields.
    pub(crate) end: usize,
    pub(crate) kind: PlannedKind,
    /// The usages of its elements.
    pub(crate) usages: ItemUsages,
}

/// As what the elements of a variable item are read.
fn variable_kind(item: &MainItem) -> PlannedKind
    requires elements { HasElements item.now }
    requires shape { item.now.shape ≡ Shape.Variable }
    ensures { result ≡ planned_kind item.now }
{
    if are_bits(item) {
        return PlannedKind::Bits;
    }
    match item.element_kind() {
        ControlKind::Switch => PlannedKind::Switches,
        ControlKind::Value => PlannedKind::Values,
        ControlKind::NullValue => PlannedKind::NullValues,
        ControlKind::Relative => PlannedKind::Motions,
    }
}

/// As what the fields of an item are read.
fn planned_kind(item: &MainItem) -> PlannedKind
    requires { is_padding item.now.shape ≡ false → HasElements item.now }
    ensures { result ≡ planned_kind item.now }
{
    match item.shape {
        Shape::Padding => PlannedKind::Padding,
        Shape::Array => PlannedKind::Keys,
        Shape::Variable => variable_kind(item),
    }
}

/// What reading needs of the item at a place.
pub(crate) fn planned_item(layout: &Layout, place: usize) -> PlannedItem
    requires { place < length layout.now.items }
    ensures place { result.place ≡ place }
    ensures item { IsPlannedItem layout.now result }
{
    let item = item_at(layout, place);
    let first = first_bit(layout) + item.offset;
    PlannedItem {
        place,
        first,
        end: first + item.size as usize * item.count as usize,
        kind: planned_kind(item),
        usages: item_usages(layout, place),
    }
}

/// Items of a plan, by their indices, from the first one up to an end.
#[derive(Clone, Copy)]
pub(crate) struct ItemRange {
    pub(crate) first: usize,
    pub(crate) end: usize,
}

/// The plan of a report.
#[derive(Drop)]
pub(crate) struct ReportPlan {
    /// Its items, in the order of their bits.
    pub(crate) items: Vec<PlannedItem>,
    /// From the first item with motions to the last one; none where no item has motions.
    pub(crate) motions: ItemRange,
}

/// The planned item at an index.
#[inline(always)]
fn planned_at(items: &[PlannedItem], k: usize) -> &PlannedItem
    requires { k < length items.now }
    ensures { slice_get items.now k ≡ Some result.now }
{
    &items[k]
}

/// The range, up to an item after it if that has motions.
fn motions_with(motions: ItemRange, k: usize, item: &PlannedItem) -> ItemRange
    requires order { motions.first ≤ motions.end }
    requires end { motions.end ≤ k }
    requires small { k + 1 < 2 ^ 64 }
    ensures here { item.now.kind ≡ PlannedKind.Motions → (result.first ≤ k) × (k < result.end) }
    ensures before { (j : ℕ) → motions.first ≤ j → j < motions.end
        → (result.first ≤ j) × (j < result.end) }
    ensures order { result.first ≤ result.end }
    ensures end { result.end ≤ k + 1 }
{
    if item.kind != PlannedKind::Motions {
        return motions;
    }
    let first = if motions.end == 0 { k } else { motions.first };
    ItemRange { first, end: k + 1 }
}

/// Where the items with motions stand.
fn motions_in(items: &[PlannedItem]) -> ItemRange
    ensures { HoldsMotions items.now result }
{
    let mut motions = ItemRange { first: 0, end: 0 };
    for k in 0..items.len() {
        motions = motions_with(motions, k, planned_at(items, k));
    }
    motions
}

/// Plans the items of a report.
///
/// # Errors
/// Out of memory.
pub(crate) fn plan_items(
    alloc: Global,
    layout: &Layout,
    report: usize,
) -> Result<ReportPlan, AllocError>
    requires { report < length layout.now.reports }
    ensures { IfOk result (λ plan. IsPlan layout.now report plan) }
{
    // For the prover: what holds of every layout.
    let _ = layout.items();

    let places = layout.plan(report);
    let mut items = Vec::with_capacity(alloc, places.len())?;
    for place in places {
        items.push_reserved(planned_item(layout, *place));
    }
    let motions = motions_in(&items);
    Ok(ReportPlan { items, motions })
}

/// The half of a range in which the first item stands that ends after a bit.
#[inline(always)]
fn half_with(items: &[PlannedItem], range: ItemRange, bit: usize) -> ItemRange
    requires some { range.first < range.end }
    requires within { range.end ≤ length items.now }
    requires order { IsInOrder items.now }
    ensures smaller { result.end - result.first < range.end - range.first }
    ensures order { result.first ≤ result.end }
    ensures end { result.end ≤ range.end }
    ensures before { (k : ℕ) (item : Planned) → range.first ≤ k → k < result.first
        → slice_get items.now k ≡ Some item → item.end ≤ bit }
{
    let middle = range.first + (range.end - range.first) / 2;
    if items[middle].end <= bit {
        ItemRange {
            first: middle + 1,
            end: range.end,
        }
    } else {
        ItemRange {
            first: range.first,
            end: middle,
        }
    }
}

/// The first item that ends after a bit; as many as there are where none does.
fn first_ending_after(items: &[PlannedItem], bit: usize) -> usize
    requires order { IsInOrder items.now }
    ensures within { result ≤ length items.now }
    ensures before { (k : ℕ) (item : Planned) → k < result → slice_get items.now k ≡ Some item
        → item.end ≤ bit }
{
    let mut range = ItemRange {
        first: 0,
        end: items.len(),
    };
    while range.first < range.end {
        range = half_with(items, range, bit);
    }
    range.first
}

/// The first item from one on that begins at a bit or after it; as many as there are where none does.
fn first_beginning_at(items: &[PlannedItem], from: usize, bit: usize) -> usize
    requires from { from ≤ length items.now }
    requires order { IsInOrder items.now }
    ensures from { from ≤ result }
    ensures within { result ≤ length items.now }
    ensures behind { (k : ℕ) (item : Planned) → result ≤ k → slice_get items.now k ≡ Some item
        → bit ≤ item.first }
{
    for k in from..items.len() {
        if bit <= items[k].first {
            return k;
        }
    }
    items.len()
}

/// The range, and the items with motions.
#[inline(always)]
fn joined(range: ItemRange, motions: ItemRange) -> ItemRange
    requires order { range.first ≤ range.end }
    ensures order { result.first ≤ result.end }
    ensures first { result.first ≤ range.first }
    ensures end { range.end ≤ result.end }
    ensures motions { motions.first < motions.end
        → (result.first ≤ motions.first) × (motions.end ≤ result.end) }
    ensures within { (most : ℕ) → range.end ≤ most → motions.end ≤ most → result.end ≤ most }
{
    if motions.first < motions.end {
        ItemRange {
            first: range.first.min(motions.first),
            end: range.end.max(motions.end),
        }
    } else {
        range
    }
}

/// The items of a plan that have bits of a span, and those with motions, by a search.
fn search_items(plan: &ReportPlan, span: BitSpan) -> ItemRange
    requires order { IsInOrder plan.now.items.items }
    requires motions { HoldsMotions plan.now.items.items plan.now.motions }
    ensures { HoldsChanged plan.now.items.items span result }
{
    let first = first_ending_after(&plan.items, span.first);
    let end = first_beginning_at(&plan.items, first, span.end);
    joined(ItemRange { first, end }, plan.motions)
}

/// The items of a plan that have bits of a span, and those with motions; others may stand between. Few are all taken.
#[inline(always)]
pub(crate) fn items_of_span(plan: &ReportPlan, span: BitSpan) -> ItemRange
    requires order { IsInOrder plan.now.items.items }
    requires motions { HoldsMotions plan.now.items.items plan.now.motions }
    ensures { HoldsChanged plan.now.items.items span result }
{
    let count = plan.items.len();
    if count <= FEW_ITEMS {
        ItemRange {
            first: 0,
            end: count,
        }
    } else {
        search_items(plan, span)
    }
}

/// Whether the bits of a planned item lie outside of a span, and it has no motions.
#[inline(always)]
pub(crate) fn is_passed(item: &PlannedItem, span: BitSpan) -> bool
    ensures { OnTrue result (IsPassed item.now span) }
{
    (item.end <= span.first || span.end <= item.first) && item.kind != PlannedKind::Motions
}

/// The first item of a plan from one on, before an end, that has bits of a span or motions.
#[inline(always)]
pub(crate) fn next_unpassed(
    items: &[PlannedItem],
    from: usize,
    end: usize,
    span: BitSpan,
) -> Option<usize>
    requires { end ≤ length items.now }
    ensures { FindsUnpassed items.now span from end result }
{
    for k in from..end {
        if !is_passed(planned_at(items, k), span) {
            return Some(k);
        }
    }
    None
}
