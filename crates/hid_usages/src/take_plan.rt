//! A report is read by its plan: of the items that have changed bits, the elements that have.

ghost use Rattle.std.specs.Prelude.{◌≡◌, ◌<◌, ◌+◌, length, map, slice_get, Some, true};
ghost use Rattle.hid_layout.specs.Controls.{items_of, controls_of_form};
ghost use Rattle.hid_layout.specs.declared.control.ControlKind.TheVariants as ControlKind;
ghost use Rattle.hid_snapshots.specs.ControlStates.{HasRoom, FitsView};
ghost use Rattle.hid_usages.specs.Appending.{HasSpace, Appends};
ghost use Rattle.hid_usages.specs.Bits.{are_bits};
ghost use Rattle.hid_usages.specs.EventSources.{AreUsages};
ghost use Rattle.hid_usages.specs.Taking.{IsInReport, HasEventRoomAt, NoFlagSet, NoFlagSetFor, form_in, events_of_numbers};
ghost use Rattle.hid_usages.specs.Taking.{IsReceived, ArePlacesOf, view_received, events_received, state_received, item_events_received};
ghost use Rattle.hid_usages.specs.Taking.{IsFilled, numbers_of_bytes, state_after_bytes, events_by_bytes};
ghost use Rattle.hid_layout.specs.Controls.{element_kind};
ghost use Rattle.hid_layout.specs.Reports.{first_bit};
ghost use Rattle.hid_usages.specs.Ranges.{HoldsSpan, KnowsListed};
ghost use Rattle.hid_usages.specs.Known.{Knows, KnowsPlace};
ghost use Rattle.hid_usages.specs.Plans.{IsPlan, IsPlannedItem, place_of};

use crate::changed_bits::BitSpan;
use crate::elements::{ElementRange, every_element};
use crate::event_source::ItemUsages;
use crate::plan::{PlannedItem, PlannedKind, ReportPlan, items_of_span, next_unpassed};
use crate::take::{
    ElementNumbers, LastReport, ListedItem, ReportBytes, take_array, take_elements, take_pattern,
};
use crate::value_range::Bounds;
use hid_fields::FieldCodec;
use hid_layout::{ControlKind, Shape};
use hid_snapshots::{ControlState, Event, FieldRun, Flags, item_at};

/// Reads the bytes of a report by its plan into what is kept of the layout's items, and appends the events. Items whose bits are those
/// of the report before, which left the view, are skipped.
#[inline(always)]
pub(crate) fn take_planned<C: FieldCodec>(
    received: &ReportBytes<'_>,
    plan: &ReportPlan,
    last: &LastReport<'_>,
    states: &mut [ControlState],
    named: &mut Flags,
    out: &mut Vec<Event>,
)
    requires received { IsReceived received.now }
    requires places { ArePlacesOf received.now (map place_of plan.now.items.items) }
    requires plan { IsPlan received.now.layout.now received.now.report plan.now }
    requires known { Knows received.now.layout.now received.now.report received.now.bytes.now
        last.now.bytes.now last.now.changed states.old }
    requires fits { FitsView (items_of received.now.layout.now) states.old }
    requires named { NoFlagSet states.old named.old }
    requires room { HasSpace out.old (events_received received.now states.old) }
    ensures view { states.new ≡ view_received received.now states.old }
    ensures named { named.new ≡ named.old }
    ensures appends { Appends out.old (events_received received.now states.old) out.new }
{
    // For the prover: what holds of every layout.
    let _ = received.layout.items();

    let range = items_of_span(plan, last.changed);
    let mut from = range.first;
    while let Some(k) = next_unpassed(&plan.items, from, range.end, last.changed) {
        let planned = planned_at(plan, k);
        let i = planned.place;
        take_planned_item::<C>(received, planned, last, &mut states[i], named, out);
        from = k + 1;
    }
}

/// The planned item at an index.
#[inline(always)]
pub(crate) fn planned_at(plan: &ReportPlan, k: usize) -> &PlannedItem
    requires { k < length plan.now.items.items }
    ensures { slice_get plan.now.items.items k ≡ Some result.now }
{
    &plan.items[k]
}

/// Reads the bytes of a report into what is kept of a planned item of it, and appends the events.
#[inline(always)]
pub(crate) fn take_planned_item<C: FieldCodec>(
    received: &ReportBytes<'_>,
    planned: &PlannedItem,
    last: &LastReport<'_>,
    state: &mut ControlState,
    named: &mut Flags,
    out: &mut Vec<Event>,
)
    requires received { IsReceived received.now }
    requires planned { IsPlannedItem received.now.layout.now planned.now }
    requires in_report { IsInReport received.now.layout.now received.now.report planned.now.place }
    requires known { KnowsPlace received.now.layout.now received.now.report received.now.bytes.now
        last.now.bytes.now last.now.changed planned.now.place state.old }
    requires held { HasEventRoomAt received.now.layout.now planned.now.place state.old }
    requires named { NoFlagSetFor state.old named.old }
    requires room { HasSpace out.old (item_events_received received.now planned.now.place
        state.old) }
    ensures state { state.new ≡ state_received received.now planned.now.place state.old }
    ensures named { named.new ≡ named.old }
    ensures appends { Appends out.old (item_events_received received.now planned.now.place
        state.old) out.new }
{
    let layout = received.layout;
    let bytes = received.bytes;
    let listed = ListedItem {
        layout,
        place: planned.place,
        item: item_at(layout, planned.place),
    };
    let at = planned.first;
    let usages = &planned.usages;
    let changed = last.changed;
    match planned.kind {
        PlannedKind::Padding => {}
        PlannedKind::Bits => {
            take_bit_fields::<C>(&listed, usages, bytes, at, state, out);
        }
        PlannedKind::Switches => {
            take_variable::<C>(
                &listed,
                usages,
                bytes,
                at,
                changed,
                ControlKind::Switch,
                state,
                out,
            );
        }
        PlannedKind::Values => {
            take_variable::<C>(
                &listed,
                usages,
                bytes,
                at,
                changed,
                ControlKind::Value,
                state,
                out,
            );
        }
        PlannedKind::NullValues => {
            take_variable::<C>(
                &listed,
                usages,
                bytes,
                at,
                changed,
                ControlKind::NullValue,
                state,
                out,
            );
        }
        PlannedKind::Motions => {
            take_variable::<C>(
                &listed,
                usages,
                bytes,
                at,
                changed,
                ControlKind::Relative,
                state,
                out,
            );
        }
        PlannedKind::Keys => take_key_fields::<C>(&listed, bytes, at, state, named, out),
    }
}

/// Reads up to 32 switches of one bit each, whose first field stands at a bit of the bytes, and appends their events.
#[inline(always)]
fn take_bit_fields<C: FieldCodec>(
    listed: &ListedItem<'_>,
    usages: &ItemUsages,
    bytes: &[u8],
    at: usize,
    state: &mut ControlState,
    out: &mut Vec<Event>,
)
    requires usages { AreUsages listed.now.layout.now listed.now.place usages.now }
    requires listed { IsFilled listed.now bytes.now }
    requires bits { are_bits listed.now.item.now ≡ true }
    requires at { at ≡ first_bit listed.now.layout.now + listed.now.item.now.offset }
    requires held { HasRoom (controls_of_form (form_in listed.now)) state.old }
    requires room { HasSpace out.old (events_by_bytes listed.now state.old bytes.now) }
    ensures state { state.new ≡ state_after_bytes listed.now state.old bytes.now }
    ensures appends { Appends out.old (events_of_numbers listed.now state.old state.new
        (numbers_of_bytes listed.now bytes.now)) out.new }
{
    let pattern = C::get(bytes, at, listed.item.count);
    take_pattern(listed, usages, pattern, state, out);
}

/// The elements of fields of this size, of which the first one stands at a bit, that have the bits of a span. It takes less of a
/// size that the compiler sees.
#[inline(always)]
fn elements_of_size(size: usize, count: usize, at: usize, span: BitSpan) -> ElementRange
    requires size { 0 < size }
    ensures { HoldsSpan at size count span result }
{
    let first = span.first.saturating_sub(at) / size;
    let end = span.end.saturating_sub(at).div_ceil(size);
    ElementRange {
        first: first.min(count),
        end: end.min(count),
    }
}

/// How many elements are few: reading all of them takes less than finding out which have the bits of a span.
const FEW_ELEMENTS: usize = 2;

/// The elements of an item, whose first field stands at a bit, that have the bits of a span; all, where they are few.
#[inline(always)]
pub(crate) fn elements_of_span(size: u32, count: usize, at: usize, span: BitSpan) -> ElementRange
    requires size { 0 < size }
    ensures { HoldsSpan at size count span result }
{
    if count <= FEW_ELEMENTS {
        return every_element(count);
    }
    match size {
        1 => elements_of_size(1, count, at, span),
        8 => elements_of_size(8, count, at, span),
        size => elements_of_size(size as usize, count, at, span),
    }
}

/// The elements of an item with controls of this kind that are read, where bits of a span changed: all of motions.
#[inline(always)]
fn elements_read(
    size: u32,
    count: usize,
    at: usize,
    span: BitSpan,
    kind: ControlKind,
) -> ElementRange
    requires size { 0 < size }
    ensures { HoldsSpan at size count span result }
{
    match kind {
        ControlKind::Relative => every_element(count),
        ControlKind::Switch | ControlKind::Value | ControlKind::NullValue => {
            elements_of_span(size, count, at, span)
        }
    }
}

/// Reads the fields of a variable item with controls of this kind, whose first one stands at a bit of the bytes, and appends
/// their events. Outside of a span its bits are those of a report that left the view.
#[inline(always)]
fn take_variable<C: FieldCodec>(
    listed: &ListedItem<'_>,
    usages: &ItemUsages,
    bytes: &[u8],
    at: usize,
    changed: BitSpan,
    kind: ControlKind,
    state: &mut ControlState,
    out: &mut Vec<Event>,
)
    requires usages { AreUsages listed.now.layout.now listed.now.place usages.now }
    requires listed { IsFilled listed.now bytes.now }
    requires shape { listed.now.item.now.shape ≡ Shape.Variable }
    requires kind { kind ≡ element_kind listed.now.item.now }
    requires at { at ≡ first_bit listed.now.layout.now + listed.now.item.now.offset }
    requires known { KnowsListed listed.now bytes.now changed state.old }
    requires held { HasRoom (controls_of_form (form_in listed.now)) state.old }
    requires room { HasSpace out.old (events_by_bytes listed.now state.old bytes.now) }
    ensures state { state.new ≡ state_after_bytes listed.now state.old bytes.now }
    ensures appends { Appends out.old (events_of_numbers listed.now state.old state.new
        (numbers_of_bytes listed.now bytes.now)) out.new }
{
    let item = listed.item;
    let count = item.count as usize;
    let numbers = FieldRun::new(bytes, at, item.size, item.min < 0, count);
    let carried = ElementNumbers {
        kind,
        usages,
        bounds: Bounds {
            least: item.min,
            greatest: item.max,
        },
        range: elements_read(item.size, count, at, changed, kind),
        numbers: &numbers,
    };
    take_elements::<C>(listed, &carried, state, out);
}

/// Reads the fields of an array, of which the first stands at a bit of the bytes, and appends the events of its keys.
#[inline(always)]
fn take_key_fields<C: FieldCodec>(
    listed: &ListedItem<'_>,
    bytes: &[u8],
    at: usize,
    state: &mut ControlState,
    named: &mut Flags,
    out: &mut Vec<Event>,
)
    requires listed { IsFilled listed.now bytes.now }
    requires shape { listed.now.item.now.shape ≡ Shape.Array }
    requires at { at ≡ first_bit listed.now.layout.now + listed.now.item.now.offset }
    requires held { HasRoom (controls_of_form (form_in listed.now)) state.old }
    requires named { NoFlagSetFor state.old named.old }
    requires room { HasSpace out.old (events_by_bytes listed.now state.old bytes.now) }
    ensures state { state.new ≡ state_after_bytes listed.now state.old bytes.now }
    ensures named { named.new ≡ named.old }
    ensures appends { Appends out.old (events_of_numbers listed.now state.old state.new
        (numbers_of_bytes listed.now bytes.now)) out.new }
{
    let item = listed.item;
    let entries = listed.layout.entries(listed.place);
    let numbers = FieldRun::new(bytes, at, item.size, item.min < 0, item.count as usize);
    take_array::<C>(listed, entries, &numbers, state, named, out);
}
