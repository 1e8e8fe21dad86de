//! The elements of a variable item, which the numbers of a report set one by one, and their events.

ghost use Rattle.std.specs.Prelude.{◌≡◌, ◌≢◌, ◌+◌, ◌^◌, ◌<◌, ◌≤◌, Some, length, slice_get, IfSome};
ghost use Rattle.std.specs.Bool.{OnTrue, OnFalse};
ghost use Rattle.hid_snapshots.specs.Events.{control_at, switch_event, value_event};
ghost use Rattle.hid_usages.specs.Appending.{HasSpace, Appends};
ghost use Rattle.hid_usages.specs.Elements.{switch_by_number, value_by_number, read_all, switch_events_read, value_events_read, OfElement, BecomesAt};
ghost use Rattle.hid_usages.specs.EventSources.{IsSource, usages_of_source};
ghost use Rattle.hid_usages.specs.Keeping.{KeepsOthers};
ghost use Rattle.hid_usages.specs.Reading.{is_in, read_switch};

use crate::event_source::{EventSource, push_null, push_number, push_switch};
use crate::value_range::Bounds;
use hid_fields::FieldCodec;
use hid_snapshots::{Event, FieldRun, Flags, Values};

/// Elements of an item, from the first index on, up to an end.
#[derive(Clone, Copy)]
pub(crate) struct ElementRange {
    pub(crate) first: usize,
    pub(crate) end: usize,
}

/// The range of all elements, as many as there are.
#[inline(always)]
pub(crate) fn every_element(count: usize) -> ElementRange
    ensures { result ≡ record { first = 0; end = count } }
{
    ElementRange {
        first: 0,
        end: count,
    }
}

/// A switch, as an element's number leaves it.
fn read_switch(before: bool, number: &i64) -> bool
    ensures { result ≡ read_switch before number.now }
{
    if *number == 0 {
        false
    } else if *number == 1 {
        true
    } else {
        before
    }
}

/// Sets the switch at an index by an element's number, and appends its event, if it changes.
#[inline(always)]
fn take_switch(
    source: &EventSource<'_>,
    index: usize,
    number: &i64,
    held: &mut Flags,
    out: &mut Vec<Event>,
)
    requires source { IsSource source.now }
    requires index { index < length (usages_of_source source.now) }
    requires held { length held.old ≡ length (usages_of_source source.now) }
    requires room { OfElement source.now.layout.now source.now.item index held.old
        (λ usage before. HasSpace out.old (switch_event (control_at source.now.item index) usage
        before (read_switch before number.now))) }
    ensures held { BecomesAt index (λ before. read_switch before number.now) held.old held.new }
    ensures appends { OfElement source.now.layout.now source.now.item index held.old
        (λ usage before. Appends out.old (switch_event (control_at source.now.item index) usage
        before (read_switch before number.now)) out.new) }
{
    let before = held.get(index);
    let after = read_switch(before, number);
    if before != after {
        push_switch(source, index, before, after, out);
        held.set(index, after);
    }
}

/// Sets switches by these numbers, and appends their events. Those outside of a range are left by theirs.
#[inline(always)]
pub(crate) fn take_switches<C: FieldCodec>(
    source: &EventSource<'_>,
    range: ElementRange,
    numbers: &FieldRun<'_>,
    held: &mut Flags,
    out: &mut Vec<Event>,
)
    requires source { IsSource source.now }
    requires numbers { length numbers.now ≡ length (usages_of_source source.now) }
    requires held { length held.old ≡ length (usages_of_source source.now) }
    requires others { KeepsOthers switch_by_number held.old numbers.now range }
    requires room { HasSpace out.old
        (switch_events_read source.now.layout.now source.now.item held.old numbers.now) }
    ensures held { held.new ≡ read_all switch_by_number held.old numbers.now }
    ensures len { length held.new ≡ length held.old }
    ensures appends { Appends out.old
        (switch_events_read source.now.layout.now source.now.item held.old numbers.now) out.new }
{
    for index in range.first..range.end {
        let number = numbers.number::<C>(index);
        take_switch(source, index, &number, held, out);
    }
}

/// How the values of a variable item are read: whether they can be null, and the logical range.
#[derive(Clone, Copy)]
pub(crate) struct Carriable {
    pub(crate) has_null: bool,
    pub(crate) bounds: Bounds,
}

/// Whether a number is in the logical range.
fn is_carried(carriable: &Carriable, number: &i64) -> bool
    ensures { result
        ≡ is_in carriable.now.bounds.least carriable.now.bounds.greatest number.now }
{
    carriable.bounds.least <= *number && *number <= carriable.bounds.greatest
}

/// Whether a value is as an element's number leaves it.
fn is_kept(before: Option<i64>, carriable: &Carriable, number: &i64) -> bool
    ensures kept { OnTrue result (value_by_number carriable.now (before, number.now) ≡ before) }
    ensures changed { OnFalse result (value_by_number carriable.now (before, number.now) ≢ before) }
{
    if is_carried(carriable, number) {
        before == Some(*number)
    } else {
        !carriable.has_null || before.is_none()
    }
}

/// The number of the field at an index. Of fields that are bytes it takes less where that is said.
#[inline(always)]
fn number_at<C: FieldCodec>(numbers: &FieldRun<'_>, index: usize, are_bytes: bool) -> i64
    requires { index < length numbers.now }
    ensures { slice_get numbers.now index ≡ Some result }
{
    if are_bytes {
        numbers.number_by_byte::<C>(index)
    } else {
        numbers.number::<C>(index)
    }
}

/// Sets the value at an index by an element's number, which changes it, and appends its event.
#[inline(always)]
fn take_value(
    source: &EventSource<'_>,
    carriable: &Carriable,
    index: usize,
    number: &i64,
    held: &mut Values,
    out: &mut Vec<Event>,
)
    requires source { IsSource source.now }
    requires index { index < length (usages_of_source source.now) }
    requires held { length held.old ≡ length (usages_of_source source.now) }
    requires changed { OfElement source.now.layout.now source.now.item index held.old
        (λ usage before. value_by_number carriable.now (before, number.now) ≢ before) }
    requires room { OfElement source.now.layout.now source.now.item index held.old
        (λ usage before. HasSpace out.old (value_event (control_at source.now.item index) usage
        before (value_by_number carriable.now (before, number.now)))) }
    ensures held { BecomesAt index (λ before. value_by_number carriable.now (before, number.now))
        held.old held.new }
    ensures appends { OfElement source.now.layout.now source.now.item index held.old
        (λ usage before. Appends out.old (value_event (control_at source.now.item index) usage
        before (value_by_number carriable.now (before, number.now))) out.new) }
{
    // For the prover: what the value is before.
    let _ = held.get(index);

    if is_carried(carriable, number) {
        push_number(source, index, *number, out);
        held.set(index, Some(*number));
    } else {
        push_null(source, index, out);
        held.set(index, None);
    }
}

/// Sets the value at an index by an element's number, and appends its event, if it changes.
#[inline(always)]
fn take_number(
    source: &EventSource<'_>,
    carriable: &Carriable,
    index: usize,
    number: &i64,
    held: &mut Values,
    out: &mut Vec<Event>,
)
    requires source { IsSource source.now }
    requires index { index < length (usages_of_source source.now) }
    requires held { length held.old ≡ length (usages_of_source source.now) }
    requires room { OfElement source.now.layout.now source.now.item index held.old
        (λ usage before. HasSpace out.old (value_event (control_at source.now.item index) usage
        before (value_by_number carriable.now (before, number.now)))) }
    ensures held { BecomesAt index (λ before. value_by_number carriable.now (before, number.now))
        held.old held.new }
    ensures appends { OfElement source.now.layout.now source.now.item index held.old
        (λ usage before. Appends out.old (value_event (control_at source.now.item index) usage
        before (value_by_number carriable.now (before, number.now))) out.new) }
{
    let before = held.get(index);
    if !is_kept(before, carriable, number) {
        take_value(source, carriable, index, number, held, out);
    }
}

/// Sets values by these numbers, and appends their events. Those outside of a range are left by theirs. Values of a byte each
/// are read by a loop of their own.
#[inline(always)]
pub(crate) fn take_values<C: FieldCodec>(
    source: &EventSource<'_>,
    carriable: &Carriable,
    range: ElementRange,
    numbers: &FieldRun<'_>,
    held: &mut Values,
    out: &mut Vec<Event>,
)
    requires source { IsSource source.now }
    requires numbers { length numbers.now ≡ length (usages_of_source source.now) }
    requires held { length held.old ≡ length (usages_of_source source.now) }
    requires others { KeepsOthers (value_by_number carriable.now) held.old numbers.now range }
    requires room { HasSpace out.old (value_events_read source.now.layout.now source.now.item
        carriable.now held.old numbers.now) }
    ensures held { held.new ≡ read_all (value_by_number carriable.now) held.old numbers.now }
    ensures len { length held.new ≡ length held.old }
    ensures appends { Appends out.old (value_events_read source.now.layout.now source.now.item
        carriable.now held.old numbers.now) out.new }
{
    match numbers.bytes(false) {
        Some(bytes) => {
            let numbers = FieldRun::of_bytes(bytes, false);
            take_each_value::<C>(source, carriable, range, &numbers, true, held, out)
        }
        None => take_each_value::<C>(source, carriable, range, numbers, false, held, out),
    }
}

/// Values, as these numbers leave them, one by one. Inlined twice: numbers of a byte each need no shifts.
#[inline(always)]
fn take_each_value<C: FieldCodec>(
    source: &EventSource<'_>,
    carriable: &Carriable,
    range: ElementRange,
    numbers: &FieldRun<'_>,
    are_bytes: bool,
    held: &mut Values,
    out: &mut Vec<Event>,
)
    requires source { IsSource source.now }
    requires numbers { length numbers.now ≡ length (usages_of_source source.now) }
    requires held { length held.old ≡ length (usages_of_source source.now) }
    requires others { KeepsOthers (value_by_number carriable.now) held.old numbers.now range }
    requires room { HasSpace out.old (value_events_read source.now.layout.now source.now.item
        carriable.now held.old numbers.now) }
    ensures held { held.new ≡ read_all (value_by_number carriable.now) held.old numbers.now }
    ensures len { length held.new ≡ length held.old }
    ensures appends { Appends out.old (value_events_read source.now.layout.now source.now.item
        carriable.now held.old numbers.now) out.new }
{
    let carriable = *carriable;
    for index in range.first..range.end {
        let number = number_at::<C>(numbers, index, are_bytes);
        take_number(source, &carriable, index, &number, held, out);
    }
}
