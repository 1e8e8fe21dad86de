//! What changed from one view to another, in events.

ghost use Rattle.std.specs.Prelude.{◌≡◌, ◌<◌, ◌≤◌, length, slice_get, map, Some, IfSome};
ghost use Rattle.hid_report_descriptor.specs.declared.usage.Usage.{Usage as UsageValue};
ghost use Rattle.hid_report_descriptor.specs.Usages.{usage_list};
ghost use Rattle.hid_layout.specs.Controls.{items_of};
ghost use Rattle.hid_snapshots.specs.ControlStates.{FitsView};
ghost use Rattle.hid_usages.specs.Appending.{HasSpace, Appends};
ghost use Rattle.hid_snapshots.specs.Views.{changes_between};
ghost use Rattle.hid_snapshots.specs.Events.{element_events, key_events, HasPlaces, control_at, usages_at, usage_place, switch_event, value_event, motion_event, switch_events, value_events, motion_events, ups, downs};
ghost use Rattle.hid_usages.specs.EventSources.{IsSource, usages_of_source};
ghost use Rattle.hid_usages.specs.KeyArrays.{NoneSetFrom, flag_events};
ghost use Rattle.hid_usages.specs.Reading.{read_motion};
ghost use Rattle.hid_usages.specs.Taking.{HasEventRoomAt, changes_at};

use crate::event_source::{EventSource, item_usages, push_motion, usage_in_range};
use crate::value_range::Bounds;
use hid_fields::FieldCodec;
use hid_layout::{
    ControlId, Controls, Layout, MainItem, Shape, Usage, usage_at as usage_in, usage_count,
};
use hid_report_descriptor::entry_count;
use hid_snapshots::{ControlState, Event, FieldRun, Flags, Values, item_at, item_count, state_at};

/// The place in an item's usage list that has the usage of an element, or of a place of an array's list: an element
/// after the last usage has that one.
fn usage_place(item: &MainItem, entries: &[(Usage, Usage)], index: usize) -> usize
    requires entries { length entries.now ≤ 64 }
    requires some { 0 < length (usage_list entries.now) }
    ensures { result ≡ usage_place item.now.shape (usage_list entries.now) index }
{
    match item.shape {
        Shape::Variable => index.min(usage_count(entries) - 1),
        Shape::Array | Shape::Padding => index,
    }
}

/// How many ranges of usages are few: going over them takes less than a search.
const FEW_RANGES: usize = 4;

/// The usage at a place of an item's usage list, by all ranges: a few are gone over, and more are searched by bisection.
#[inline(never)]
fn usage_listed(
    layout: &Layout,
    item: usize,
    entries: &[(Usage, Usage)],
    place: usize,
) -> Option<Usage>
    requires listed { item < length layout.now.items }
    requires entries { slice_get layout.now.entries item ≡ Some entries.now }
    ensures { result ≡ slice_get (usage_list entries.now) place }
{
    if entries.len() <= FEW_RANGES {
        usage_in(entries, place)
    } else {
        layout.usage(item, place)
    }
}

/// The usage at a place of an item's usage list: the first range is asked before the others.
#[inline(always)]
pub(crate) fn listed_usage(
    layout: &Layout,
    item: usize,
    entries: &[(Usage, Usage)],
    place: usize,
) -> Option<Usage>
    requires listed { item < length layout.now.items }
    requires entries { slice_get layout.now.entries item ≡ Some entries.now }
    ensures { result ≡ slice_get (usage_list entries.now) place }
{
    match first_usage(entries, place) {
        Some(usage) => Some(usage),
        None => usage_listed(layout, item, entries, place),
    }
}

/// The usage of an element after the last usage.
#[inline(never)]
fn usage_past(layout: &Layout, item: usize, index: usize) -> Usage
    requires { index < length (usages_at layout.now item) }
    ensures { slice_get (usages_at layout.now item) index ≡ Some result }
{
    let place = usage_place(item_at(layout, item), layout.entries(item), index);
    match layout.usage(item, place) {
        Some(usage) => usage,
        None => unreachable!(),
    }
}

/// The usage at a place of the first range; none where it has fewer.
#[inline(always)]
fn first_usage(entries: &[(Usage, Usage)], place: usize) -> Option<Usage>
    ensures { IfSome result (λ usage. slice_get (usage_list entries.now) place ≡ Some usage) }
{
    if entries.is_empty() {
        return None;
    }
    let (first, _) = entries[0];
    if place < entry_count(&entries[0]) {
        Some(Usage {
            page: first.page,
            id: first.id + place as u16,
        })
    } else {
        None
    }
}

/// The usage of an element, or of a place of an array's usage list, by all ranges.
#[inline(never)]
pub(crate) fn usage_by_ranges(layout: &Layout, item: usize, index: usize) -> Usage
    requires { index < length (usages_at layout.now item) }
    ensures { slice_get (usages_at layout.now item) index ≡ Some result }
{
    match usage_listed(layout, item, layout.entries(item), index) {
        Some(usage) => usage,
        None => usage_past(layout, item, index),
    }
}

/// The usage of an element, or of a place of an array's usage list, after the first range.
#[inline(never)]
fn usage_at_place(layout: &Layout, item: usize, index: usize) -> Usage
    requires { index < length (usages_at layout.now item) }
    ensures { slice_get (usages_at layout.now item) index ≡ Some result }
{
    if layout.entries(item).len() == 1 {
        let usages = item_usages(layout, item);
        if index < usages.end as usize {
            return usage_in_range(&usages, index);
        }
    }
    usage_by_ranges(layout, item, index)
}

/// The usage of an element, or of a place of an array's usage list.
#[inline(always)]
pub(crate) fn usage_at(layout: &Layout, item: usize, index: usize) -> Usage
    requires { index < length (usages_at layout.now item) }
    ensures { slice_get (usages_at layout.now item) index ≡ Some result }
{
    match first_usage(layout.entries(item), index) {
        Some(usage) => usage,
        None => usage_at_place(layout, item, index),
    }
}

/// Appends the event of a switch, if it changed.
pub(crate) fn switch_event(
    control: ControlId,
    usage: Usage,
    before: bool,
    after: bool,
    out: &mut Vec<Event>,
)
    requires { HasSpace out.old (switch_event control usage before after) }
    ensures { Appends out.old (switch_event control usage before after) out.new }
{
    match (before, after) {
        (true, false) => out.push_reserved(Event::Up { control, usage }),
        (false, true) => out.push_reserved(Event::Down { control, usage }),
        _ => {}
    }
}

/// Pushes the event of the switch at an index of an item: its usage is looked up only where the switch changes.
pub(crate) fn push_switch_event(
    layout: &Layout,
    item: usize,
    index: usize,
    before: bool,
    after: bool,
    out: &mut Vec<Event>,
)
    requires index { index < length (usages_at layout.now item) }
    requires room { (usage : UsageValue) → slice_get (usages_at layout.now item) index ≡ Some usage
        → HasSpace out.old (switch_event (control_at item index) usage before after) }
    ensures { (usage : UsageValue) → slice_get (usages_at layout.now item) index ≡ Some usage
        → Appends out.old (switch_event (control_at item index) usage before after) out.new }
{
    if before != after {
        let control = ControlId { item, index };
        switch_event(control, usage_at(layout, item, index), before, after, out);
    }
}

/// Appends the event of a value, if it changed.
fn value_event(
    control: ControlId,
    usage: Usage,
    before: Option<i64>,
    after: Option<i64>,
    out: &mut Vec<Event>,
)
    requires { HasSpace out.old (value_event control usage before after) }
    ensures { Appends out.old (value_event control usage before after) out.new }
{
    match (before, after) {
        (None, None) => {}
        (Some(_), None) => out.push_reserved(Event::Null { control, usage }),
        (None, Some(value)) => out.push_reserved(Event::Value {
            control,
            usage,
            value,
        }),
        (Some(old), Some(value)) => {
            if old != value {
                out.push_reserved(Event::Value {
                    control,
                    usage,
                    value,
                });
            }
        }
    }
}

/// Pushes the event of the value at an index of an item.
pub(crate) fn push_value_event(
    layout: &Layout,
    item: usize,
    index: usize,
    before: Option<i64>,
    after: Option<i64>,
    out: &mut Vec<Event>,
)
    requires index { index < length (usages_at layout.now item) }
    requires room { (usage : UsageValue) → slice_get (usages_at layout.now item) index ≡ Some usage
        → HasSpace out.old (value_event (control_at item index) usage before after) }
    ensures { (usage : UsageValue) → slice_get (usages_at layout.now item) index ≡ Some usage
        → Appends out.old (value_event (control_at item index) usage before after) out.new }
{
    if before != after {
        let control = ControlId { item, index };
        value_event(control, usage_at(layout, item, index), before, after, out);
    }
}

/// Appends the event of a motion, unless it is 0.
pub(crate) fn motion_event(control: ControlId, usage: Usage, by: i64, out: &mut Vec<Event>)
    requires { HasSpace out.old (motion_event control usage by) }
    ensures { Appends out.old (motion_event control usage by) out.new }
{
    if by != 0 {
        out.push_reserved(Event::Motion { control, usage, by });
    }
}

/// The events of switches, by rising index.
pub(crate) fn switch_changes(
    layout: &Layout,
    item: usize,
    before: &Flags,
    after: &Flags,
    out: &mut Vec<Event>,
)
    requires before { length before.now ≡ length (usages_at layout.now item) }
    requires after { length after.now ≡ length (usages_at layout.now item) }
    requires room { HasSpace out.old (switch_events item
        (usages_at layout.now item) before.now after.now) }
    ensures { Appends out.old (switch_events item (usages_at layout.now item) before.now after.now)
        out.new }
{
    for index in 0..before.len() {
        push_switch_event(
            layout,
            item,
            index,
            before.get(index),
            after.get(index),
            out,
        );
    }
}

/// The events of values, by rising index.
pub(crate) fn value_changes(
    layout: &Layout,
    item: usize,
    before: &Values,
    after: &Values,
    out: &mut Vec<Event>,
)
    requires before { length before.now ≡ length (usages_at layout.now item) }
    requires after { length after.now ≡ length (usages_at layout.now item) }
    requires room { HasSpace out.old (value_events item (usages_at layout.now item) before.now
        after.now) }
    ensures { Appends out.old (value_events item (usages_at layout.now item) before.now after.now)
        out.new }
{
    for index in 0..before.len() {
        push_value_event(
            layout,
            item,
            index,
            before.get(index),
            after.get(index),
            out,
        );
    }
}

/// The keys of an array that are released, by rising index; the flags after may be more than the keys.
#[inline(always)]
pub(crate) fn releases(
    layout: &Layout,
    item: usize,
    before: &Flags,
    after: &Flags,
    out: &mut Vec<Event>,
)
    requires before { length before.now ≡ length (usages_at layout.now item) }
    requires after { length (usages_at layout.now item) ≤ length after.now }
    requires room { HasSpace out.old (ups item (usages_at layout.now item) before.now after.now) }
    ensures { Appends out.old (ups item (usages_at layout.now item) before.now after.now) out.new }
{
    let mut from = 0;
    while let Some(index) = before.next_alone(after, from) {
        let control = ControlId { item, index };
        let usage = usage_at(layout, item, index);
        out.push_reserved(Event::Up { control, usage });
        from = index + 1;
    }
}

/// The keys of an array that are pressed, by rising index; the flags after may be more than the keys.
#[inline(always)]
pub(crate) fn presses(
    layout: &Layout,
    item: usize,
    before: &Flags,
    after: &Flags,
    out: &mut Vec<Event>,
)
    requires before { length before.now ≡ length (usages_at layout.now item) }
    requires after { length (usages_at layout.now item) ≤ length after.now }
    requires others { NoneSetFrom (length (usages_at layout.now item)) after.now }
    requires room { HasSpace out.old (downs item (usages_at layout.now item) before.now after.now) }
    ensures { Appends out.old (downs item (usages_at layout.now item) before.now after.now)
        out.new }
{
    let mut from = 0;
    while let Some(index) = after.next_alone(before, from) {
        let control = ControlId { item, index };
        let usage = usage_at(layout, item, index);
        out.push_reserved(Event::Down { control, usage });
        from = index + 1;
    }
}

/// The motion that a number is read as: none, 0, where it is out of the range.
#[inline(always)]
fn read_motion(bounds: &Bounds, number: i64) -> i64
    ensures { result ≡ read_motion bounds.now.least bounds.now.greatest number }
{
    if bounds.least <= number && number <= bounds.greatest {
        number
    } else {
        0
    }
}

/// The motion that an element's number is read as.
fn motion<C: FieldCodec>(bounds: &Bounds, numbers: &FieldRun<'_>, index: usize) -> i64
    requires { index < length numbers.now }
    ensures { slice_get (map (read_motion bounds.now.least bounds.now.greatest) numbers.now) index
        ≡ Some result }
{
    read_motion(bounds, numbers.number::<C>(index))
}

/// The motions that these numbers carry, by rising index. Those of a byte each, with sign, are read by a loop of their own.
#[inline(always)]
pub(crate) fn motions<C: FieldCodec>(
    source: &EventSource<'_>,
    bounds: &Bounds,
    numbers: &FieldRun<'_>,
    out: &mut Vec<Event>,
)
    requires source { IsSource source.now }
    requires numbers { length numbers.now ≡ length (usages_of_source source.now) }
    requires room { HasSpace out.old (motion_events source.now.item (usages_of_source source.now)
        (map (read_motion bounds.now.least bounds.now.greatest) numbers.now)) }
    ensures { Appends out.old (motion_events source.now.item (usages_of_source source.now)
        (map (read_motion bounds.now.least bounds.now.greatest) numbers.now)) out.new }
{
    match numbers.bytes(true) {
        Some(bytes) => each_motion::<C>(source, bounds, &FieldRun::of_bytes(bytes, true), out),
        None => each_motion::<C>(source, bounds, numbers, out),
    }
}

/// The motions that these numbers carry, one by one. Inlined twice: numbers of a byte each need no shifts.
#[inline(always)]
fn each_motion<C: FieldCodec>(
    source: &EventSource<'_>,
    bounds: &Bounds,
    numbers: &FieldRun<'_>,
    out: &mut Vec<Event>,
)
    requires source { IsSource source.now }
    requires numbers { length numbers.now ≡ length (usages_of_source source.now) }
    requires room { HasSpace out.old (motion_events source.now.item (usages_of_source source.now)
        (map (read_motion bounds.now.least bounds.now.greatest) numbers.now)) }
    ensures { Appends out.old (motion_events source.now.item (usages_of_source source.now)
        (map (read_motion bounds.now.least bounds.now.greatest) numbers.now)) out.new }
{
    for index in 0..numbers.len() {
        push_motion(source, index, motion::<C>(bounds, numbers, index), out);
    }
}

/// The events of the elements of a variable item.
pub(crate) fn element_changes(
    layout: &Layout,
    item: usize,
    before: &ControlState,
    after: &ControlState,
    out: &mut Vec<Event>,
)
    requires before { HasPlaces before.now (length (usages_at layout.now item)) }
    requires after { HasPlaces after.now (length (usages_at layout.now item)) }
    requires room { HasSpace out.old (element_events item
        (usages_at layout.now item) before.now after.now) }
    ensures { Appends out.old (element_events item (usages_at layout.now item) before.now after.now)
        out.new }
{
    match before {
        ControlState::Switches(old) => match after {
            ControlState::Switches(new) => switch_changes(layout, item, old, new, out),
            ControlState::Absent
            | ControlState::Values(_)
            | ControlState::Motions(_)
            | ControlState::RollOver(_) => {}
        },
        ControlState::Values(old) => match after {
            ControlState::Values(new) => value_changes(layout, item, old, new, out),
            ControlState::Absent
            | ControlState::Switches(_)
            | ControlState::Motions(_)
            | ControlState::RollOver(_) => {}
        },
        ControlState::Absent | ControlState::Motions(_) | ControlState::RollOver(_) => {}
    }
}

/// The events of the keys of an array: each release, and then each press.
#[tactic(auto, using(crate::proofs::RoomLemmas::past))]
pub(crate) fn key_changes(
    layout: &Layout,
    item: usize,
    before: &ControlState,
    after: &ControlState,
    out: &mut Vec<Event>,
)
    requires before { HasPlaces before.now (length (usages_at layout.now item)) }
    requires after { HasPlaces after.now (length (usages_at layout.now item)) }
    requires room { HasSpace out.old (key_events item (usages_at layout.now item) before.now
        after.now) }
    ensures { Appends out.old (key_events item (usages_at layout.now item) before.now after.now)
        out.new }
{
    match before {
        ControlState::Switches(old) => match after {
            ControlState::Switches(new) => flag_changes(layout, item, old, new, out),
            ControlState::Absent
            | ControlState::Values(_)
            | ControlState::Motions(_)
            | ControlState::RollOver(_) => {}
        },
        ControlState::Absent
        | ControlState::Values(_)
        | ControlState::Motions(_)
        | ControlState::RollOver(_) => {}
    }
}

/// The events of the keys of an array, of the keys before and the flags after, which may be more.
#[inline(always)]
pub(crate) fn flag_changes(
    layout: &Layout,
    item: usize,
    before: &Flags,
    after: &Flags,
    out: &mut Vec<Event>,
)
    requires before { length before.now ≡ length (usages_at layout.now item) }
    requires after { length (usages_at layout.now item) ≤ length after.now }
    requires others { NoneSetFrom (length (usages_at layout.now item)) after.now }
    requires room { HasSpace out.old
        (flag_events item (usages_at layout.now item) before.now after.now) }
    ensures { Appends out.old (flag_events item (usages_at layout.now item) before.now after.now)
        out.new }
{
    releases(layout, item, before, after, out);
    presses(layout, item, before, after, out);
}

/// The events of one item between two views.
#[tactic(auto, using(crate::proofs::EventLemmas::item_places))]
pub(crate) fn item_changes(
    layout: &Layout,
    item: usize,
    before: &ControlState,
    after: &ControlState,
    out: &mut Vec<Event>,
)
    requires listed { item < length layout.now.items }
    requires before { HasEventRoomAt layout.now item before.now }
    requires after { HasEventRoomAt layout.now item after.now }
    requires room { HasSpace out.old (changes_at layout.now item before.now after.now) }
    ensures { Appends out.old (changes_at layout.now item before.now after.now) out.new }
{
    match layout.controls(item) {
        Controls::None => {}
        Controls::Elements { .. } => element_changes(layout, item, before, after, out),
        Controls::Keys { .. } => key_changes(layout, item, before, after, out),
    }
}

/// The events between two views, item by item.
pub(crate) fn all_changes(
    layout: &Layout,
    before: &[ControlState],
    after: &[ControlState],
    out: &mut Vec<Event>,
)
    requires before { FitsView (items_of layout.now) before.now }
    requires after { FitsView (items_of layout.now) after.now }
    requires room { HasSpace out.old (changes_between (items_of layout.now) before.now after.now) }
    ensures { Appends out.old (changes_between (items_of layout.now) before.now after.now) out.new }
{
    for i in 0..item_count(layout) {
        item_changes(layout, i, state_at(before, i), state_at(after, i), out);
    }
}
