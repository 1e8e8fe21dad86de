//! An item whose changes are events, with the usages of its elements: those of one range are found out once for all of its events.

ghost use Rattle.std.specs.Prelude.{◌≡◌, ℕ, ◌<◌, ◌≤◌, ◌+◌, ◌^◌, length, slice_get, Some, IfSome};
ghost use Rattle.std.specs.Bool.{OnTrue};
ghost use Rattle.hid_report_descriptor.specs.declared.usage.Usage.{Usage as UsageValue};
ghost use Rattle.hid_layout.specs.Layout.{Contents};
ghost use Rattle.hid_snapshots.specs.Events.{control_at, switch_event, motion_event};
ghost use Rattle.hid_usages.specs.Appending.{HasSpace, Appends};
ghost use Rattle.hid_usages.specs.EventSources.{AreUsages, Follows, IsRun, IsSource, number_event, null_event, usage_in_range, usages_of_source};

use crate::view_changes::{motion_event, switch_event, usage_by_ranges};
use hid_layout::{ControlId, Layout, Usage};
use hid_report_descriptor::entry_count;
use hid_snapshots::Event;

/// Usages of an item's elements: those before an end have the usages of one range, and after these the last one of it.
#[derive(Clone, Copy)]
pub(crate) struct ItemUsages {
    /// The page of the range.
    pub(crate) page: u16,
    /// The ID of its first usage.
    pub(crate) id: u16,
    /// How many usages follow it in the range.
    pub(crate) more: u16,
    /// The index after the last element that has a usage of the range; 0 where there is no range.
    pub(crate) end: u32,
}

/// Ranges of an item, from the first one on, and how many usages they give.
#[derive(Clone, Copy)]
struct UsageRun {
    ranges: usize,
    count: usize,
}

/// An item of a layout, at its place there, whose changes are events.
#[derive(Clone, Copy)]
pub(crate) struct EventSource<'a> {
    pub(crate) layout: &'a Layout,
    pub(crate) item: usize,
    pub(crate) usages: &'a ItemUsages,
}

/// Whether the usages of a range follow so many from a first one on, on the same page.
fn follows(entry: &(Usage, Usage), first: Usage, count: usize) -> bool
    requires { count ≤ 2 ^ 16 }
    ensures { OnTrue result (Follows entry.now first count) }
{
    entry.0.page == first.page && usize::from(entry.0.id) == usize::from(first.id) + count
}

/// The first ranges of an item whose usages follow each other.
fn first_run(entries: &[(Usage, Usage)], first: Usage) -> UsageRun
    requires some { 0 < length entries.now }
    requires first { IfSome (slice_get entries.now 0) (λ entry. entry.0 ≡ first) }
    ensures { IsRun entries.now first result }
{
    let mut count = entry_count(&entries[0]);
    let mut ranges = 1;
    while ranges < entries.len() && follows(&entries[ranges], first, count) {
        count += entry_count(&entries[ranges]);
        ranges += 1;
    }
    UsageRun { ranges, count }
}

/// The usages that the first ranges of an item give, as long as they follow each other. Where there is no other range, they are
/// those of all elements.
pub(crate) fn item_usages(layout: &Layout, item: usize) -> ItemUsages
    requires { item < length layout.now.items }
    ensures { AreUsages layout.now item result }
{
    // For the prover: what holds of every layout.
    let _ = layout.items();

    let entries = layout.entries(item);
    if entries.is_empty() {
        return no_usages();
    }
    let (first, _) = entries[0];
    let UsageRun { ranges, count } = first_run(entries, first);
    if count == 0 {
        return no_usages();
    }
    let end = if ranges == entries.len() {
        u32::MAX
    } else {
        count as u32
    };
    ItemUsages {
        page: first.page,
        id: first.id,
        more: (count - 1) as u16,
        end,
    }
}

/// No element has a usage of a range that is found out.
#[inline(always)]
pub(crate) fn no_usages() -> ItemUsages
    ensures { (layout : Contents) (i : ℕ) → AreUsages layout i result }
{
    ItemUsages {
        page: 0,
        id: 0,
        more: 0,
        end: 0,
    }
}

/// The usage that a range gives to an index: after its last one that one.
#[inline(always)]
pub(crate) fn usage_in_range(usages: &ItemUsages, index: usize) -> Usage
    requires { usages.now.id + usages.now.more < 2 ^ 16 }
    ensures { result ≡ usage_in_range usages.now index }
{
    let more = index.min(usages.more as usize) as u16;
    Usage {
        page: usages.page,
        id: usages.id + more,
    }
}

/// The usage of an element.
#[inline(always)]
fn usage_of(source: &EventSource<'_>, index: usize) -> Usage
    requires source { IsSource source.now }
    requires index { index < length (usages_of_source source.now) }
    ensures { slice_get (usages_of_source source.now) index ≡ Some result }
{
    let usages = source.usages;
    if index < usages.end as usize {
        usage_in_range(usages, index)
    } else {
        usage_by_ranges(source.layout, source.item, index)
    }
}

/// Appends the event of the switch at an index, if it changed.
#[inline(always)]
pub(crate) fn push_switch(
    source: &EventSource<'_>,
    index: usize,
    before: bool,
    after: bool,
    out: &mut Vec<Event>,
)
    requires source { IsSource source.now }
    requires index { index < length (usages_of_source source.now) }
    requires room { (usage : UsageValue) → slice_get (usages_of_source source.now) index ≡ Some usage
        → HasSpace out.old (switch_event (control_at source.now.item index) usage before after) }
    ensures { (usage : UsageValue) → slice_get (usages_of_source source.now) index ≡ Some usage
        → Appends out.old (switch_event (control_at source.now.item index) usage before after)
        out.new }
{
    let control = ControlId {
        item: source.item,
        index,
    };
    switch_event(control, usage_of(source, index), before, after, out);
}

/// Appends the event of a value that becomes a number.
fn number_event(control: ControlId, usage: Usage, value: i64, out: &mut Vec<Event>)
    requires { HasSpace out.old (number_event control usage value) }
    ensures { Appends out.old (number_event control usage value) out.new }
{
    out.push_reserved(Event::Value {
        control,
        usage,
        value,
    });
}

/// Appends the event of a value that becomes null.
fn null_event(control: ControlId, usage: Usage, out: &mut Vec<Event>)
    requires { HasSpace out.old (null_event control usage) }
    ensures { Appends out.old (null_event control usage) out.new }
{
    out.push_reserved(Event::Null { control, usage });
}

/// Appends the event of the value at an index, which becomes a number.
#[inline(always)]
pub(crate) fn push_number(source: &EventSource<'_>, index: usize, value: i64, out: &mut Vec<Event>)
    requires source { IsSource source.now }
    requires index { index < length (usages_of_source source.now) }
    requires room { (usage : UsageValue) → slice_get (usages_of_source source.now) index ≡ Some usage
        → HasSpace out.old (number_event (control_at source.now.item index) usage value) }
    ensures { (usage : UsageValue) → slice_get (usages_of_source source.now) index ≡ Some usage
        → Appends out.old (number_event (control_at source.now.item index) usage value) out.new }
{
    let control = ControlId {
        item: source.item,
        index,
    };
    number_event(control, usage_of(source, index), value, out);
}

/// Appends the event of the value at an index, which becomes null.
#[inline(always)]
pub(crate) fn push_null(source: &EventSource<'_>, index: usize, out: &mut Vec<Event>)
    requires source { IsSource source.now }
    requires index { index < length (usages_of_source source.now) }
    requires room { (usage : UsageValue) → slice_get (usages_of_source source.now) index ≡ Some usage
        → HasSpace out.old (null_event (control_at source.now.item index) usage) }
    ensures { (usage : UsageValue) → slice_get (usages_of_source source.now) index ≡ Some usage
        → Appends out.old (null_event (control_at source.now.item index) usage) out.new }
{
    let control = ControlId {
        item: source.item,
        index,
    };
    null_event(control, usage_of(source, index), out);
}

/// Appends the event of the motion at an index, unless it is 0.
#[inline(always)]
pub(crate) fn push_motion(source: &EventSource<'_>, index: usize, by: i64, out: &mut Vec<Event>)
    requires source { IsSource source.now }
    requires index { index < length (usages_of_source source.now) }
    requires room { (usage : UsageValue) → slice_get (usages_of_source source.now) index ≡ Some usage
        → HasSpace out.old (motion_event (control_at source.now.item index) usage by) }
    ensures { (usage : UsageValue) → slice_get (usages_of_source source.now) index ≡ Some usage
        → Appends out.old (motion_event (control_at source.now.item index) usage by) out.new }
{
    if by != 0 {
        let control = ControlId {
            item: source.item,
            index,
        };
        motion_event(control, usage_of(source, index), by, out);
    }
}
