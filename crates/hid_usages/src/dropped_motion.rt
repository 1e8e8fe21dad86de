//! What changed from one view to another, and the motion of a part that is dropped, in events.

ghost use Rattle.std.specs.Prelude.{◌≡◌, length, pos};
ghost use Rattle.hid_layout.specs.Controls.{items_of};
ghost use Rattle.hid_layout.specs.declared.control.Controls.TheVariants as head;
ghost use Rattle.hid_layout.specs.declared.control.ControlKind.TheVariants as ControlKind;
ghost use Rattle.hid_snapshots.specs.ControlStates.{HasRoom, FitsShown, FitsView};
ghost use Rattle.hid_snapshots.specs.Events.{usages_at};
ghost use Rattle.hid_snapshots.specs.Parts.{IsInput};
ghost use Rattle.hid_snapshots.specs.Snapshots.{state_at};
ghost use Rattle.hid_usages.specs.Appending.{HasSpace, Appends};
ghost use Rattle.hid_usages.specs.Dropping.{motions_in, drop_event, drop_events, drops_in, changes_and_drops_in, all_drops, CanDrop};
ghost use Rattle.hid_usages.specs.Taking.{HasEventRoomAt};

use crate::view_changes::{item_changes, usage_at};
use hid_layout::{ControlId, ControlKind, Controls, Layout, Usage};
use hid_snapshots::{ControlState, Event, Shown, is_of, item_count, state_at};

/// A report whose motion is dropped, with the parts that are shown, and their layout.
#[derive(Clone, Copy)]
pub(crate) struct Dropped<'a> {
    pub(crate) layout: &'a Layout,
    pub(crate) report: usize,
    pub(crate) shown: &'a Shown,
}

/// Appends that a motion was dropped, unless it is 0.
fn drop_event(control: ControlId, usage: Usage, by: i64, out: &mut Vec<Event>)
    requires { HasSpace out.old (drop_event control usage by) }
    ensures { Appends out.old (drop_event control usage by) out.new }
{
    if by != 0 {
        out.push_reserved(Event::Dropped { control, usage, by });
    }
}

/// The motions of an item's part as dropped, by rising index.
fn motion_drops(dropped: &Dropped<'_>, item: usize, count: usize, out: &mut Vec<Event>)
    requires count { count ≡ length (usages_at dropped.now.layout.now item) }
    requires part { HasRoom (head.Elements ControlKind.Relative (pos 0) (pos 0) count)
        (state_at dropped.now.shown.now item) }
    requires room { HasSpace out.old (drop_events item
        (usages_at dropped.now.layout.now item) (motions_in (state_at dropped.now.shown.now item))) }
    ensures { Appends out.old (drop_events item (usages_at dropped.now.layout.now item)
        (motions_in (state_at dropped.now.shown.now item))) out.new }
{
    for index in 0..count {
        let control = ControlId { item, index };
        drop_event(
            control,
            usage_at(dropped.layout, item, index),
            dropped.shown.motion(control),
            out,
        );
    }
}

/// The motions of an item of the report as dropped, by the kind of its controls.
pub(crate) fn item_drops(dropped: &Dropped<'_>, item: usize, out: &mut Vec<Event>)
    requires drops { CanDrop dropped.now item }
    requires room { HasSpace out.old (drops_in dropped.now item) }
    ensures { Appends out.old (drops_in dropped.now item) out.new }
{
    if is_of(dropped.layout, item, dropped.report) {
        match dropped.layout.controls(item) {
            Controls::Elements { kind, count, .. } => match kind {
                ControlKind::Relative => motion_drops(dropped, item, count, out),
                ControlKind::Switch | ControlKind::Value | ControlKind::NullValue => {}
            },
            Controls::None | Controls::Keys { .. } => {}
        }
    }
}

/// The events of one item between two views, and then its dropped motion.
fn item_changes_and_drops(
    dropped: &Dropped<'_>,
    item: usize,
    before: &ControlState,
    after: &ControlState,
    out: &mut Vec<Event>,
)
    requires drops { CanDrop dropped.now item }
    requires before { HasEventRoomAt dropped.now.layout.now item before.now }
    requires after { HasEventRoomAt dropped.now.layout.now item after.now }
    requires room { HasSpace out.old (changes_and_drops_in dropped.now item before.now after.now) }
    ensures { Appends out.old (changes_and_drops_in dropped.now item before.now after.now) out.new }
{
    item_changes(dropped.layout, item, before, after, out);
    item_drops(dropped, item, out);
}

/// The events between two views and the dropped motion, item by item.
pub(crate) fn all_changes_and_drops(
    dropped: &Dropped<'_>,
    before: &[ControlState],
    after: &[ControlState],
    out: &mut Vec<Event>,
)
    requires input { IsInput dropped.now.layout.now dropped.now.report }
    requires before { FitsView (items_of dropped.now.layout.now) before.now }
    requires after { FitsView (items_of dropped.now.layout.now) after.now }
    requires shown { FitsShown (items_of dropped.now.layout.now) dropped.now.shown.now }
    requires room { HasSpace out.old (all_drops dropped.now before.now after.now) }
    ensures { Appends out.old (all_drops dropped.now before.now after.now) out.new }
{
    for i in 0..item_count(dropped.layout) {
        item_changes_and_drops(dropped, i, state_at(before, i), state_at(after, i), out);
    }
}
