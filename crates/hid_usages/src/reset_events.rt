//! What leads from a view back to the initial one, in events.

ghost use Rattle.std.specs.Prelude.{◌≡◌, ◌<◌, length, replicate};
ghost use Rattle.hid_layout.specs.Controls.{items_of};
ghost use Rattle.hid_snapshots.specs.declared.control_state.ControlState.{ControlState as StateValue};
ghost use Rattle.hid_snapshots.specs.ControlStates.{HasRoom, FitsShown, FitsView, blank, blank_state};
ghost use Rattle.hid_snapshots.specs.Events.{element_events, usages_at, value_events};
ghost use Rattle.hid_snapshots.specs.Parts.{IsInput};
ghost use Rattle.hid_snapshots.specs.Views.{changes_between};
ghost use Rattle.hid_usages.specs.Appending.{HasSpace, Appends};
ghost use Rattle.hid_usages.specs.Dropping.{CanDrop, changes_and_drops_in, all_drops_back};
ghost use Rattle.hid_usages.specs.Taking.{HasEventRoomAt, changes_at, blank_at, NoFlagSet, NoFlagSetFor};

use crate::dropped_motion::{Dropped, item_drops};
use crate::view_changes::{push_value_event, releases};
use hid_layout::{Controls, Layout};
use hid_snapshots::{ControlState, Event, Flags, Values, first_value, item_count, state_at};

/// The events of values that all become the same, by rising index.
fn push_values(
    layout: &Layout,
    item: usize,
    before: &Values,
    after: Option<i64>,
    out: &mut Vec<Event>,
)
    requires before { length before.now ≡ length (usages_at layout.now item) }
    requires room { HasSpace out.old (value_events item (usages_at layout.now item) before.now
        (replicate (length before.now) after)) }
    ensures { Appends out.old (value_events item (usages_at layout.now item) before.now
        (replicate (length before.now) after)) out.new }
{
    for index in 0..before.len() {
        push_value_event(layout, item, index, before.get(index), after, out);
    }
}

/// The events of values that become what they were at first.
fn values_back(
    layout: &Layout,
    item: usize,
    before: &Values,
    controls: &Controls,
    out: &mut Vec<Event>,
)
    requires has_room { HasRoom controls.now (StateValue.Values before.now) }
    requires before { length before.now ≡ length (usages_at layout.now item) }
    requires room { HasSpace out.old (element_events item (usages_at layout.now item)
        (StateValue.Values before.now) (blank_state controls.now)) }
    ensures { Appends out.old (element_events item (usages_at layout.now item)
        (StateValue.Values before.now) (blank_state controls.now)) out.new }
{
    match controls {
        Controls::Elements {
            kind,
            least,
            greatest,
            ..
        } => {
            let first = first_value(*kind, least, greatest);
            push_values(layout, item, before, first, out);
        }
        Controls::None | Controls::Keys { .. } => {}
    }
}

/// The events of one item until its control state is the initial one: each pressed place is released, and each value becomes the
/// first one. None of the flags that are passed is set.
fn item_changes_back(
    layout: &Layout,
    item: usize,
    before: &ControlState,
    none: &Flags,
    out: &mut Vec<Event>,
)
    requires listed { item < length layout.now.items }
    requires before { HasEventRoomAt layout.now item before.now }
    requires none { NoFlagSetFor before.now none.now }
    requires room { HasSpace out.old
        (changes_at layout.now item before.now (blank_at layout.now item)) }
    ensures { Appends out.old (changes_at layout.now item before.now (blank_at layout.now item))
        out.new }
{
    match before {
        ControlState::Switches(flags) => releases(layout, item, flags, none, out),
        ControlState::Values(values) => values_back(
            layout,
            item,
            values,
            &layout.controls(item),
            out,
        ),
        ControlState::Absent | ControlState::Motions(_) | ControlState::RollOver(_) => {}
    }
}

/// The events until a view is the initial one, item by item.
pub(crate) fn all_changes_back(
    layout: &Layout,
    before: &[ControlState],
    none: &Flags,
    out: &mut Vec<Event>,
)
    requires before { FitsView (items_of layout.now) before.now }
    requires none { NoFlagSet before.now none.now }
    requires room { HasSpace out.old (changes_between (items_of layout.now) before.now
        (blank (items_of layout.now))) }
    ensures { Appends out.old (changes_between (items_of layout.now) before.now
        (blank (items_of layout.now))) out.new }
{
    for i in 0..item_count(layout) {
        item_changes_back(layout, i, state_at(before, i), none, out);
    }
}

/// The events of one item until its control state is the initial one, and then its dropped motion.
fn item_changes_back_and_drops(
    dropped: &Dropped<'_>,
    item: usize,
    before: &ControlState,
    none: &Flags,
    out: &mut Vec<Event>,
)
    requires drops { CanDrop dropped.now item }
    requires before { HasEventRoomAt dropped.now.layout.now item before.now }
    requires none { NoFlagSetFor before.now none.now }
    requires room { HasSpace out.old (changes_and_drops_in dropped.now item before.now
        (blank_at dropped.now.layout.now item)) }
    ensures { Appends out.old (changes_and_drops_in dropped.now item before.now
        (blank_at dropped.now.layout.now item)) out.new }
{
    item_changes_back(dropped.layout, item, before, none, out);
    item_drops(dropped, item, out);
}

/// The events until a view is the initial one and the dropped motion, item by item.
pub(crate) fn all_changes_back_and_drops(
    dropped: &Dropped<'_>,
    before: &[ControlState],
    none: &Flags,
    out: &mut Vec<Event>,
)
    requires input { IsInput dropped.now.layout.now dropped.now.report }
    requires before { FitsView (items_of dropped.now.layout.now) before.now }
    requires none { NoFlagSet before.now none.now }
    requires shown { FitsShown (items_of dropped.now.layout.now) dropped.now.shown.now }
    requires room { HasSpace out.old (all_drops_back dropped.now before.now) }
    ensures { Appends out.old (all_drops_back dropped.now before.now) out.new }
{
    for i in 0..item_count(dropped.layout) {
        item_changes_back_and_drops(dropped, i, state_at(before, i), none, out);
    }
}
