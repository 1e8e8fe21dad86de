//! Events as records.

ghost use Rattle.std.specs.Prelude.{◌≡◌, ◌≤◌, ◌++◌, length, map, drop};
ghost use Rattle.hidstack_session.specs.Events.{event_record, event_of};

use hid_layout::{ControlId, Usage};
use hid_usages::Event;

/// A switch or a key that was held is up.
pub const UP: u32 = 0;

/// A switch or a key that was up is held.
pub const DOWN: u32 = 1;

/// An absolute control has another value.
pub const VALUE: u32 = 2;

/// An absolute control has no value any more.
pub const NULL: u32 = 3;

/// A relative control moved.
pub const MOTION: u32 = 4;

/// A motion that a reset, a halt or a clear dropped.
pub const DROPPED: u32 = 5;

/// An event of a report.
#[repr(C)]
#[derive(Clone, Copy, Debug)]
pub struct HidEvent {
    /// The value, the motion, 1 of a press, else 0.
    pub value: i64,
    /// The place of its control's item among the listed items.
    pub item: u64,
    /// The place of its control in the item: that of its element, or its place in an array's usage list.
    pub index: u64,
    /// The page of its control's usage.
    pub page: u16,
    /// The ID of that usage.
    pub id: u16,
    /// One of the six above, from [`UP`] to [`DROPPED`].
    pub kind: u32,
}

/// The record of an event.
fn event_record(kind: u32, control: ControlId, usage: Usage, value: i64) -> HidEvent
    ensures { result ≡ event_record kind control usage value }
{
    HidEvent {
        value,
        item: control.item as u64,
        index: control.index as u64,
        page: usage.page,
        id: usage.id,
        kind,
    }
}

/// The record of an event.
pub fn event_of(event: &Event) -> HidEvent
    ensures { result ≡ event_of event.now }
{
    match *event {
        Event::Up { control, usage } => event_record(UP, control, usage, 0),
        Event::Down { control, usage } => event_record(DOWN, control, usage, 1),
        Event::Value {
            control,
            usage,
            value,
        } => event_record(VALUE, control, usage, value),
        Event::Null { control, usage } => event_record(NULL, control, usage, 0),
        Event::Motion { control, usage, by } => event_record(MOTION, control, usage, by),
        Event::Dropped { control, usage, by } => event_record(DROPPED, control, usage, by),
    }
}

/// Writes the records of events over the first places of a table.
pub fn put_events(events: &[Event], out: &mut [HidEvent])
    requires { length events.now ≤ length out.old }
    ensures { out.new ≡ map event_of events.now ++ drop (length events.now) out.old }
{
    for i in 0..events.len() {
        out[i] = event_of(&events[i]);
    }
}
