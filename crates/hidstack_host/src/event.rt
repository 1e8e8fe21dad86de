//! The events of a driver as records.
ghost use Rattle.std.specs.Prelude.{◌≡◌, ◌≤◌, ◌++◌, length, map, drop};
ghost use Rattle.hid_driver.specs.Pipe.{event_of};
ghost use Rattle.hidstack_host.specs.Events.{host_event};

use hid_driver::{DriverEvent, Event};
use hidstack_session::{HidEvent, event_of};

/// An event of an interface.
#[repr(C)]
#[derive(Clone, Copy, Debug)]
pub struct HidHostEvent {
    /// What happened to one of its controls.
    pub event: HidEvent,
    /// The place of the interface.
    pub interface: u64,
}

/// The record of an event of an interface.
pub fn host_event(event: &DriverEvent) -> HidHostEvent
    ensures { result ≡ host_event event.now }
{
    HidHostEvent {
        event: event_of(&event.event),
        interface: event.interface as u64,
    }
}

/// Writes the records of the events of an interface over the first places of a table.
pub fn put_interface_events(interface: usize, events: &[Event], out: &mut [HidHostEvent])
    requires { length events.now ≤ length out.old }
    ensures { out.new ≡ map host_event (map (event_of interface) events.now) ++ drop (length events.now) out.old }
{
    for i in 0..events.len() {
        out[i] = host_event(&DriverEvent {
            interface,
            event: events[i],
        });
    }
}

/// Writes the records of events over the first places of a table.
pub fn put_host_events(events: &[DriverEvent], out: &mut [HidHostEvent])
    requires { length events.now ≤ length out.old }
    ensures { out.new ≡ map host_event events.now ++ drop (length events.now) out.old }
{
    for i in 0..events.len() {
        out[i] = host_event(&events[i]);
    }
}
