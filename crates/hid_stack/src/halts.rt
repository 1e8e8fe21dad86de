//! A halt of the endpoint by the device itself, and what goes with the round that it ends (USB 2.0, 9.4.5).
ghost use Rattle.std.specs.Prelude.{◌≡◌, ◌≤◌, length, vec_capacity};
ghost use Rattle.hid_layout.specs.Controls.{items_of, max_events};
ghost use Rattle.hid_bus.specs.DeviceHistory.{abort_events};
ghost use Rattle.hid_device.specs.Device.{core_of};
ghost use Rattle.hid_stack.specs.HostInvariant.{IsConsistent};
ghost use Rattle.hid_stack.specs.Members.{Halts, events_of_event_if, halt_bus_event_of, member_after};
ghost use Rattle.hid_stack.specs.Slot.{AreConsistentEnds, link_of, pair_member};

use crate::laws::{devices_leave_transfers, hosts_know_their_devices, rounds_suit_their_hosts};
use crate::slot::is_sound;
use hid_device::Device;
use hid_host::HostDevice;
use hid_snapshots::Event;

/// Appends what is lost when the open round of a device is ended: the motion of its part as dropped, if it hasn't crossed.
fn drop_aborted_motion(device: &Device, host: &HostDevice, events: &mut Vec<Event>)
    requires together { AreConsistentEnds device.now host.now.clearing host.now.phase }
    requires knows { IsConsistent host.now device.now.control }
    requires room { max_events (items_of (core_of device.now).layout) ≤ vec_capacity events.old }
    ensures events { events.new.items ≡ abort_events (items_of (core_of device.now).layout)
        (link_of (core_of device.now) host.now.phase) }
    ensures few { length events.new.items ≤ max_events (items_of (core_of device.now).layout) }
    ensures capacity { vec_capacity events.new ≡ vec_capacity events.old }
{
    // For the prover: what holds of every device, and that its open round suits its host.
    is_sound(device);
    rounds_suit_their_hosts();

    events.clear();
    host.drop_aborted_motion(device.open_round(), device.piece(), device.fixed(), events);
}

/// A device halts its endpoint by itself. The motion of an open round that hasn't crossed is dropped.
pub(crate) fn halt_pair(device: &mut Device, host: &HostDevice, events: &mut Vec<Event>)
    requires together { AreConsistentEnds device.old host.now.clearing host.now.phase }
    requires knows { IsConsistent host.now device.old.control }
    requires room { max_events (items_of (core_of device.old).layout) ≤ vec_capacity events.old }
    ensures after { pair_member device.new host.now
        ≡ member_after (pair_member device.old host.now) Halts }
    ensures together { AreConsistentEnds device.new host.now.clearing host.now.phase }
    ensures knows { IsConsistent host.now device.new.control }
    ensures home { device.new.addr ≡ device.old.addr }
    ensures layout { (core_of device.new).layout ≡ (core_of device.old).layout }
    ensures events { events.new.items ≡ events_of_event_if (items_of (core_of device.old).layout)
        (link_of (core_of device.old) host.now.phase)
        (halt_bus_event_of (core_of device.old).is_configured) }
    ensures few { length events.new.items ≤ max_events (items_of (core_of device.old).layout) }
    ensures capacity { vec_capacity events.new ≡ vec_capacity events.old }
{
    // For the prover: a halt leaves what a host knows of its device, and the transfers of both.
    hosts_know_their_devices();
    devices_leave_transfers();

    drop_aborted_motion(device, host, events);
    device.halt();

    // For the prover: what holds of every device.
    is_sound(device);
}
