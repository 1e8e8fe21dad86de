//! A reset of the bus of one device (USB 2.0, 7.1.7.5 and 9.1.1.3).
ghost use Rattle.std.specs.Prelude.{◌≡◌, ◌≤◌, length, vec_capacity};
ghost use Rattle.hid_layout.specs.Controls.{items_of, max_events};
ghost use Rattle.hid_bus.specs.DeviceHistory.{reset_events};
ghost use Rattle.hid_device.specs.Device.{core_of};
ghost use Rattle.hid_stack.specs.HostInvariant.{IsConsistent};
ghost use Rattle.hid_stack.specs.Members.{Resets, member_after};
ghost use Rattle.hid_stack.specs.Slot.{AreConsistentEnds, link_of, pair_member};

use crate::slot::is_sound;
use hid_device::Device;
use hid_host::HostDevice;
use hid_snapshots::Event;

/// Resets a device and its own host. The events that lead back to the initial view are appended, and the motion of an open
/// round that hasn't crossed as dropped.
pub(crate) fn reset_pair(device: &mut Device, host: &mut HostDevice, events: &mut Vec<Event>)
    requires together { AreConsistentEnds device.old host.old.clearing host.old.phase }
    requires knows { IsConsistent host.old device.old.control }
    requires room { max_events (items_of (core_of device.old).layout) ≤ vec_capacity events.old }
    ensures after { pair_member device.new host.new
        ≡ member_after (pair_member device.old host.old) Resets }
    ensures together { AreConsistentEnds device.new host.new.clearing host.new.phase }
    ensures knows { IsConsistent host.new device.new.control }
    ensures home { (host.new.addr ≡ host.old.addr) × (device.new.addr ≡ device.old.addr) }
    ensures layout { (core_of device.new).layout ≡ (core_of device.old).layout }
    ensures events { events.new.items ≡ reset_events (items_of (core_of device.old).layout)
        (link_of (core_of device.old) host.old.phase) }
    ensures few { length events.new.items ≤ max_events (items_of (core_of device.old).layout) }
    ensures capacity { vec_capacity events.new ≡ vec_capacity events.old }
{
    events.clear();
    host.reset(device.open_round(), device.piece(), device.fixed(), events);
    device.reset();

    // For the prover: what holds of every device.
    is_sound(device);
}
