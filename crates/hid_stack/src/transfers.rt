//! The tries of a host's transfer with its device, and what goes with a round that one of them ends (USB 2.0, 8.5.3, 9.4.5 and
//! 9.4.9).
//!
//! A transfer is given the device's endpoint 0 itself: its tokens carry the address of the host, which is the device's (`home`).
ghost use Rattle.std.specs.Prelude.{◌≡◌, ◌≤◌, false, length, vec_capacity, IfSome};
ghost use Rattle.hid_layout.specs.Controls.{items_of, max_events};
ghost use Rattle.hid_snapshots.specs.Parts.{IsInput};
ghost use Rattle.hid_device.specs.Core.{round_of};
ghost use Rattle.hid_device.specs.Device.{core_of};
ghost use Rattle.hid_host.specs.Host.{may_abort_round, running};
ghost use Rattle.hid_stack.specs.HostInvariant.{IsConsistent};
ghost use Rattle.hid_stack.specs.Members.{events_of_event_if, try_bus_event};
ghost use Rattle.hid_stack.specs.Slot.{AreConsistentEnds, TriesOnPair, link_of, pair_member};
ghost use Rattle.hid_stack.specs.StepResult.{awaited_of, drops_after_try};
ghost use Rattle.hid_stack.specs.Sums.{AbortsByRequest, IsBetween};

use crate::laws::{control_steps_are_computed, hosts_know_their_devices, rounds_suit_their_hosts};
use crate::slot::is_sound;
use hid_device::Device;
use hid_host::{HostDevice, StackFault};
use hid_snapshots::Event;
use usb_control::Progress;
use usb_transact::Fate;

/// A try of the transfer of a host. If it ends the open round of the device, the motion that the host hasn't got is appended
/// as dropped.
pub(crate) fn control_pair(
    fate: Fate,
    device: &mut Device,
    host: &mut HostDevice,
    events: &mut Vec<Event>,
) -> Result<Progress, StackFault>
    requires together { AreConsistentEnds device.old host.old.clearing host.old.phase }
    requires knows { IsConsistent host.old device.old.control }
    requires home { host.old.addr ≡ device.old.addr }
    requires room { max_events (items_of (core_of device.old).layout) ≤ vec_capacity events.old }
    ensures tries { TriesOnPair fate (pair_member device.old host.old)
        (running host.old.transfer) result
        (pair_member device.new host.new) }
    ensures between { IsBetween (link_of (core_of device.old) host.old.phase)
        (try_bus_event fate (pair_member device.old host.old) (running host.old.transfer)) }
    ensures aborts { AbortsByRequest fate (pair_member device.old host.old)
        (running host.old.transfer) }
    ensures together { AreConsistentEnds device.new host.new.clearing host.new.phase }
    ensures knows { IsConsistent host.new device.new.control }
    ensures home { (host.new.addr ≡ host.old.addr) × (device.new.addr ≡ device.old.addr) }
    ensures layout { (core_of device.new).layout ≡ (core_of device.old).layout }
    ensures events { events.new.items ≡ events_of_event_if (items_of (core_of device.old).layout)
        (link_of (core_of device.old) host.old.phase)
        (try_bus_event fate (pair_member device.old host.old) (running host.old.transfer)) }
    ensures none { may_abort_round (running host.old.transfer) ≡ false
        → length events.new.items ≡ 0 }
    ensures few { length events.new.items ≤ max_events (items_of (core_of device.old).layout) }
    ensures capacity { vec_capacity events.new ≡ vec_capacity events.old }
{
    // For the prover: what a host knows of its device, and that a try is a function of both ends.
    hosts_know_their_devices();
    control_steps_are_computed();

    let awaited = awaited_round(device, host);
    let result = host.control_step(device.control(), fate);
    // For the prover: what holds of every device.
    is_sound(device);

    push_dropped_motion(awaited, device, host, events);
    result
}

/// The report of the open round of a device, where its host hasn't got all of its data.
fn awaited_round(device: &Device, host: &HostDevice) -> Option<usize>
    requires together { AreConsistentEnds device.now host.now.clearing host.now.phase }
    requires knows { IsConsistent host.now device.now.control }
    ensures awaited { result ≡ awaited_of (link_of (core_of device.now) host.now.phase) }
    ensures input { IfSome result (λ report. IsInput (core_of device.now).layout report) }
{
    // For the prover: what holds of every device, and that its open round suits its host.
    rounds_suit_their_hosts();
    is_sound(device);

    host.awaited_report(device.open_round(), device.piece())
}

/// Appends what a try dropped: the motion of the round that was awaited before it, if no round is open any more.
fn push_dropped_motion(
    awaited: Option<usize>,
    device: &Device,
    host: &HostDevice,
    events: &mut Vec<Event>,
)
    requires together { AreConsistentEnds device.now host.now.clearing host.now.phase }
    requires input { IfSome awaited (λ report. IsInput (core_of device.now).layout report) }
    requires room { max_events (items_of (core_of device.now).layout) ≤ vec_capacity events.old }
    ensures events { events.new.items ≡ drops_after_try awaited (round_of (core_of device.now))
        host.now.phase (core_of device.now).reports.fixed }
    ensures few { length events.new.items ≤ max_events (items_of (core_of device.now).layout) }
    ensures capacity { vec_capacity events.new ≡ vec_capacity events.old }
{
    events.clear();
    match (awaited, device.open_round()) {
        (Some(report), None) => host.report_drops(report, device.fixed(), events),
        (Some(_), Some(_)) | (None, _) => {}
    }
}
