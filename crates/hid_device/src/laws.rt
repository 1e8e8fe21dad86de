//! What follows for the two endpoints of a device.
ghost use Rattle.std.specs.Prelude.{◌≡◌, true, false};
ghost use Rattle.hid_snapshots.specs.declared.change.Change.{Change};
ghost use Rattle.usb_packet.specs.declared.packet.Packet.{Packet};
ghost use Rattle.usb_control.specs.TryFunctions.{control_after};
ghost use Rattle.usb_control.specs.Device.{Effect};
ghost use Rattle.hid_device.specs.EndpointIndependence.{LeavesEndpoint, LeavesRounds, LeavesWaits, core_after_abort, effect_aborts_round, effect_sets_configuration, with_halt};
ghost use Rattle.hid_device.specs.Core.{CoreState, IsSound, configured_core};
ghost use Rattle.hid_device.specs.RequestTable.{core_table};
ghost use Rattle.hid_device.specs.Device.{DeviceState, changed_device, core_of, device_after, framed_device, halted_device, is_control, reset_device};
ghost use Rattle.hid_device.specs.Creation.{new_device_with};

/// The endpoints of a device are separate. Whatever a packet does to endpoint 0, by itself or in a host's transfer, the
/// snapshot stays, and polls go on as before unless a configuration, a halt or a clear takes effect. A change and a frame
/// leave endpoint 0 as it was. A packet to the other endpoint and a halt by the device change only what endpoint 0 waits for.
/// After the halt, endpoint 0 reports that endpoint as halted.
pub fn ends_are_apart()
    ensures snapshot { (effect : Effect) (core : CoreState)
        → (control_after core_table effect core).requests.reports.snapshot
        ≡ core.reports.snapshot }
    ensures rounds { (effect : Effect) (core : CoreState)
        → effect_sets_configuration effect core.pending ≡ false
        → effect_aborts_round effect core.pending ≡ false
        → LeavesRounds core (control_after core_table effect core).requests }
    ensures configures { (effect : Effect) (core : CoreState)
        → effect_sets_configuration effect core.pending ≡ true
        → (control_after core_table effect core).requests ≡ configured_core core }
    ensures aborts { (effect : Effect) (core : CoreState)
        → effect_aborts_round effect core.pending ≡ true
        → (control_after core_table effect core).requests ≡ core_after_abort core core.pending }

    ensures polls { (device : DeviceState) (packet : Packet) → is_control device packet ≡ false
        → LeavesEndpoint device (device_after device packet) }
    ensures changes { (device : DeviceState) (change : Change)
        → LeavesWaits device (changed_device device change) }
    ensures frames { (device : DeviceState) → LeavesWaits device (framed_device device) }
    ensures halts { (device : DeviceState) → LeavesEndpoint
        (with_halt device (core_of (halted_device device)).halted) (halted_device device) }
{}

/// After a reset of the bus a device is a new one, except that its controls stay as they were.
pub fn resets_make_new()
    ensures { (device : DeviceState) → IsSound (core_of device)
        → reset_device device ≡ new_device_with device.addr (core_of device).config
        (core_of device).descriptor (core_of device).layout (core_of device).reports.snapshot }
{}
