//! What follows where a driver and a gadget are joined.
ghost use Rattle.std.specs.Prelude.{◌≡◌, ◌⊎◌, ℕ, List, [], map, Option, Result};
ghost use Rattle.hid_layout.specs.Controls.{items_of};
ghost use Rattle.hid_usages.specs.Receiving.{ReceiverState};
ghost use Rattle.hid_interfaces.specs.declared.interface.InterfaceInfo.{InterfaceInfo};
ghost use Rattle.usb_control.specs.declared.setup.Setup.{Setup};
ghost use Rattle.hid_bus.specs.ReportState.{no_idle};
ghost use Rattle.hid_bus.specs.Convergence.{AreSendable};
ghost use Rattle.hid_bus.specs.Rounds.{OwnStep, events_of_epoch};
ghost use Rattle.hid_bus.specs.DeviceHistory.{AreWithinEpoch, steps_as_events};
ghost use Rattle.hid_device.specs.Core.{CoreState, IsSound};
ghost use Rattle.hid_driver.specs.declared.ask.Ask.{Ask};
ghost use Rattle.hid_driver.specs.declared.fault.DriverFault.{DriverFault};
ghost use Rattle.hid_driver.specs.declared.outcome.DriverEvent.{DriverEvent};
ghost use Rattle.hid_driver.specs.declared.state.DriverState.TheVariants.{Asked};
ghost use Rattle.hid_driver.specs.declared.state.Moved.{Moved};
ghost use Rattle.hid_driver.specs.Driver.{DriverValue, driver_after_ask};
ghost use Rattle.hid_driver.specs.Pipe.{event_of};
ghost use Rattle.hid_driver.specs.VirtualDevices.{ready_for, virtual_interface};
ghost use Rattle.hid_gadget.specs.ReceivedReports.{GadgetStep, IsFresh, Transfers, bus_events, core_after_step, core_after_steps, events_of_crossed};
ghost use Rattle.hid_loopback.specs.BringUp.{core_brought_up, device_of};
ghost use Rattle.hid_loopback.specs.ControlTransfers.{MakesTransfer};
ghost use Rattle.hid_loopback.specs.Runs.{Delivers, DriverAgrees, DriverComesToRest, IsBeside, IsQuiet, Runs};

/// Once a driver is up beside a gadget, its events are the changes between the reports of the gadget's rounds that crossed, in
/// order, none twice: for every list of changes, frames, interrupt transfers with any room, and control transfers that
/// neither configure the gadget nor halt or clear its endpoint, as those that the driver asks for ([`asks_are_quiet`]).
pub fn events_cross_once()
    ensures headline { (core : CoreState) (steps : List GadgetStep) (later : DriverValue)
        (events : List DriverEvent) → IsSound core → AreWithinEpoch (bus_events (core_brought_up core) steps)
        → Runs (core_brought_up core) steps (ready_for (device_of core) core.layout) later events
        → events ≡ map (event_of 0) (events_of_crossed (items_of core.layout) core.reports.snapshot
        (no_idle core.reports.idle) (bus_events (core_brought_up core) steps)) }
    // Where no idle time is set, they are the events of the schedule of the gadget's own steps.
    ensures schedule { (core : CoreState) (steps : List GadgetStep) (later : DriverValue)
        (events : List DriverEvent) (own : List OwnStep) → IsSound core
        → bus_events (core_brought_up core) steps ≡ steps_as_events own
        → Runs (core_brought_up core) steps (ready_for (device_of core) core.layout) later events
        → events ≡ map (event_of 0) (events_of_epoch (items_of core.layout) core.reports.snapshot
        (no_idle core.reports.idle) own) }
    // No key is left stuck: if an interrupt transfer would return `Nothing` after these steps, the driver's view has what is
    // pressed at the gadget.
    ensures agrees { (core : CoreState) (steps : List GadgetStep) (later : DriverValue)
        (events : List DriverEvent) → IsSound core → AreWithinEpoch (bus_events (core_brought_up core) steps)
        → Runs (core_brought_up core) steps (ready_for (device_of core) core.layout) later events
        → DriverAgrees (core_after_steps (core_brought_up core) steps)
        (virtual_interface (device_of core)) later }
    // Once nothing changes after these steps, both come to rest, and the driver's view has what is pressed at the gadget, after as
    // many packets as the gadget needs.
    ensures rests { (core : CoreState) (earlier steps : List GadgetStep) (driver later : DriverValue)
        (events more : List DriverEvent) → IsSound core
        → AreSendable (items_of core.layout) core.reports.snapshot
        → AreWithinEpoch (bus_events (core_brought_up core) earlier)
        → Runs (core_brought_up core) earlier (ready_for (device_of core) core.layout) driver events
        → DriverComesToRest (core_after_steps (core_brought_up core) earlier)
        (virtual_interface (device_of core)) steps driver later more }
    // The gadget was just configured then, with no idle time, and its snapshot is as it was.
    ensures fresh { (core : CoreState) → IsSound core
        → IsFresh (core_brought_up core) core.reports.snapshot (no_idle core.reports.idle) }
    // So it goes on from any open round, where both stand beside one another, as they do after it.
    ensures given { (core : CoreState) (info : InterfaceInfo) (receiving : ReceiverState)
        (steps : List GadgetStep) (driver later : DriverValue) (events : List DriverEvent)
        → IsBeside core info receiving driver → AreWithinEpoch (bus_events core steps)
        → Runs core steps driver later events → Delivers core info receiving steps later events }
{}

/// What a program asks of a driver leaves the driver's interfaces, and gives no event: so `Runs` has it before each step, and
/// after the last.
pub fn asks_are_quiet()
    ensures ask { (driver : DriverValue) (place : ℕ) (ask : Ask)
        → IsQuiet driver (driver_after_ask driver place ask) [] }
    // So it is where the transfer of what was asked is made. The gadget takes that transfer as a step, or stays.
    ensures transfer { (driver later : DriverValue) (core after : CoreState) (setup : Setup)
        (result : Result (Option Moved) DriverFault) → driver.state ≡ Asked setup
        → MakesTransfer driver core result later after → IsQuiet driver later []
        × ((after ≡ core) ⊎ (after ≡ core_after_step core (Transfers setup driver.asked))) }
{}
