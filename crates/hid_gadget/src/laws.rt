//! What follows of whole transfers.
ghost use Rattle.std.specs.Prelude.{◌≡◌, ◌≢◌, ◌<◌, ◌≤◌, ◌++◌, ℕ, List, [], length, true, false, Some, None, Result};
ghost use Rattle.hid_report_descriptor.specs.declared.limits.TheConstants.{MAX_REPORT_BYTES};
ghost use Rattle.hid_layout.specs.Layout.{Contents};
ghost use Rattle.hid_layout.specs.Controls.{items_of};
ghost use Rattle.hid_layout.specs.Reports.{report_bytes};
ghost use Rattle.hid_snapshots.specs.declared.control_state.ControlState.{ControlState};
ghost use Rattle.hid_snapshots.specs.declared.event.Event.{Event};
ghost use Rattle.hid_snapshots.specs.declared.fault.ReportFault.{ReportFault};
ghost use Rattle.hid_snapshots.specs.ControlStates.{blank};
ghost use Rattle.hid_usages.specs.Receiving.{ReceiverState, events_of_report, view_after_report, without_collected};
ghost use Rattle.hid_usages.specs.Taking.{TakesReport};
ghost use Rattle.usb_control.specs.declared.setup.Setup.{Setup as Request};
ghost use Rattle.usb_control.specs.declared.device.Stage.{Stage};
ghost use Rattle.usb_control.specs.declared.device.LastPacket.{LastPacket};
ghost use Rattle.usb_control.specs.SetupBytes.{IsEncoded, reads};
ghost use Rattle.usb_control.specs.TryFunctions.{Table};
ghost use Rattle.hid_bus.specs.Rounds.{OwnStep, events_of_epoch};
ghost use Rattle.hid_bus.specs.DeviceHistory.{AreWithinEpoch, steps_as_events};
ghost use Rattle.hid_device.specs.Core.{CoreState, IsSound, core_at_poll};
ghost use Rattle.hid_device.specs.RequestTable.{core_table};
ghost use Rattle.hid_gadget.specs.WholeTransfers.{IsOfTries, after_transfer};
ghost use Rattle.hid_gadget.specs.WholeReports.{IsOfPolls, IsTakenWhole, TakesNothing, report_result};
ghost use Rattle.hid_gadget.specs.declared.outcomes.Poll.{Poll};
ghost use Rattle.hid_gadget.specs.ReceivedReports.{AreInStep, Asks, GadgetStep, GivesEvents, IsFresh, bus_events, events_of_crossed, events_received, new_receiver, set_configuration_1};
ghost use Rattle.hid_gadget.specs.Agreement.{AgreesAfterSteps, RestsAfterAsMany, RestsAfterTransfers, packets_at};
ghost use Rattle.hid_gadget.specs.ReadReports.{AreWhole, HoldsEach, ReadsAlike, events_read, receiver_of};

/// A control transfer of which nothing is lost is the tries of its pieces: after as many of them as it needs, wherever
/// endpoint 0 stood, the host has what the transfer gives, or got STALL, and what answers requests is as after the transfer.
#[tactic(auto, using(crate::proofs::TransferLemmas::of_tries))]
pub fn transfers_are_tries<R>()
    ensures { (table : Table R) (old : R) (stage : Stage) (last_packet : LastPacket)
        (setup : Request) (sends : List ℕ) → IsEncoded setup
        → (reads setup ≡ false → length sends ≡ setup.length)
        → IsOfTries table old stage last_packet setup sends (after_transfer table old setup sends) }
{}

/// An interrupt transfer is its polls, of which nothing is lost, where it is done: what it gives is the data that they bring.
/// Else it is one poll: one that is answered with NAK or STALL, or whose data have no room, and are lost.
pub fn reports_are_polls()
    ensures { (core : CoreState) (room : ℕ) → IsSound core → core.is_configured ≡ true
        → IsOfPolls core room }
{}

/// A report is taken whole where its room is as long: the bytes are those of the part that was fixed as its round opened, and
/// the round is closed.
pub fn reports_are_whole()
    ensures { (core : CoreState) (room r : ℕ) → IsSound core → core.is_configured ≡ true → core.current ≡ None
        → (core_at_poll core).current ≡ Some r → report_bytes core.layout r ≤ room → IsTakenWhole core room r }
{}

/// A transfer whose room is too small takes nothing: another one after it, with any room, is as if it hadn't been, and one with
/// room for the piece that goes out takes that.
pub fn pieces_fit()
    ensures { (core : CoreState) (room later : ℕ) → report_result core room ≡ Poll.TooSmall
        → TakesNothing core room later }
{}

/// A `Receiver` of a gadget's reports gives the events of the device's rounds, whatever room each transfer has: pieces that come
/// alone are kept until their report has its last byte, and a transfer whose room is too small gives it nothing. Both stand
/// together from any open round on. Between the transfers there may be changes, frames, and control transfers that neither
/// configure the device nor halt or clear its endpoint; no halt by the device and no reset. From SET_CONFIGURATION on, with
/// a new receiver, the events are those of the rounds that cross: the changes between their parts, in order, none twice.
pub fn receivers_give_events()
    ensures given { (core : CoreState) (steps : List GadgetStep) (receiving : ReceiverState)
        → AreInStep core receiving → AreWithinEpoch (bus_events core steps)
        → GivesEvents core steps receiving }
    ensures headline { (core : CoreState) (snapshot : List ControlState) (idle : List ℕ)
        (steps : List GadgetStep) → IsFresh core snapshot idle → AreWithinEpoch (bus_events core steps)
        → events_received core steps (new_receiver core.layout)
        ≡ events_of_crossed (items_of core.layout) snapshot idle (bus_events core steps) }
    // Where no idle time is set, they are the events of the schedule of its own steps.
    ensures schedule { (core : CoreState) (snapshot : List ControlState) (idle : List ℕ)
        (steps : List GadgetStep) (own : List OwnStep) → IsFresh core snapshot idle
        → bus_events core steps ≡ steps_as_events own
        → events_received core steps (new_receiver core.layout)
        ≡ events_of_epoch (items_of core.layout) snapshot idle own }
    // No key is left stuck: if an interrupt transfer returns `Nothing` after these steps, the receiver has what is pressed.
    ensures agrees { (core : CoreState) (snapshot : List ControlState) (idle : List ℕ)
        (steps : List GadgetStep) → AgreesAfterSteps core snapshot idle steps }
    // Once nothing changes, the gadget comes to rest, and the receiver has what is pressed, after as many packets as it needs.
    ensures rests { (core : CoreState) (snapshot : List ControlState) (idle : List ℕ)
        (earlier later : List GadgetStep)
        → RestsAfterTransfers core snapshot idle earlier later }
    // A transfer whose room isn't too small is one packet at least.
    ensures each { (core : CoreState) (room : ℕ) → core.halted ≡ false
        → report_result core room ≢ Poll.TooSmall → 0 < packets_at core (Asks room) }
    // So as many transfers as packets are enough, if no room is too small.
    ensures enough { (core : CoreState) (snapshot : List ControlState) (idle : List ℕ)
        (earlier : List GadgetStep) (rooms : List ℕ)
        → RestsAfterAsMany core snapshot idle earlier rooms }
    // A gadget whose host just configured it is one of the headline, and in step with a new receiver.
    ensures fresh { (core : CoreState) → IsSound core
        → IsFresh (after_transfer core_table core set_configuration_1 [])
        core.reports.snapshot core.reports.idle }
    ensures new { (core : CoreState) (snapshot : List ControlState) (idle : List ℕ)
        → IsFresh core snapshot idle → AreInStep core (new_receiver core.layout) }
    // Where a round ended otherwise, as by a halt, a clear or a configuration, a receiver that forgets what came goes on.
    ensures again { (core later : CoreState) (receiving : ReceiverState) → AreInStep core receiving
        → IsSound later → later.is_configured ≡ true → later.layout ≡ core.layout → later.current ≡ None
        → AreInStep later (without_collected receiving) }
{}

/// A `Reader` does as well as a receiver where each transfer has room for the whole report and begins without an open round: it
/// reads each report as it comes, and gives the same events.
pub fn reports_give_events()
    ensures given { (core : CoreState) (steps : List GadgetStep) (view : List ControlState)
        → AreInStep core (receiver_of core.layout view) → core.current ≡ None
        → AreWhole core.layout steps → AreWithinEpoch (bus_events core steps)
        → ReadsAlike core steps view }
    ensures headline { (core : CoreState) (snapshot : List ControlState) (idle : List ℕ)
        (steps : List GadgetStep) → IsFresh core snapshot idle → AreWhole core.layout steps
        → AreWithinEpoch (bus_events core steps)
        → events_read core steps (blank (items_of core.layout))
        ≡ events_of_crossed (items_of core.layout) snapshot idle (bus_events core steps) }
    // A room of 256 bytes holds each report.
    ensures enough { (core : CoreState) (room : ℕ) → IsSound core → MAX_REPORT_BYTES ≤ room
        → HoldsEach core.layout room }
    // What a reader takes of the bytes of a report is what is read of them here.
    ensures taken { (layout : Contents) (bytes : List ℕ) (view after : List ControlState)
        (out told : List Event) (result : Result (Unit {0}) ReportFault)
        → TakesReport layout bytes view out result after told
        → (after ≡ view_after_report layout bytes view)
        × (told ≡ out ++ events_of_report layout bytes view) }
{}
