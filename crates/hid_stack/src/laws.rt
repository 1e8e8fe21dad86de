//! Laws of the definitions that contracts cite.

ghost use Rattle.std.specs.Prelude.{◌≡◌, ◌++◌, List, None, ℕ, Bool, true, false};
ghost use Rattle.std.specs.List.{All};
ghost use Rattle.usb_transact.specs.declared.transaction.Fate.{Fate};
ghost use Rattle.usb_control.specs.Device.{DevControlState};
ghost use Rattle.hid_requests.specs.declared.request.Request.TheVariants.{Clear};
ghost use Rattle.hid_layout.specs.Parsing.{ParsesTo};
ghost use Rattle.hid_snapshots.specs.declared.change.Change.{Change};
ghost use Rattle.hid_device.specs.Core.{CoreState, IsSound, changed_core, configured_core, core_after_ack, core_at_poll, framed_core, halted_core, round_of};
ghost use Rattle.hid_host.specs.Host.{HostDeviceState, cold_host, ready_host};
ghost use Rattle.hid_host.specs.Phase.{IfReady};
ghost use Rattle.hid_host.specs.ResetEvents.{SuitsRound};
ghost use Rattle.hid_bus.specs.declared.step.Step.{Step as BusStep};
ghost use Rattle.hid_bus.specs.declared.step.Delivered.{Delivered};
ghost use Rattle.hid_stack.specs.Laws.{HasSameOrigin, ResultIsUnique, FindsOneControl, AttachesOneDevice, PacketsMakePolls, ForAllRuns, ForAllTransfers, BeginsKeepConsistent, TriesKeepConsistent, RepliesKeepConsistent, OthersKeepConsistent, TriesAreFunctions};
ghost use Rattle.hid_bus.specs.declared.start.Start.{Start};
ghost use Rattle.hid_layout.specs.Layout.{Contents};
ghost use Rattle.hid_device.specs.declared.config.Config.{Config};
ghost use Rattle.hid_stack.specs.Attaching.{CanAttach, member_at_start};
ghost use Rattle.hid_stack.specs.ExpectedToggles.{AllHoldToggles, ExpectsParity, HoldsToggle, HostsExpectParity};
ghost use Rattle.hid_stack.specs.Agreement.{AgreeAtNak, AgreeFromAttach, AgreeIfNakIsReceived, ComeToRest, RestFromAttach, StartsUnpolled};
ghost use Rattle.hid_stack.specs.Headline.{DeliversChanges, DevicesFollowHistories, KeepsToRounds};
ghost use Rattle.hid_stack.specs.Members.{Member, MemberStep, begin_refusal_at, member_after_all};
ghost use Rattle.hid_stack.specs.PendingClear.{IsPendingUntilDone};
ghost use Rattle.hid_stack.specs.Transfers.{BeginsNone, IsClearing, IsEndedByReset, IsUnconcludedOnce, IsWhole};
ghost use Rattle.hid_stack.specs.Reports.{IsWholeOrNothing, KeepsToRound};
ghost use Rattle.hid_stack.specs.Rig.{bus_after_all, deliveries_of_steps, IsIsolated};
ghost use Rattle.hid_stack.specs.BusHistory.{Action, DeviceAction, EndNoRounds, FitsAction, IsItsOwn};
ghost use Rattle.hid_stack.specs.Sums.{AllHaveMotions, ConfiguresBetweenRounds, ConservesMotion, RefusedKeepMotion};
ghost use Rattle.hid_stack.specs.HostInvariant.{IsConsistent, IsConsistentBy, LeavesTransfers, host_with_core};
ghost use Rattle.hid_stack.specs.Trails.{Trail};

pub use hid_bus::laws::{halts_lose_nothing, motion_is_kept, rounds_say_all};
use hid_layout::laws::{accepted_or_refused, one_reading, one_refusal};

/// A step has at most one result.
pub fn one_telling()
    ensures { ResultIsUnique }
{}

/// A usage names one control of a device at most, or none for one cause.
pub fn one_finding()
    ensures { FindsOneControl }
{}

/// A device is attached in one way at most, or refused for one cause, out of memory aside.
pub fn one_attaching()
    ensures { AttachesOneDevice }
{
    one_reading();
    accepted_or_refused();
    one_refusal();
}

/// The packets of a poll, as a fate lets them arrive, agree with the table of polls: how a device and its ready host stand
/// after the poll, its result, and the events that it delivers.
pub fn packets_make_polls()
    ensures { PacketsMakePolls }
{}

/// Each device is independent of the others, over any steps from any state of the bus. One that was just configured delivers
/// the changes between the successive parts that crossed. One without an open round stands as its rounds say, and follows its
/// history.
pub fn devices_are_independent()
    ensures isolated { ForAllRuns IsIsolated }
    ensures headline { (before : List Member) (steps : List BusStep) (old new : List Delivered)
        → new ≡ old ++ deliveries_of_steps before steps → DeliversChanges before steps old new }
    ensures rounds { (before after : List Member) (steps : List BusStep)
        → after ≡ bus_after_all before steps → KeepsToRounds before steps after }
    ensures history { ForAllRuns
        (λ before after steps old new. DevicesFollowHistories before steps after old new) }
{}

/// A device is a function of its attach and its own steps alone, in any list of attaches and steps from an empty bus on,
/// whatever comes before and between: how it stands with its host, and the events under its number, which are those of
/// its history. A try at which memory runs out is one of its steps too: such a try delivers nothing if it ends no round,
/// and it never ends a round of a device that begins without a transfer.
pub fn devices_depend_on_own_steps()
    ensures own { (before : List Action) (m : Member) (since : List Action)
        → IsItsOwn before m since }
    ensures ends { (m : Member) (actions : List DeviceAction)
        → ParsesTo m.descriptor m.layout → m.transfer ≡ None → All FitsAction actions
        → EndNoRounds m actions }
{}

/// The toggle of a host after any steps of its device, transfers, halts, clears and resets too: while it may poll, so
/// is ready with no clear pending, also while the endpoint is halted, it expects the parity of the pieces that
/// crossed since the configuration or the last clear. Every host holds its toggle so from its attach on.
pub fn hosts_expect_parity()
    ensures members { (m : Member) (steps : List MemberStep) → HoldsToggle m → ExpectsParity m steps }
    ensures bus { (before after : List Member) (steps : List BusStep) → AllHoldToggles before
        → after ≡ bus_after_all before steps → HostsExpectParity before steps after }
    ensures attached { (start : Start) (addr : ℕ) (config : Config) (descriptor : List ℕ) (layout : Contents)
        → HoldsToggle (member_at_start start addr config descriptor layout) }
    ensures after { (members : List Member) (steps : List BusStep) → AllHoldToggles members
        → AllHoldToggles (bus_after_all members steps) }
{}

/// Steps of a bus neither lose nor double motion, of each device and control, and every device keeps its motions. One that
/// is refused changes none, also a try that finds no memory for what its request gives.
pub fn motion_sums_up()
    ensures sums { (before later : List Member) (steps : List BusStep) (old new : List Delivered)
        → AllHaveMotions before → ConfiguresBetweenRounds before steps
        → later ≡ bus_after_all before steps → new ≡ old ++ deliveries_of_steps before steps
        → ConservesMotion before later steps old new }
    ensures after { (members : List Member) (steps : List BusStep) → AllHaveMotions members
        → AllHaveMotions (bus_after_all members steps) }
    ensures refused { RefusedKeepMotion }
{}

/// Whatever happens to a device between the tries of a request: both ends stand where its tries lead; a read that is
/// done gave the device's answer as it was fixed at the last SETUP that arrived, cut to what was asked for; a write
/// that is done took effect at the device exactly once, one that failed or runs once at most, and one that was
/// refused never; the try in which it took effect did at the device what the row of the request says, with the bytes
/// that were sent, and nothing else. A configuration befell the device as often as a request for it took effect: once
/// where it is done, also where the host then found no memory. A write that a reset ended took effect once or not at
/// all. While a Clear isn't done its host polls nothing, and where it is done no round is open and both ends begin
/// with DATA0, whatever was lost of it; so too where the Clear failed, and other requests begin and end before one is
/// done.
pub fn transfers_are_whole()
    ensures whole { ForAllTransfers IsWhole }
    ensures unconcluded { ForAllTransfers IsUnconcludedOnce }
    ensures reset { ForAllTransfers (λ m request steps.
        (later : List MemberStep) → BeginsNone later → IsEndedByReset m request steps later) }
    ensures clears { (m : Member) (steps : List MemberStep)
        → ParsesTo m.descriptor m.layout → begin_refusal_at m Clear ≡ None → BeginsNone steps
        → IsClearing m steps }
    ensures pending { (m : Member) (steps : List MemberStep)
        → ParsesTo m.descriptor m.layout → begin_refusal_at m Clear ≡ None
        → IsPendingUntilDone m steps }
{}

/// A report is delivered whole or not at all, and never from two rounds: a poll delivers the part that was fixed as the open
/// round opened exactly where the last of its pieces crosses with it, and nothing before that or where that piece is repeated.
/// Between two pieces anything may happen: changes, frames, polls of which packets are lost, requests and their tries, halts,
/// clears and resets. After each the open round has ended, or it still carries the same part of the same report.
pub fn reports_are_delivered_whole()
    ensures polls { (m : Member) (fate : Fate) → IsWholeOrNothing m fate }
    ensures rounds { (m : Member) (x : MemberStep) → KeepsToRound m x }
{}

/// No step changes what a device was made with.
pub fn devices_stay_as_made()
    ensures { (m : Member) (steps : List MemberStep) → HasSameOrigin m (member_after_all m steps) }
{}

/// A host knows its virtual device: what it read of the configuration is what the device was made with, its layout is the
/// device's, it is ready only while the device is configured, and the transfer that it began last is the one of its
/// request: both ends stand where its tries led, and what was decided is what the row of the request says of the device as it
/// stood at the last SETUP that arrived. It does so from the start, after a reset of the bus too, and whatever
/// happens to the two leaves it so. Nothing that the device answers is refused.
pub fn hosts_know_their_devices()
    // A host that is cold knows its device, and so does a ready one whose device is configured and has its layout.
    ensures cold { (trail : Trail) (addr : ℕ) (control : DevControlState CoreState)
        → IsConsistentBy trail (cold_host addr) control }
    ensures ready { (trail : Trail) (addr : ℕ) (control : DevControlState CoreState)
        → control.requests.is_configured ≡ true
        → IsConsistentBy trail (ready_host addr control.requests.layout) control }

    // A request that begins and each try of it leave that, so does the answer to a poll, and what happens to the device
    // beside its endpoint 0.
    ensures begins { BeginsKeepConsistent }
    ensures steps { TriesKeepConsistent }
    ensures replies { RepliesKeepConsistent }
    ensures meanwhile { OthersKeepConsistent }
{
    one_reading();
    accepted_or_refused();
}

/// Where a host knows its virtual device, a try of the transfer that runs leads both ends on by functions. Where the request
/// is done the host goes on by the table of requests; memory may run out for a layout, or for a view.
pub fn control_steps_are_computed()
    ensures { TriesAreFunctions }
{
    one_reading();
    accepted_or_refused();
}

/// What a device shows of its open round, and of the parts that were fixed last, suits a ready host that knows it: at a reset
/// of the bus, and where a round is aborted, it may be given them.
pub fn rounds_suit_their_hosts()
    ensures { (host : HostDeviceState) (control : DevControlState CoreState)
        → IsSound control.requests → IsConsistent host control → IfReady host.phase (λ known.
        SuitsRound known.layout (round_of control.requests) control.requests.reports.fixed) }
{}

/// What happens to a device beside its endpoint 0 leaves its transfers: changes of its controls, frames, a
/// configuration and a halt without a transfer, and, while no Clear is pending, polls and their acknowledgements.
pub fn devices_leave_transfers()
    ensures changes { (clearing : Bool) (control : DevControlState CoreState) (change : Change)
        → LeavesTransfers clearing control
        (host_with_core control (changed_core control.requests change)) }
    ensures frames { (clearing : Bool) (control : DevControlState CoreState)
        → LeavesTransfers clearing control (host_with_core control (framed_core control.requests)) }
    ensures configured { (clearing : Bool) (control : DevControlState CoreState)
        → LeavesTransfers clearing control
        (host_with_core control (configured_core control.requests)) }
    ensures halted { (clearing : Bool) (control : DevControlState CoreState)
        → LeavesTransfers clearing control (host_with_core control (halted_core control.requests)) }
    ensures polls { (control : DevControlState CoreState)
        → LeavesTransfers false control (host_with_core control (core_at_poll control.requests)) }
    ensures acknowledged { (control : DevControlState CoreState)
        → LeavesTransfers false control (host_with_core control (core_after_ack control.requests)) }
{}

/// No key is left stuck on any bus. After any steps, a device that has nothing to send and its host agree: what is pressed, each
/// value, and no motion is left. If a poll returns NAK, they agree, before that poll and after it. Each device is unpolled when it is
/// attached, ready or cold; so this holds of each device from its attach on, whatever is done to the bus.
pub fn no_key_is_left_stuck()
    ensures steps { (before after : List Member) (steps : List BusStep)
        → after ≡ bus_after_all before steps → AgreeAtNak before steps after }
    ensures received { (before after : List Member) (steps : List BusStep)
        → after ≡ bus_after_all before steps → AgreeIfNakIsReceived before steps after }
    ensures attached { (start : Start) (dev : ℕ) (config : Config) (descriptor : List ℕ) (layout : Contents)
        → CanAttach dev config descriptor layout
        → StartsUnpolled (member_at_start start dev config descriptor layout) }
    ensures since { (acts : List Action) → AgreeFromAttach acts }
{}

/// Devices come to rest on any bus. A device that is left alone after any steps has nothing more to send after as many polls as
/// it needs, if none loses anything, and then it agrees with its host. If at most `most_lost` polls in a row lose something,
/// `most_lost + 1` times as many are enough.
pub fn devices_come_to_rest()
    ensures steps { (most_lost : ℕ) (before after : List Member) (earlier later : List BusStep)
        → after ≡ bus_after_all before (earlier ++ later)
        → ComeToRest most_lost before earlier later after }
    ensures since { (most_lost : ℕ) (acts : List Action) (later : List BusStep)
        → RestFromAttach most_lost acts later }
{}
