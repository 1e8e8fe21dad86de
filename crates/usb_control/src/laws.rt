//! What follows for whole transfers, and for lists of packets, from what single calls say.
ghost use Rattle.std.specs.Prelude.{◌≡◌, ◌↔◌, ℕ, List, [], Option, length, take, unwrap_or, true, false};
ghost use Rattle.std.specs.List.{concat};
ghost use Rattle.usb_packet.specs.declared.packet.Packet.{Packet};
ghost use Rattle.usb_transact.specs.declared.transaction.Fate.{Fate};
ghost use Rattle.usb_control.specs.declared.setup.Setup.{Setup as Request};
ghost use Rattle.usb_control.specs.declared.fault.ControlFault.{ControlFault};
ghost use Rattle.usb_control.specs.declared.device.Stage.{Stage};
ghost use Rattle.usb_control.specs.declared.device.LastPacket.{LastPacket};
ghost use Rattle.usb_control.specs.declared.host.HostStage.{HostStage};
ghost use Rattle.usb_control.specs.SetupBytes.{IsEncoded, reads};
ghost use Rattle.usb_control.specs.Device.{DevControlState, effect, stage_after_decision};
ghost use Rattle.usb_control.specs.Host.{HostTransferState, IsRunning, at_start, sent_length};
ghost use Rattle.usb_control.specs.Reading.{IsReadOf, took_all};
ghost use Rattle.usb_control.specs.Writing.{AnswersAll, IsApplied, IsNoWrite, given_data};
ghost use Rattle.usb_control.specs.Transfer.{Shape, Decision, Place, answered_bytes, transfer_shape, start};
ghost use Rattle.usb_control.specs.Positions.{TransferIsAt, TryLeadsOn};
ghost use Rattle.usb_control.specs.Transaction.{Transacts};
ghost use Rattle.usb_control.specs.TryFunctions.{AppliesBy, PreparesBy, Table, control_tried, host_tried};
ghost use Rattle.usb_control.specs.Interleaving.{BothEnds, EndsAreAt, GoesBy, LeaveAnswers, Turn, ends_after_turns, is_running, tries_in};
ghost use Rattle.usb_control.specs.Runs.{IsDone, IsOnce, is_open, place_after_tries};
ghost use Rattle.usb_control.specs.Steps.{IsAppliedOnce, IsOnceAtMost, Steps};

use crate::requests::Requests;

/// What answers requests after the steps of a transfer, by what it was before the first of them: whatever was lost, and
/// wherever endpoint 0 of the device stood. `fates` are those of the steps, with nothing done at the device between them.
/// A request that is decided on again, since the handshake was lost, counts as decided on once.
pub fn outcomes_are_true<R: Requests>()
    // A read that is done was accepted, and gave the answer that was fixed then, cut to what was asked for.
    ensures read { (addr : ℕ) (request : Request) (fates : List Fate)
        (old new : DevControlState R) (host : HostTransferState)
        → IsEncoded request → reads request ≡ true
        → Steps R.prepare_gives R.apply_gives R.answer_of fates (at_start addr request []) old host new
        → host.stage ≡ HostStage.Done
        → R.prepare_gives old.requests request true new.requests
        × (host.bytes ≡ take request.length (unwrap_or (R.answer_of new.requests) [])) }

    // A write that is done took effect exactly once.
    ensures write { (addr : ℕ) (request : Request) (sends : List ℕ) (fates : List Fate)
        (old new : DevControlState R) (host : HostTransferState)
        → IsEncoded request → reads request ≡ false → length sends ≡ request.length
        → Steps R.prepare_gives R.apply_gives R.answer_of fates (at_start addr request sends) old host new
        → host.stage ≡ HostStage.Done
        → IsAppliedOnce R.prepare_gives R.apply_gives request sends old.requests new.requests }

    // What a STALL ended was refused, and never took effect.
    ensures stalled { (addr : ℕ) (request : Request) (sends : List ℕ) (fates : List Fate)
        (old new : DevControlState R) (host : HostTransferState)
        → IsEncoded request → length sends ≡ sent_length request
        → Steps R.prepare_gives R.apply_gives R.answer_of fates (at_start addr request sends) old host new
        → host.stage ≡ HostStage.Failed ControlFault.Stalled
        → R.prepare_gives old.requests request false new.requests }

    // However a transfer ends, with C2 too, and while it runs: no SETUP arrived, or the request was
    // decided on and nothing else was done, or a write took effect once.
    ensures any { (addr : ℕ) (request : Request) (sends : List ℕ) (fates : List Fate)
        (old new : DevControlState R) (host : HostTransferState)
        → IsEncoded request → length sends ≡ sent_length request
        → Steps R.prepare_gives R.apply_gives R.answer_of fates (at_start addr request sends) old host new
        → IsOnceAtMost R.prepare_gives R.apply_gives request sends old.requests new.requests }
{}

/// Whatever packets come to the host in a read: the bytes of a read that is done are the payloads of its data stage
/// joined. The stage is what came after the first ACK, which answers SETUP. It accepts data under DATA1 first, then
/// in turn, and all else is thrown away.
pub fn reads_are_joined()
    ensures { (came : List (Option Packet)) (addr : ℕ) (request : Request) → reads request ≡ true
        → (took_all came (at_start addr request [])).stage ≡ HostStage.Done
        → IsReadOf request.length came (took_all came (at_start addr request [])).bytes }
{}

/// Whatever packets a device receives: a write takes effect with the payloads of its data stage joined, and with as many
/// bytes as its SETUP announced. It does so once at most since then.
pub fn writes_are_joined()
    // From the SETUP of an accepted write on, over packets that are only answered, up to the one that
    // brings the effect.
    ensures written { (answer : Option (List ℕ)) (len : ℕ) (packets : List Packet)
        (stage : Stage) (last : LastPacket) (packet : Packet) (bytes : List ℕ)
        → AnswersAll answer
        (stage_after_decision true false len) LastPacket.Nothing packets stage last
        → IsApplied (effect answer stage last packet) bytes
        → (bytes ≡ concat (given_data false true packets)) × (length bytes ≡ len) }

    // After the effect, and from the SETUP of any other request on, nothing takes effect before the next.
    ensures once { (answer : Option (List ℕ)) (begins stage : Stage) (first last : LastPacket)
        (packets : List Packet) (packet : Packet) (bytes : List ℕ)
        → IsNoWrite begins → AnswersAll answer begins first packets stage last
        → ¬ IsApplied (effect answer stage last packet) bytes }
{}

/// Whatever is lost in a transfer: what counts is the decision at the last SETUP that arrived; over all its tries a write
/// that is done took effect exactly once, one that failed or still runs once or not at all, and one that was refused
/// never; and it did so after that SETUP. This is said of lists of tries, each with what a SETUP that arrives in it is
/// decided.
pub fn effects_are_once()
    ensures { (shape : Shape) (tries : List (Fate × Decision)) → IsOnce shape tries }
{}

/// How the places of a transfer, which `tried` of [`HostTransfer::step`](crate::HostTransfer::step) speaks of, are those
/// of its ends.
pub fn places_are_met<R: Requests>()
    // A transfer that has yet to begin stands before its first try, whatever endpoint 0 of the device is at.
    ensures begins { (addr : ℕ) (request : Request) (sends : List ℕ) (control : DevControlState R)
        → length sends ≡ sent_length request
        → TransferIsAt R.answer_of (transfer_shape request) sends start
        (at_start addr request sends) control }

    // The host is done exactly where it is past the last piece.
    ensures done { (shape : Shape) (sends : List ℕ) (place : Place)
        (host : HostTransferState) (control : DevControlState R)
        → TransferIsAt R.answer_of shape sends place host control
        → (host.stage ≡ HostStage.Done) ↔ IsDone place }

    // A read that is done has the answer that was fixed, cut to what was asked for.
    ensures read { (shape : Shape) (sends : List ℕ) (place : Place)
        (host : HostTransferState) (control : DevControlState R)
        → TransferIsAt R.answer_of shape sends place host control → IsDone place
        → shape.reads ≡ true
        → host.bytes ≡ answered_bytes shape place.decision }

    // What answers requests may change meanwhile, as long as the answer stays.
    ensures kept { (shape : Shape) (sends : List ℕ) (place : Place)
        (host : HostTransferState) (old new : DevControlState R)
        → TransferIsAt R.answer_of shape sends place host old
        → R.answer_of new.requests ≡ R.answer_of old.requests → new.stage ≡ old.stage
        → TransferIsAt R.answer_of shape sends place host new }

    // A try leads from a place to another, whatever code makes it.
    ensures tried { (sends : List ℕ) (place : Place) (fate : Fate)
        (host after : HostTransferState) (old new : DevControlState R)
        → IsEncoded host.setup → IsRunning host.stage
        → TransferIsAt R.answer_of (transfer_shape host.setup) sends place host old
        → Transacts R.prepare_gives R.apply_gives R.answer_of fate host old after new
        → TryLeadsOn R.prepare_gives R.apply_gives R.answer_of host.setup sends fate
        place old.requests after new }
{}

/// Where what answers requests does so by functions, a try is a function of both ends: it may leave what the functions
/// give, and nothing else.
pub fn tries_are_computed<R>()
    ensures { (table : Table R) (fate : Fate)
        (host after : HostTransferState) (old new : DevControlState R)
        → Transacts (PreparesBy table) (AppliesBy table) table.answer_of fate host old after new
        ↔ ((after ≡ host_tried table fate host old) × (new ≡ control_tried table fate host old)) }
{}

/// Whatever comes between the tries of a transfer, as long as it leaves the answer that is fixed: both ends stand at the
/// place to which the tries lead, each with what a SETUP that arrives in it is decided then; and what the host asked for
/// stays.
pub fn places_are_run<R>()
    ensures stands { (table : Table R) (sends : List ℕ) (place : Place) (ends : BothEnds R)
        (turns : List (Turn R))
        → IsEncoded ends.host.setup → LeaveAnswers table turns → EndsAreAt table sends place ends
        → EndsAreAt table sends
        (place_after_tries (transfer_shape ends.host.setup) (tries_in table ends turns) place)
        (ends_after_turns table ends turns) }
    ensures same { (table : Table R) (ends : BothEnds R) (turns : List (Turn R))
        → (ends_after_turns table ends turns).host.setup ≡ ends.host.setup }
    // The transfer runs exactly where its place is open.
    ensures runs { (table : Table R) (sends : List ℕ) (place : Place) (ends : BothEnds R)
        → EndsAreAt table sends place ends → is_running ends.host.stage ≡ is_open place }
    // One try: it does at the device what its place says, and a write takes effect in it exactly where this says so.
    ensures goes_by { (table : Table R) (sends : List ℕ) (place : Place) (fate : Fate)
        (ends : BothEnds R)
        → IsEncoded ends.host.setup → IsRunning ends.host.stage → EndsAreAt table sends place ends
        → GoesBy table sends place fate ends }
{}
