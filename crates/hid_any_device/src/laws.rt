//! The laws of any device that keeps to the toggle protocol. In all of them `packet_size` is wMaxPacketSize of the endpoint, the
//! bytes of a full packet (USB 2.0, 9.6.6): a `Packet` carries at most 64, a transfer at most 1,024.

ghost use Rattle.std.specs.Prelude.{ℕ, ◌<◌, List};
ghost use Rattle.hid_layout.specs.Layout.{Contents};
ghost use Rattle.hid_layout.specs.Controls.{Item};
ghost use Rattle.hid_snapshots.specs.declared.control_state.ControlState.{ControlState};
ghost use Rattle.usb_transact.specs.declared.host.Took.{Took};
ghost use Rattle.usb_transact.specs.declared.transaction.Fate.{Fate};
ghost use Rattle.hid_host.specs.Ready.{ReadyHostState};
ghost use Rattle.hid_bus.specs.Rounds.{OwnStep};
ghost use Rattle.hid_any_device.specs.Sender.{Readiness, ReportPieces};
ghost use Rattle.hid_any_device.specs.Endpoint.{ReadsPacketsOf64};
ghost use Rattle.hid_any_device.specs.PipeSteps.{PipeEnds, PipeStep};
ghost use Rattle.hid_any_device.specs.Delivery.{AllReportsEnd, CrossOnceInOrder, DeliversReports, NoneWaits, PollReturnsCrossing, ReportsEnd, StepDelivers, StepReportsEnd};
ghost use Rattle.hid_any_device.specs.Progress.{WaitingCross, WaitingCrossInTime};
ghost use Rattle.hid_any_device.specs.ReportPieces.{AllHaveRoom, AllQueueShortReports, ByteStep, DeliversGivenReports, HasRoomInPackets, IsSentWhole};
ghost use Rattle.hid_any_device.specs.Transfers.{DeliversTransfers};
ghost use Rattle.hid_any_device.specs.PollTransactions.{PollsAreTransactions};
ghost use Rattle.hid_any_device.specs.VirtualDevice.{DeliversRounds, PartsCross, RoundsCross, SuitsDevice, WritesAllPieces};

/// Over every list of steps of a device whose reports end at its host with their last piece, from both ends just configured: the
/// events of all steps, those of each one, and what each poll returns.
pub fn any_device_is_read()
    ensures reports { (packet_size addr endpoint : ℕ) (layout : Contents) (steps : List PipeStep)
        → AllReportsEnd packet_size layout steps → DeliversReports packet_size addr endpoint layout steps }
    ensures step { (packet_size addr endpoint : ℕ) (layout : Contents) (steps : List PipeStep) (step : PipeStep)
        → AllReportsEnd packet_size layout steps → StepReportsEnd packet_size layout step
        → StepDelivers packet_size addr endpoint layout steps step }
    ensures outcome { (packet_size addr endpoint : ℕ) (layout : Contents) (steps : List PipeStep)
        (readiness : Readiness) (fate : Fate) → AllReportsEnd packet_size layout steps
        → PollReturnsCrossing packet_size addr endpoint layout steps readiness fate }
{}

/// The host of these laws is a `HostDevice`, where full packets have 64 bytes.
pub fn hosts_read_packets_of_64()
    ensures { (known : ReadyHostState) (taken : Took) → ReadsPacketsOf64 known taken }
{}

/// While no halt is cleared, each report that was queued has crossed, once and in order, or it waits, whatever its bytes and
/// layout. All that wait cross once as many polls of a device that sends lose nothing as pieces are queued, whatever other polls
/// lose and whatever is queued meanwhile. If at most `most_lost` polls in a row lose something or meet a device that doesn't send,
/// `most_lost + 1` polls for each piece are enough.
pub fn reports_cross_once()
    ensures once { (steps : List PipeStep) → CrossOnceInOrder steps }
    ensures none_waits { (steps : List PipeStep) → NoneWaits steps }
    ensures waiting { (steps more : List PipeStep) → WaitingCross steps more }
    ensures in_time { (most_lost : ℕ) (steps more : List PipeStep)
        → WaitingCrossInTime most_lost steps more }
{}

/// Reports of less than a full packet end at their host, whatever its layout. A report of any bytes that has room in its packets
/// can be sent so that it does.
pub fn reports_can_be_sent()
    ensures short { (packet_size : ℕ) (layout : Contents) (steps : List PipeStep)
        → AllQueueShortReports packet_size steps → AllReportsEnd packet_size layout steps }
    ensures whole { (packet_size : ℕ) (layout : Contents) (bytes : List ℕ) → 0 < packet_size
        → HasRoomInPackets packet_size layout bytes → IsSentWhole packet_size layout bytes }
    ensures given { (packet_size addr endpoint : ℕ) (layout : Contents) (steps : List ByteStep) → 0 < packet_size
        → AllHaveRoom packet_size layout steps
        → DeliversGivenReports packet_size addr endpoint layout steps }
{}

/// Where a controller does the toggles, and gives each piece once as a transfer, a `Receiver` of `hid_usages` reads the reports
/// that the transfers carry.
pub fn transfers_are_read()
    ensures { (packet_size : ℕ) (layout : Contents) (view : List ControlState) (reports : List ReportPieces)
        → ReportsEnd packet_size layout reports → DeliversTransfers packet_size layout view reports }
{}

/// A poll under a fate is the transaction of the bus that loses what the fate says: what the host takes, and both toggles.
pub fn polls_are_transactions()
    ensures { (packet_size : ℕ) (ends : PipeEnds) (readiness : Readiness) (fate : Fate)
        → PollsAreTransactions packet_size ends readiness fate }
{}

/// A virtual device is one of them: the reports that cross of it are those of its rounds that do, and its events are those of any
/// device that sends them.
pub fn virtual_devices_are_any()
    ensures crosses { (items : List Item) (writes : ℕ → List ControlState → ReportPieces)
        (snapshot : List ControlState)
        (idle : List ℕ) (steps : List OwnStep) → WritesAllPieces items writes
        → RoundsCross items writes snapshot idle steps }
    ensures parts { (layout : Contents) (snapshot : List ControlState) (idle : List ℕ)
        (steps : List OwnStep)
        → PartsCross layout snapshot idle steps }
    ensures events { (addr endpoint : ℕ) (layout : Contents) (snapshot : List ControlState) (idle : List ℕ)
        (steps : List OwnStep) → SuitsDevice layout snapshot idle
        → DeliversRounds addr endpoint layout snapshot idle steps }
{}
