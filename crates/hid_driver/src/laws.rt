//! The laws of a driver: what it reads of reports, and what it holds over all calls.

ghost use Rattle.std.specs.Prelude.{◌≡◌, ◌+◌, ◌*◌, ◌<◌, ◌≤◌, ℕ, Bool, false, List, [], length, Result, Ok, Err};
ghost use Rattle.hid_layout.specs.Layout.{Contents};
ghost use Rattle.hid_layout.specs.Parsing.{ParsesTo};
ghost use Rattle.hid_requests.specs.Descriptors.{FitsConfig, FitsDevice};
ghost use Rattle.hid_snapshots.specs.declared.control_state.ControlState.{ControlState};
ghost use Rattle.hid_driver.specs.declared.ask.Ask.{Ask};
ghost use Rattle.hid_driver.specs.declared.fault.DriverFault.{DriverFault};
ghost use Rattle.hid_driver.specs.declared.outcome.Outcome.{Outcome};
ghost use Rattle.hid_driver.specs.declared.state.DriverState.TheVariants.{Ready};
ghost use Rattle.hid_driver.specs.declared.state.Moved.{Moved};
ghost use Rattle.hid_driver.specs.Driver.{DriverValue, driver_after_ask, driver_after_protocol, driver_after_report, driver_at_start, protocol_outcome};
ghost use Rattle.hid_driver.specs.Holding.{ChangesOne, IsDue, KeepsAll, ReleasesOne};
ghost use Rattle.hid_driver.specs.Moves.{Moves};
ghost use Rattle.hid_driver.specs.BringUp.{MovesOn, waiting_count};
ghost use Rattle.hid_driver.specs.VirtualDevices.{MovesBesideBy, VirtualDevice, ready_for};
ghost use Rattle.hid_driver.specs.Pipe.{KeepsFew, PipeState, pipe_after_outcome, is_long, pipe_at_start};
ghost use Rattle.hid_driver.specs.Transfers.{DeliversReports, IsReport, Last, ReportEnds, ReportsEnd, SentReport, cut_in_packets, sent_bytes};

use hid_report_descriptor::laws::{accepted_or_refused, one_reading, real_accepts_bus};

/// Over every list of reports of a device, of any bytes, each of which ends at its receiver with its last transfer: the events are
/// exactly those of reading the reports in order, each once; the view is the one that they leave.
pub fn transfers_are_read()
    ensures { (pipe : PipeState) (view : List ControlState) (reports : List SentReport)
        → ReportsEnd pipe.packet_size pipe.receiving.layout reports → DeliversReports pipe view reports }
{}

/// An Input report of the layout, with no byte after it, ends at its receiver with its last packet where it comes in packets, each
/// full but the last one; and where it comes in one transfer.
pub fn reports_end()
    ensures packets { (packet_size full : ℕ) (layout : Contents) (bytes : List ℕ) → 0 < packet_size
        → IsReport layout bytes → packet_size * full < length bytes
        → ReportEnds packet_size layout [] (cut_in_packets packet_size full bytes) }
    ensures bytes { (packet_size full : ℕ) (bytes : List ℕ)
        → sent_bytes (cut_in_packets packet_size full bytes) ≡ bytes }
    ensures at_once { (packet_size : ℕ) (layout : Contents) (bytes : List ℕ) → IsReport layout bytes
        → ReportEnds packet_size layout [] (Last bytes) }
{}

/// Whatever comes of the transfers, nothing that is held is forgotten: an outcome of a request and an ask keep each layout and
/// each view; an interrupt transfer changes those of its own interface alone, as its events say; and so does asking for a
/// protocol, whose events lead back to the initial view. So it is from a new driver on, and after a reset, which reports the
/// changes back.
pub fn nothing_is_forgotten()
    ensures begins { IsDue driver_at_start }
    ensures done { (before : DriverValue) (outcome : Outcome) (result : Result Moved DriverFault) (after : DriverValue)
        → IsDue before → Moves before outcome result after → KeepsAll before after }
    ensures ask { (before : DriverValue) (place : ℕ) (ask : Ask) → IsDue before
        → KeepsAll before (driver_after_ask before place ask) }
    ensures report { (before : DriverValue) (place : ℕ) (outcome : Outcome) → IsDue before
        → ChangesOne before place outcome (driver_after_report before place outcome) }
    ensures protocol { (before : DriverValue) (place : ℕ) (boot : Bool) → protocol_outcome before place ≡ Ok tt
        → ReleasesOne before place (driver_after_protocol before place boot) }
    ensures refused { (before : DriverValue) (place : ℕ) (boot : Bool) (fault : DriverFault)
        → protocol_outcome before place ≡ Err fault → driver_after_protocol before place boot ≡ before }
{}

/// A transfer of at most a packet is never too long, whatever came before it: what is kept of a report leaves room for one.
pub fn packets_have_room()
    ensures begins { (packet_size : ℕ) (layout : Contents) → KeepsFew (pipe_at_start packet_size layout) }
    ensures stays { (pipe : PipeState) (outcome : Outcome) → KeepsFew pipe → KeepsFew (pipe_after_outcome pipe outcome) }
    ensures fits { (pipe : PipeState) (bytes : List ℕ) → KeepsFew pipe → length bytes ≤ pipe.packet_size
        → is_long pipe bytes ≡ false }
{}

/// A device that isn't refused is ready after four control transfers, and two for each interface that waits once its
/// configuration is read, whatever comes of those two.
pub fn devices_come_up()
    ensures { (configured after : DriverValue) → MovesOn 3 driver_at_start configured
        → MovesOn (1 + 2 * waiting_count configured.interfaces) configured after → after.state ≡ Ready }
{}

/// Beside a virtual device, of which nothing is lost, a driver is ready after six control transfers, whatever it asks in them:
/// it has the device's one interface, with the layout of its report descriptor and the initial view.
pub fn virtual_devices_come_up()
    ensures { (device : VirtualDevice) (layout : Contents) (after : DriverValue) → FitsDevice device.info
        → FitsConfig device.known → 0 < device.known.endpoint → 0 < device.known.report_length
        → device.known.report_length ≡ length device.descriptor → ParsesTo device.descriptor layout
        → MovesBesideBy 6 device driver_at_start after → after ≡ ready_for device layout }
{
    // For the prover: a descriptor has one reading, and real devices may have every one that a virtual device may.
    one_reading();
    accepted_or_refused();
    real_accepts_bus();
}
