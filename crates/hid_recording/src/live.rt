//! A live device, from its reports to a writer.

ghost use Rattle.std.specs.Prelude.{◌≡◌, ◌≤◌, ◌∷◌, [], None, Option, List, length};
ghost use Rattle.hid_recording.specs.Acts.{act_of, AppendsActs};
ghost use Rattle.hid_recording.specs.LiveReports.{TimedReport, timed_report, Receives, IsWithin};
ghost use Rattle.hid_recording.specs.LiveRuns.{live_fault, AppendsReport, AppendsEnd, AppendsReports, AppendsLive, AppendsFlushed};
ghost use Rattle.hid_recording.specs.Moments.{time_text};
ghost use Rattle.hid_recording.specs.Player.{session_of, summary_of};
ghost use Rattle.hid_recording.specs.Session.{saturating_sum};

use super::act::Act;
use super::counted::Counted;
use super::fault::Cause;
use super::line_fields::DeviceNumber;
use super::moment::put_time;
use super::options::Options;
use super::player::Player;
use super::summary::Summary;
use std::alloc::Global;
use std::io::Write;

/// How many reports a run reads at most.
const MAX_REPORTS: u64 = 1_000_000_000_000;

/// The longest report, with its ID: as many bytes as Linux has room for.
const MAX_REPORT: usize = 16_384;

/// What a device sends next.
#[derive(Clone, Copy, Debug, PartialEq, Eq)]
pub enum Received {
    /// A report, of so many bytes at the front of the buffer. It was read at this time, in nanoseconds since 1970.
    Report { length: usize, time: u64 },
    /// No report comes any more since the device is gone, at this time.
    Gone { time: u64 },
    /// The device can't be read.
    Failed,
}

/// A device that sends reports.
pub trait LiveDevice {
    // The reports that come, where they are known.
    ghost sent: { Self → Option (List TimedReport) } = { λ _. None };

    /// Waits for the next report, and puts its bytes at the front of the buffer.
    fn receive(&mut self, buffer: &mut [u8]) -> Received
        ensures within { IsWithin result (length buffer.new) }
        ensures sent { Receives (sent self.old) (sent self.new) result buffer.new };
}

/// Where and why the run of a live device ended early, and what was played before.
#[derive(Clone, Copy, Debug, PartialEq, Eq)]
pub struct LiveFault {
    /// The report that was being read or played, from 1.
    pub report: u64,
    pub cause: Cause,
    /// What was played before that report.
    pub played: Summary,
}

/// What ends a run at the report after those that were played.
fn fault_at(played: Summary, cause: Cause) -> LiveFault
    ensures { result ≡ record { report = saturating_sum played.lines 1; cause = cause; played = played } }
{
    LiveFault {
        report: played.lines.saturating_add(1),
        cause,
        played,
    }
}

/// A device that is played: the device 0 of a player.
#[derive(Drop)]
struct LiveRun {
    player: Player,
    /// The time of what is played.
    time: String,
}

impl LiveRun {
    /// A device of which nothing is known.
    fn new(alloc: Global, player: Player) -> Self
        ensures { session_of result.player ≡ session_of player }
    {
        LiveRun {
            player,
            time: String::new(alloc),
        }
    }

    /// What ends the run at the report that comes next.
    fn fault(&self, cause: Cause) -> LiveFault
        ensures { result ≡ live_fault (session_of self.now.player) cause }
    {
        fault_at(self.player.summary_so_far(), cause)
    }

    /// Plays what comes at a time.
    fn tell<W: Write>(&mut self, time: u64, act: Act<'_>, writer: &mut W) -> Result<(), Cause>
        ensures { AppendsActs (W.contents writer.old) (W.contents writer.new) (time_text time)
            (session_of self.old.player) (act_of act.entry ∷ []) result (session_of self.new.player) }
    {
        put_time(&mut self.time, time)?;
        self.player.act(self.time.as_str(), act, writer)
    }

    /// Plays a report.
    fn report<W: Write>(&mut self, time: u64, bytes: &[u8], writer: &mut W) -> Result<(), LiveFault>
        ensures { AppendsReport (W.contents writer.old) (W.contents writer.new) (session_of self.old.player)
            (timed_report time bytes.now) result (session_of self.new.player) }
    {
        let played = self.player.summary_so_far();
        self.player.begin_frame();
        let act = Act::Report {
            device: DeviceNumber { number: 0 },
            bytes,
        };
        match self.tell(time, act, writer) {
            Ok(()) => Ok(()),
            Err(cause) => Err(fault_at(played, cause)),
        }
    }

    /// The device is gone: it lets go of what it holds.
    fn end<W: Write>(&mut self, time: u64, writer: &mut W) -> Result<Summary, LiveFault>
        ensures { AppendsEnd (W.contents writer.old) (W.contents writer.new) (session_of self.old.player) time
            result }
    {
        let played = self.player.summary_so_far();
        let act = Act::Disconnection {
            device: DeviceNumber { number: 0 },
        };
        match self.tell(time, act, writer) {
            Ok(()) => Ok(self.player.summary_so_far()),
            Err(cause) => Err(fault_at(played, cause)),
        }
    }
}

/// Plays the reports that a device sends until it is gone.
fn play_reports<D: LiveDevice, W: Write>(
    run: &mut LiveRun,
    device: &mut D,
    writer: &mut W,
) -> Result<Summary, LiveFault>
    ensures { AppendsReports (session_of run.old.player) (D.sent device.old) (W.contents writer.old)
        (W.contents writer.new) result }
{
    let mut buffer = [0u8; MAX_REPORT];
    for _ in 0..MAX_REPORTS {
        if writer.flush().is_err() {
            return Err(run.fault(Cause::Write));
        }
        match device.receive(&mut buffer) {
            Received::Report { length, time } => run.report(time, &buffer[..length], writer)?,
            Received::Gone { time } => return run.end(time, writer),
            Received::Failed => return Err(run.fault(Cause::Read)),
        }
    }
    Err(run.fault(Cause::TooManyReads))
}

/// Plays a device without the last flush.
fn play_device<D: LiveDevice, W: Write>(
    alloc: Global,
    descriptor: &[u8],
    device: &mut D,
    writer: &mut W,
    options: Options,
) -> Result<Summary, LiveFault>
    ensures { AppendsLive options descriptor.now (D.sent device.old) (W.contents writer.old)
        (W.contents writer.new) result }
{
    // (a descriptor that is refused ends the run)
    let strict = Options {
        strict: true,
        ..options
    };
    let player = match Player::new(alloc, strict, Counted::Reports) {
        Ok(player) => player,
        Err(cause) => return Err(fault_at(Summary::none(), cause)),
    };
    let mut run = LiveRun::new(alloc, player);
    let act = Act::Descriptor {
        device: DeviceNumber { number: 0 },
        bytes: descriptor,
    };
    if let Err(cause) = run.tell(0, act, writer) {
        return Err(fault_at(Summary::none(), cause));
    }
    run.player.set_options(options);
    play_reports(&mut run, device, writer)
}

/// Plays a live device and writes its output: the reports that it sends, by its descriptor, until it is gone or the first one of
/// a strict run is refused. The output is flushed before each report is waited for and at the end, so `writer` may be a buffer.
///
/// # Errors
/// What ended the run early, at its report, with what was played before. A descriptor that is refused is a refusal at report 1.
/// If the last flush fails, R9, whatever the fault was: else output would be lost without notice.
pub fn play_live<D: LiveDevice, W: Write>(
    alloc: Global,
    descriptor: &[u8],
    device: &mut D,
    writer: &mut W,
    options: Options,
) -> Result<Summary, LiveFault>
    ensures { AppendsFlushed options descriptor.now (D.sent device.old) (W.contents writer.old)
        (W.contents writer.new) result }
{
    let end = play_device(alloc, descriptor, device, writer, options);
    if writer.flush().is_ok() {
        return end;
    }
    match end {
        Ok(summary) => Err(fault_at(summary, Cause::Write)),
        Err(fault) => Err(LiveFault {
            cause: Cause::Write,
            ..fault
        }),
    }
}
