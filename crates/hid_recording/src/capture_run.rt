//! A whole capture, from a reader to a writer.

ghost use Rattle.std.specs.Prelude.{◌≡◌, ◌<◌, ◌≤◌, None, length, IfOk, OnOk};
ghost use Rattle.usb_capture.specs.Capture.{refusal_of};
ghost use Rattle.usb_capture.specs.Place.{begin};
ghost use Rattle.hid_capture.specs.Tracking.{nothing_known, tracking_of};
ghost use Rattle.hid_recording.specs.FrameActs.{given_of};
ghost use Rattle.hid_recording.specs.CaptureRuns.{end_fault, IsBetween, AppendsCaptureFrom, AppendsCapture, AppendsStep, AppendsPiece, frame_of, capture_summary, cause_of_format, EndsSo};
ghost use Rattle.hid_recording.specs.CaptureRun.{capture_place};
ghost use Rattle.hid_recording.specs.Player.{session_of};
ghost use Rattle.hid_recording.specs.Session.{saturating_sum};

use super::capture_fault::{CaptureCause, CaptureRunFault};
use super::capture_player::CapturePlayer;
use super::counted::Counted;
use super::fault::Cause;
use super::given::GivenDescriptor;
use super::options::Options;
use super::played_capture::PlayedCapture;
use super::player::Player;
use super::runs::Watch;
use super::summary::Summary;
use std::alloc::Global;
use std::io::{ErrorKind, Read, Write};
use usb_capture::{Capture, CaptureFault, Cause as FormatCause};

/// How many reads a run makes at most.
const MAX_READS: u64 = 1_000_000_000_000;

/// How many bytes a read is asked for.
const PIECE: usize = 4096;

/// A capture that is played.
#[derive(Drop)]
pub struct CaptureRun<'a> {
    capture: Capture,
    devices: CapturePlayer<'a>,
}

/// What ends a run at the frame after those that were played.
fn end_at(played: Summary, cause: CaptureCause) -> CaptureRunFault
    ensures { result ≡ record { frame = saturating_sum played.lines 1; cause = cause; played = played } }
{
    CaptureRunFault {
        frame: played.lines.saturating_add(1),
        cause,
        played,
    }
}

/// Why a run ends where its bytes can't be read.
fn cause_of_format(fault: CaptureFault) -> CaptureCause
    ensures { result ≡ cause_of_format fault.cause fault }
{
    match fault.cause {
        FormatCause::Memory => CaptureCause::Run(Cause::Memory),
        _ => CaptureCause::Format(fault),
    }
}

impl<'a> CaptureRun<'a> {
    /// A capture of which nothing was read.
    fn new(alloc: Global, player: Player, given: Option<GivenDescriptor<'a>>) -> Self
        ensures place { capture_place result ≡ record {
          place = begin;
          tracking = nothing_known;
          session = session_of player;
        } }
        ensures accepted { refusal_of result.capture.part ≡ None }
        ensures given { result.devices.given ≡ given.entry }
    {
        CaptureRun {
            capture: Capture::new(alloc),
            devices: CapturePlayer::new(alloc, player, given),
        }
    }

    /// What ends the run at the frame that comes next.
    fn fault(&self, cause: CaptureCause) -> CaptureRunFault
        ensures { result ≡ end_fault (capture_place self.now) cause }
    {
        end_at(self.devices.summary(), cause)
    }

    /// Takes bytes up to the end of the block that they complete, or all of them, plays its frame, and answers how many.
    fn step<W: Write>(&mut self, bytes: &[u8], writer: &mut W) -> Result<usize, CaptureRunFault>
        requires accepted { refusal_of self.old.capture.part ≡ None }
        requires between { IsBetween (capture_place self.old) }
        ensures told { AppendsStep (W.contents writer.old) (W.contents writer.new)
            (given_of self.old.devices.given) (capture_place self.old) bytes.now result
            (capture_place self.new) }
        ensures accepted { OnOk result (refusal_of self.new.capture.part ≡ None) }
        ensures within { IfOk result (λ n. n ≤ length bytes.now) }
        ensures more { IfOk result (λ n. 0 < length bytes.now → 0 < n) }
        ensures given { self.new.devices.given ≡ self.old.devices.given }
    {
        let played = self.devices.summary();
        let taken = match self.capture.take(bytes) {
            Ok(taken) => taken,
            Err(fault) => return Err(end_at(played, cause_of_format(fault))),
        };
        if let Some(frame) = self.capture.frame() {
            if let Err(cause) = self.devices.frame(&frame, writer) {
                return Err(end_at(played, CaptureCause::Run(cause)));
            }
        }
        Ok(taken)
    }

    /// Plays the frames that a piece completes.
    fn feed<W: Write>(&mut self, piece: &[u8], writer: &mut W) -> Result<(), CaptureRunFault>
        requires accepted { refusal_of self.old.capture.part ≡ None }
        requires between { IsBetween (capture_place self.old) }
        ensures told { AppendsPiece (W.contents writer.old) (W.contents writer.new)
            (given_of self.old.devices.given) (capture_place self.old) piece.now result
            (capture_place self.new) }
        ensures accepted { OnOk result (refusal_of self.new.capture.part ≡ None) }
        ensures given { self.new.devices.given ≡ self.old.devices.given }
    {
        let mut rest = piece;
        while !rest.is_empty() {
            let taken = self.step(rest, writer)?;
            rest = &rest[taken..];
        }
        Ok(())
    }

    /// What was played, where the bytes end.
    fn finish(&self) -> Result<Summary, CaptureRunFault>
        requires { refusal_of self.now.capture.part ≡ None }
        ensures { EndsSo (capture_place self.now) result }
    {
        match self.capture.finish() {
            Ok(()) => Ok(self.devices.summary()),
            Err(fault) => Err(self.fault(CaptureCause::Format(fault))),
        }
    }
}

/// The frame at which a run ended: the one after the last, where all were played.
fn frame_of(end: &Result<Summary, CaptureRunFault>) -> u64
    ensures { result ≡ frame_of end.now }
{
    match end {
        Ok(summary) => summary.lines.saturating_add(1),
        Err(fault) => fault.frame,
    }
}

/// What was played.
fn capture_summary(end: &Result<Summary, CaptureRunFault>) -> Summary
    ensures { result ≡ capture_summary end.now }
{
    match end {
        Ok(summary) => *summary,
        Err(fault) => fault.played,
    }
}

/// Plays what the reader gives.
fn play_pieces<R: Read, W: Write, H: Watch>(
    run: &mut CaptureRun<'_>,
    reader: &mut R,
    writer: &mut W,
    watch: &mut H,
) -> Result<Summary, CaptureRunFault>
    requires accepted { refusal_of run.old.capture.part ≡ None }
    requires between { IsBetween (capture_place run.old) }
    ensures { AppendsCaptureFrom (given_of run.old.devices.given) (capture_place run.old)
        (R.remaining reader.old) (W.contents writer.old) (W.contents writer.new) result
        (tracking_of run.new.devices.tracker).undescribed }
{
    let mut piece = [0u8; PIECE];
    let mut bytes: u64 = 0;
    for _ in 0..MAX_READS {
        if writer.flush().is_err() {
            return Err(run.fault(CaptureCause::Run(Cause::Write)));
        }
        match reader.read(&mut piece) {
            Ok(0) => return run.finish(),
            Ok(n) => {
                run.feed(&piece[..n], writer)?;
                bytes = bytes.saturating_add(n as u64);
                watch.see(bytes, &run.devices.summary());
            }
            Err(error) if error.kind() == ErrorKind::Interrupted => {}
            Err(_) => return Err(run.fault(CaptureCause::Run(Cause::Read))),
        }
    }
    Err(run.fault(CaptureCause::Run(Cause::TooManyReads)))
}

/// Plays a capture without the last flush.
fn play_frames<R: Read, W: Write, H: Watch>(
    alloc: Global,
    reader: &mut R,
    writer: &mut W,
    options: Options,
    given: Option<GivenDescriptor<'_>>,
    watch: &mut H,
) -> PlayedCapture
    ensures { AppendsCapture options (given_of given.entry) (R.remaining reader.old) (W.contents writer.old)
        (W.contents writer.new) result.end result.undescribed.items }
{
    match Player::new(alloc, options, Counted::Frames) {
        Ok(player) => {
            let mut run = CaptureRun::new(alloc, player, given);
            let end = play_pieces(&mut run, reader, writer, watch);
            PlayedCapture {
                end,
                undescribed: run.devices.into_undescribed(),
            }
        }
        Err(cause) => PlayedCapture {
            end: Err(end_at(Summary::none(), CaptureCause::Run(cause))),
            undescribed: Vec::new(alloc),
        },
    }
}

/// Plays a capture and writes its output: the reports of its HID devices, by the descriptors that are read in it, or by the
/// one that is given. A read of 0 bytes ends the capture, and so does the first frame of a strict run that is refused. An
/// interrupted read is tried again. The output is flushed before each read and at the end, also at a fault, so `writer` may
/// be a buffer. The end has what ended the run early, at its frame, with what was played before; if the last flush fails, R9 at
/// that frame, whatever the fault was: else output would be lost without notice.
pub fn play_capture<R: Read, W: Write, H: Watch>(
    alloc: Global,
    reader: &mut R,
    writer: &mut W,
    options: Options,
    given: Option<GivenDescriptor<'_>>,
    watch: &mut H,
) -> PlayedCapture
    ensures { AppendsCapture options (given_of given.entry) (R.remaining reader.old) (W.contents writer.old)
        (W.contents writer.new) result.end result.undescribed.items }
{
    let played = play_frames(alloc, reader, writer, options, given, watch);
    match writer.flush() {
        Ok(()) => played,
        Err(_) => PlayedCapture {
            end: Err(CaptureRunFault {
                frame: frame_of(&played.end),
                cause: CaptureCause::Run(Cause::Write),
                played: capture_summary(&played.end),
            }),
            undescribed: played.undescribed,
        },
    }
}
