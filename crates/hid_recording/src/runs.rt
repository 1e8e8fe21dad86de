//! A whole recording, from a reader to a writer.

ghost use Rattle.std.specs.Prelude.{◌≡◌, ◌≤◌, ◌*◌, IfOk};
ghost use Rattle.hid_recording.specs.Runs.{AppendsRecording, line_of, summary_until};
ghost use Rattle.hid_recording.specs.Place.{AppendsFrom};
ghost use Rattle.hid_recording.specs.Recording.{place_of};

use super::counted::Counted;
use super::fault::{Cause, RecordingFault};
use super::options::Options;
use super::player::Player;
use super::recording::Recording;
use super::summary::Summary;
use std::alloc::Global;
use std::io::{ErrorKind, Read, Write};

/// How many reads a run makes at most.
const MAX_READS: u64 = 1_000_000_000_000;

/// How many bytes a read is asked for.
const PIECE: usize = 4096;

/// Sees how far a run has come.
pub trait Watch {
    /// Takes how many bytes were read, and what was played of them.
    fn see(&mut self, bytes: u64, summary: &Summary);
}

/// A run that nobody watches.
impl Watch for () {
    fn see(&mut self, _bytes: u64, _summary: &Summary) {}
}

/// Runs the recording and writes its output. A read of 0 bytes ends the recording, and so does the first line of a strict
/// run that is refused. An interrupted read is tried again. The output is flushed before each read and at the end, also at a
/// fault, so `writer` may be a buffer.
///
/// # Errors
/// What ended the run early, at its line, with what was played before. If the last flush fails, R9 at that line, whatever the
/// fault was: else output would be lost without notice. In a recording that is accepted that line is the one after the last.
pub fn play<R: Read, W: Write, H: Watch>(
    alloc: Global,
    reader: &mut R,
    writer: &mut W,
    options: Options,
    watch: &mut H,
) -> Result<Summary, RecordingFault>
    ensures { AppendsRecording options (R.remaining reader.old) (W.contents writer.old)
        (W.contents writer.new) result }
{
    let end = play_lines(alloc, reader, writer, options, watch);
    match writer.flush() {
        Ok(()) => end,
        Err(_) => Err(RecordingFault {
            line: line_of(&end),
            cause: Cause::Write,
            played: summary_until(&end),
        }),
    }
}

/// The line at which a run ended: after the last one, where all were run.
fn line_of(end: &Result<Summary, RecordingFault>) -> u64
    requires { IfOk end.now (λ summary. summary.lines ≤ 4096 * 1000000000000) }
    ensures { result ≡ line_of end.now }
{
    match end {
        Ok(summary) => summary.lines + 1,
        Err(fault) => fault.line,
    }
}

/// What was played.
fn summary_until(end: &Result<Summary, RecordingFault>) -> Summary
    ensures { result ≡ summary_until end.now }
{
    match end {
        Ok(summary) => *summary,
        Err(fault) => fault.played,
    }
}

/// Plays a recording without the last flush.
fn play_lines<R: Read, W: Write, H: Watch>(
    alloc: Global,
    reader: &mut R,
    writer: &mut W,
    options: Options,
    watch: &mut H,
) -> Result<Summary, RecordingFault>
    ensures ran { AppendsRecording options (R.remaining reader.old) (W.contents writer.old)
        (W.contents writer.new) result }
    ensures count { IfOk result (λ summary. summary.lines ≤ 4096 * 1000000000000) }
{
    match Player::new(alloc, options, Counted::Lines) {
        Ok(player) => {
            let mut recording = Recording::new(player);
            play_pieces(&mut recording, reader, writer, watch)
        }
        Err(cause) => Err(RecordingFault {
            line: 1,
            cause,
            played: Summary::none(),
        }),
    }
}

/// Plays what the reader gives.
fn play_pieces<R: Read, W: Write, H: Watch>(
    recording: &mut Recording,
    reader: &mut R,
    writer: &mut W,
    watch: &mut H,
) -> Result<Summary, RecordingFault>
    requires { recording.old.lines ≡ 0 }
    ensures ran { AppendsFrom (place_of recording.old) (R.remaining reader.old) (W.contents writer.old)
        (W.contents writer.new) result }
    ensures count { IfOk result (λ summary. summary.lines ≤ 4096 * 1000000000000) }
{
    let mut piece = [0u8; PIECE];
    let mut bytes: u64 = 0;
    for _ in 0..MAX_READS {
        if writer.flush().is_err() {
            return Err(recording.fault(Cause::Write));
        }
        match reader.read(&mut piece) {
            Ok(0) => return recording.finish(writer),
            Ok(n) => {
                recording.feed(&piece[..n], writer)?;
                bytes = bytes.saturating_add(n as u64);
                watch.see(bytes, &recording.summary());
            }
            Err(error) if error.kind() == ErrorKind::Interrupted => {}
            Err(_) => return Err(recording.fault(Cause::Read)),
        }
    }
    Err(recording.fault(Cause::TooManyReads))
}
