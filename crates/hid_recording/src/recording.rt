//! The lines of a recording, from bytes that come in pieces.

ghost use Rattle.std.specs.Prelude.{◌≡◌, ◌+◌, ◌-◌, ◌^◌, ◌<◌, ◌≤◌, [], ◌∷◌, ◌++◌, length, IfOk};
ghost use Rattle.hid_text.specs.Lines.{IsUnbroken};
ghost use Rattle.hid_recording.specs.Place.{Takes, AppendsTaken, AppendsRun, EndsAt};
ghost use Rattle.hid_recording.specs.Runs.{PlayedTo};

use super::fault::{Cause, RecordingFault};
use super::player::Player;
use super::summary::Summary;
use hid_text::{LineBuffer, TooLong, split_line};
use std::io::Write;

/// One byte more than a line has: a carriage return may stand before the end.
const ROOM: usize = 65_537;

/// The session, the line that has begun, and how many lines came before it.
#[derive(Drop)]
pub struct Recording {
    player: Player,
    buffer: LineBuffer<ROOM>,
    lines: u64,
}

impl Recording {
    ghost use Rattle.hid_recording.specs.Player.{session_of, summary_of};
    ghost use Rattle.hid_recording.specs.Recording.{place_of};

    /// A recording of which nothing has been read.
    pub fn new(player: Player) -> Self
        ensures { place_of result
            ≡ record { session = session_of player; begun = []; lines = 0 } }
    {
        Recording {
            player,
            buffer: LineBuffer::new(),
            lines: 0,
        }
    }

    /// Takes the next bytes, and runs each line that they end.
    ///
    /// # Errors
    /// What ends the run early, at its line, with what was played before: the fault of [`Player::line`], or a line that
    /// is too long (R2).
    pub fn feed<W: Write>(&mut self, bytes: &[u8], writer: &mut W) -> Result<(), RecordingFault>
        requires { self.old.lines + length bytes.now < 2 ^ 64 - 1 }
        ensures taken { AppendsTaken (W.contents writer.old) (W.contents writer.new)
            (place_of self.old) bytes.now result (place_of self.new) }
        ensures count { self.new.lines ≤ self.old.lines + length bytes.now }
    {
        let mut rest = bytes;
        while let Some((last, behind)) = split_line(rest) {
            self.end_line(last, writer)?;
            rest = behind;
        }
        self.keep(rest)
    }

    /// The last bytes of a line came, and its line feed.
    fn end_line<W: Write>(&mut self, last: &[u8], writer: &mut W) -> Result<(), RecordingFault>
        requires room { self.old.lines < 2 ^ 64 - 1 }
        requires unbroken { IsUnbroken last.now }
        ensures taken { AppendsTaken (W.contents writer.old) (W.contents writer.new)
            (place_of self.old) (last.now ++ 10 ∷ []) result (place_of self.new) }
        ensures count { self.new.lines ≤ self.old.lines + 1 }
    {
        let played = self.summary();
        if let Err(TooLong) = self.buffer.end_line(last) {
            return Err(stop_at(played, Cause::LineTooLong));
        }
        if let Err(cause) = self.player.line(self.buffer.line(last), writer) {
            return Err(stop_at(played, cause));
        }
        self.buffer.clear();
        self.lines += 1;
        Ok(())
    }

    /// More bytes of a line came, which don't end it.
    fn keep(&mut self, bytes: &[u8]) -> Result<(), RecordingFault>
        requires room { self.old.lines < 2 ^ 64 - 1 }
        requires unbroken { IsUnbroken bytes.now }
        ensures taken { Takes (place_of self.old) bytes.now [] result (place_of self.new) }
        ensures count { self.new.lines ≡ self.old.lines }
    {
        if let Err(TooLong) = self.buffer.keep(bytes) {
            return Err(self.fault(Cause::LineTooLong));
        }
        Ok(())
    }

    /// Runs the line that has begun, if it has a byte: the recording is at its end. A dump that is open then is a fault.
    ///
    /// # Errors
    /// What ends the run early at the last line: the fault of [`Player::line`], or a dump that is open (R12).
    pub fn finish<W: Write>(&mut self, writer: &mut W) -> Result<Summary, RecordingFault>
        requires { self.old.lines < 2 ^ 64 - 2 }
        ensures ran { AppendsRun (W.contents writer.old) (W.contents writer.new)
            (place_of self.old) result }
        ensures counted { IfOk result (λ summary. summary.lines ≡ self.new.lines) }
        ensures count { self.new.lines ≤ self.old.lines + 1 }
    {
        let played = self.summary();
        let line = self.buffer.rest();
        if line.is_empty() {
            return self.end();
        }
        if let Err(cause) = self.player.line(line, writer) {
            return Err(stop_at(played, cause));
        }
        self.lines += 1;
        self.end()
    }

    /// What was played, where no dump is open.
    fn end(&self) -> Result<Summary, RecordingFault>
        requires { self.now.lines < 2 ^ 64 - 1 }
        ensures { EndsAt (session_of self.now.player) self.now.lines result }
    {
        if self.player.is_open() {
            return Err(self.fault(Cause::Unended));
        }
        Ok(self.summary())
    }

    /// What was played so far.
    pub fn summary(&self) -> Summary
        ensures lines { result.lines ≡ self.now.lines }
        ensures counts { result ≡ summary_of (session_of self.now.player) result.lines }
    {
        self.player.summary(self.lines)
    }

    /// What ends the run at the line that has begun.
    pub fn fault(&self, cause: Cause) -> RecordingFault
        requires { self.now.lines < 2 ^ 64 - 1 }
        ensures { (result.line ≡ self.now.lines + 1) × (result.cause ≡ cause)
            × PlayedTo (session_of self.now.player) result }
    {
        stop_at(self.summary(), cause)
    }
}

/// What ends the run at the line after those that were played.
fn stop_at(played: Summary, cause: Cause) -> RecordingFault
    requires { played.lines < 2 ^ 64 - 1 }
    ensures { (result.line ≡ played.lines + 1) × (result.cause ≡ cause) × (result.played ≡ played) }
{
    RecordingFault {
        line: played.lines + 1,
        cause,
        played,
    }
}
