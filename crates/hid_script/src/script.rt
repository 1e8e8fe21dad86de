//! The lines of a script, from bytes that come in pieces.

ghost use Rattle.std.specs.Prelude.{◌≡◌, ◌+◌, ◌-◌, ◌^◌, ◌<◌, ◌≤◌, [], ◌∷◌, ◌++◌, length, IfOk, IfErr};
ghost use Rattle.hid_text.specs.Lines.{IsUnbroken};
ghost use Rattle.hid_script.specs.Place.{Takes, AppendsTaken, AppendsRun};
ghost use Rattle.hid_script.specs.Streams.{EndsLine};

use super::fault::{Cause, ScriptFault};
use super::interpreter::Interpreter;
use super::streams::Sink;
use super::summary::Summary;
use hid_text::{LineBuffer, TooLong, split_line};

/// One byte more than a line has: a carriage return may stand before the end.
const ROOM: usize = 1025;

/// The session, the line that has begun, and how many lines came before it.
#[derive(Drop)]
pub struct Script {
    interpreter: Interpreter,
    buffer: LineBuffer<ROOM>,
    lines: u64,
}

impl Script {
    ghost use Rattle.hid_script.specs.Interpreter.{session_of};
    ghost use Rattle.hid_script.specs.Script.{place_of};

    /// A script of which nothing has been read.
    pub fn new(interpreter: Interpreter) -> Self
        ensures { place_of result
            ≡ record { session = session_of interpreter; begun = []; lines = 0 } }
    {
        Script {
            interpreter,
            buffer: LineBuffer::new(),
            lines: 0,
        }
    }

    /// Takes the next bytes, and runs each line that they end.
    ///
    /// # Errors
    /// The fault of the first line that is not carried out, or X2 of the line that has begun.
    pub fn feed<W: Sink>(&mut self, bytes: &[u8], writer: &mut W) -> Result<(), ScriptFault>
        requires { self.old.lines + length bytes.now < 2 ^ 64 - 1 }
        ensures taken { AppendsTaken (W.contents writer.old) (W.contents writer.new)
            (place_of self.old) bytes.now result (place_of self.new) }
        ensures outside { EndsLine W.calls writer.old writer.new result }
        ensures count { self.new.lines ≤ self.old.lines + length bytes.now }
    {
        let mut rest = bytes;
        while let Some((last, behind)) = split_line(rest) {
            self.end_line(last, writer)?;
            rest = behind;
        }
        self.keep(rest)
    }

    /// The last bytes of a line came, and its line feed.
    fn end_line<W: Sink>(&mut self, last: &[u8], writer: &mut W) -> Result<(), ScriptFault>
        requires room { self.old.lines < 2 ^ 64 - 1 }
        requires unbroken { IsUnbroken last.now }
        ensures taken { AppendsTaken (W.contents writer.old) (W.contents writer.new)
            (place_of self.old) (last.now ++ 10 ∷ []) result (place_of self.new) }
        ensures outside { EndsLine W.calls writer.old writer.new result }
        ensures count { self.new.lines ≤ self.old.lines + 1 }
    {
        if let Err(TooLong) = self.buffer.end_line(last) {
            return Err(self.fault(Cause::LineTooLong));
        }
        if let Err(cause) = self.interpreter.line(self.buffer.line(last), writer) {
            return Err(self.fault(cause));
        }
        self.buffer.clear();
        self.lines += 1;
        Ok(())
    }

    /// More bytes of a line came, which don't end it.
    fn keep(&mut self, bytes: &[u8]) -> Result<(), ScriptFault>
        requires room { self.old.lines < 2 ^ 64 - 1 }
        requires unbroken { IsUnbroken bytes.now }
        ensures taken { Takes (place_of self.old) bytes.now [] result (place_of self.new) }
        ensures cause { IfErr result (λ fault. fault.cause ≡ Cause.LineTooLong) }
        ensures count { self.new.lines ≡ self.old.lines }
    {
        if let Err(TooLong) = self.buffer.keep(bytes) {
            return Err(self.fault(Cause::LineTooLong));
        }
        Ok(())
    }

    /// Runs the line that has begun, if it has a byte: the script is at its end.
    ///
    /// # Errors
    /// The fault of that line, if it is not carried out.
    pub fn finish<W: Sink>(&mut self, writer: &mut W) -> Result<Summary, ScriptFault>
        requires { self.old.lines < 2 ^ 64 - 1 }
        ensures ran { AppendsRun (W.contents writer.old) (W.contents writer.new)
            (place_of self.old) result }
        ensures outside { EndsLine W.calls writer.old writer.new result }
        ensures counted { IfOk result (λ summary. summary.lines ≡ self.new.lines) }
        ensures line { IfErr result (λ fault. fault.line ≡ self.old.lines + 1) }
        ensures count { self.new.lines ≤ self.old.lines + 1 }
    {
        let line = self.buffer.rest();
        if line.is_empty() {
            return Ok(self.summary());
        }
        if let Err(cause) = self.interpreter.line(line, writer) {
            return Err(self.fault(cause));
        }
        self.lines += 1;
        Ok(self.summary())
    }

    /// The lines and the events so far.
    fn summary(&self) -> Summary
        ensures lines { result.lines ≡ self.now.lines }
        ensures events { result.events ≡ (session_of self.now.interpreter).events }
    {
        Summary {
            lines: self.lines,
            events: self.interpreter.events(),
        }
    }

    /// What ends the run at the line that has begun.
    pub fn fault(&self, cause: Cause) -> ScriptFault
        requires { self.now.lines < 2 ^ 64 - 1 }
        ensures { (result.line ≡ self.now.lines + 1) × (result.cause ≡ cause) }
    {
        ScriptFault {
            line: self.lines as usize + 1,
            cause,
        }
    }
}
