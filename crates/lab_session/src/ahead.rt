//! Bytes that were read, of which lines were not carried out yet.

ghost use Rattle.std.specs.Prelude.{◌≡◌, ◌⊎◌, ◌+◌, ◌-◌, ◌^◌, ◌<◌, ◌≤◌, ◌++◌, [], true, Ok, length, drop, vec_len, IfOk, OnOk, IfErr, IfSome};
ghost use Rattle.std.specs.Io.KnownBytes.{Keeps};
ghost use Rattle.hid_text.specs.Lines.{IsUnbroken};
ghost use Rattle.lab_session.specs.Calls.{EndsRead, EndsStep, FeedAnswers};
ghost use Rattle.lab_session.specs.Feeds.{EndsReading, EndsTaking, Feeds, IsOutside, TakesLine, TakesWholeLine, lines_after};

use super::fault::LabCause;
use super::feed::Feed;
use super::runs::{LabFault, without_return};
use hid_script::{Cause, Sink};
use hid_text::split_line;
use lab_lines::MAX_LAB_LINE;
use std::alloc::{AllocError, Global};
use std::mem::swap;

/// The most bytes of a line with the one carriage return at its end.
const MAX_BEGUN: usize = MAX_LAB_LINE + 1;

/// How many reads a line asks for at most.
const MAX_READS: u32 = 1_000_000;

/// The bytes that were read and not taken, and how many lines were taken before them.
#[derive(Drop)]
pub struct Ahead {
    alloc: Global,
    bytes: Vec<u8>,
    /// Room for the bytes that are left before a read, which is used again.
    spare: Vec<u8>,
    from: usize,
    lines: usize,
    waits: bool,
    ghost within: { from ≤ vec_len bytes },
    ghost counted: { lines < 2 ^ 64 - 1 },
}

impl Ahead {
    ghost use Rattle.lab_session.specs.Scripts.{StopsHere};
    ghost use Rattle.lab_session.specs.Ahead.{unread};

    /// Nothing was read. Where a read may have to wait, what was printed is handed on before it.
    pub fn new(alloc: Global, waits: bool) -> Self
        ensures unread { unread result ≡ [] }
        ensures lines { result.lines ≡ 0 }
    {
        Ahead {
            alloc,
            bytes: Vec::new(alloc),
            spare: Vec::new(alloc),
            from: 0,
            lines: 0,
            waits,
        }
    }

    /// How many lines were taken.
    pub fn lines(&self) -> usize
        ensures { result ≡ self.now.lines }
    {
        self.lines
    }

    /// What has memory for it.
    pub(crate) fn alloc(&self) -> Global {
        self.alloc
    }

    /// The bytes that were not taken.
    pub(crate) fn unread(&self) -> &[u8]
        ensures { result.now ≡ unread self.now }
    {
        &self.bytes.as_slice()[self.from..]
    }

    /// Lines were taken, up to so many in all: so many bytes are left.
    pub(crate) fn advance(&mut self, lines: usize, left: usize)
        requires left { left ≤ length (unread self.old) }
        requires lines { lines < 2 ^ 64 - 1 }
        ensures unread { unread self.new
            ≡ drop (length (unread self.old) - left) (unread self.old) }
        ensures lines { self.new.lines ≡ lines }
    {
        self.from = self.bytes.len() - left;
        self.lines = lines;
    }

    /// Why the line that comes next is not carried out.
    pub(crate) fn fault(&self, cause: Cause) -> LabFault
        ensures line { result.line ≡ self.now.lines + 1 }
        ensures cause { result.cause ≡ LabCause.Script cause }
    {
        LabFault {
            line: self.lines + 1,
            cause: LabCause::Script(cause),
        }
    }

    /// Takes the bytes away that were taken.
    fn drop_taken(&mut self) -> Result<(), AllocError>
        ensures unread { OnOk result (self.new.bytes.items ≡ unread self.old) }
        ensures from { OnOk result (self.new.from ≡ 0) }
        ensures lines { self.new.lines ≡ self.old.lines }
    {
        self.spare.clear();
        self.spare
            .extend_from_slice(&self.bytes.as_slice()[self.from..])?;
        self.from = 0;
        swap(&mut self.bytes, &mut self.spare);
        Ok(())
    }

    /// Adds the bytes that come next. Whether more may come.
    fn refill<F: Feed>(&mut self, feed: &mut F) -> Result<bool, Cause>
        ensures fed { IfOk result (λ more. Feeds (F.remaining feed.old) (F.remaining feed.new)
            (unread self.old) (unread self.new) more) }
        ensures lines { self.new.lines ≡ self.old.lines }
        ensures err { IfErr result (λ cause. IsOutside cause
            ⊎ ((cause ≡ Cause.LineTooLong) × (16385 < length (unread self.old)))) }
        ensures answer { FeedAnswers F.feeds feed.old feed.new result }
    {
        if self.unread().len() > MAX_BEGUN {
            return Err(Cause::LineTooLong);
        }
        if self.drop_taken().is_err() {
            return Err(Cause::Memory);
        }
        feed.feed(&mut self.bytes)
    }

    /// Hands on what was printed, where the next read may have to wait.
    fn hand_on<W: Sink>(&self, writer: &mut W) -> Result<(), Cause>
        ensures kept { Keeps (W.contents writer.old) (W.contents writer.new) }
        ensures cause { IfErr result (λ cause. cause ≡ Cause.Write) }
        ensures calls { EndsStep W.calls writer.old writer.new result }
    {
        if !self.waits {
            return Ok(());
        }
        if writer.flush().is_err() {
            return Err(Cause::Write);
        }
        Ok(())
    }

    /// Adds the bytes that come next, once what was printed is handed on. Whether more may come.
    ///
    /// # Errors
    /// X2 where the line that has begun is too long; X5, X6, X7.
    pub(crate) fn read_on<F: Feed, W: Sink>(
        &mut self,
        feed: &mut F,
        writer: &mut W,
    ) -> Result<bool, LabFault>
        ensures fed { IfOk result (λ more. Feeds (F.remaining feed.old) (F.remaining feed.new)
            (unread self.old) (unread self.new) more) }
        ensures lines { self.new.lines ≡ self.old.lines }
        ensures kept { Keeps (W.contents writer.old) (W.contents writer.new) }
        ensures err { IfErr result (λ fault. StopsHere (W.contents writer.old)
            (W.contents writer.new) (unread self.old) self.old.lines fault) }
        ensures ends { IfErr result (λ fault. EndsReading (unread self.old) self.old.lines fault) }
        ensures calls { EndsRead F.feeds W.calls feed.old feed.new writer.old writer.new result }
    {
        if let Err(cause) = self.hand_on(writer) {
            return Err(self.fault(cause));
        }
        match self.refill(feed) {
            Ok(more) => Ok(more),
            Err(cause) => Err(self.fault(cause)),
        }
    }

    /// Takes the next line that has come whole, without its end. Whether there is one.
    fn take_whole_line(&mut self, line: &mut Vec<u8>) -> Result<bool, AllocError>
        requires { line.old.items ≡ [] }
        ensures taken { IfOk result (TakesWholeLine (unread self.old) line.new.items (unread self.new)) }
        ensures lines { self.new.lines ≡ self.old.lines }
    {
        let Some((last, behind)) = split_line(self.unread()) else {
            return Ok(false);
        };
        let left = behind.len();
        line.extend_from_slice(without_return(last))?;
        self.advance(self.lines, left);
        Ok(true)
    }

    /// Takes what stands after the last line feed. Whether anything does.
    fn take_rest(&mut self, line: &mut Vec<u8>) -> Result<bool, AllocError>
        requires empty { line.old.items ≡ [] }
        requires unbroken { IsUnbroken (unread self.old) }
        ensures taken { IfOk result (TakesLine (unread self.old) line.new.items (unread self.new)) }
        ensures lines { self.new.lines ≡ self.old.lines }
    {
        let rest = self.unread();
        let some = !rest.is_empty();
        line.extend_from_slice(rest)?;
        self.advance(self.lines, 0);
        Ok(some)
    }

    /// A line was taken, or none was there.
    fn count_taken(&mut self, taken: Result<bool, AllocError>) -> Result<bool, LabFault>
        ensures same { IfOk result (λ some. taken ≡ Ok some) }
        ensures unread { unread self.new ≡ unread self.old }
        ensures lines { self.new.lines ≡ lines_after self.old.lines result }
        ensures err { IfErr result (λ fault. (fault.line ≡ self.old.lines + 1)
            × (fault.cause ≡ LabCause.Script Cause.Memory)) }
    {
        match taken {
            Ok(some) => {
                if some {
                    self.lines = (self.lines + 1).min(usize::MAX - 1);
                }
                Ok(some)
            }
            Err(_) => Err(self.fault(Cause::Memory)),
        }
    }

    /// Takes the next line, without its end. Whether there is one.
    ///
    /// # Errors
    /// X2, X5 to X8, at the line that was to come.
    pub fn next_line<F: Feed, W: Sink>(
        &mut self,
        feed: &mut F,
        line: &mut Vec<u8>,
        writer: &mut W,
    ) -> Result<bool, LabFault>
        ensures taken { IfSome (F.remaining feed.old) (λ more. IfOk result (λ some. IfSome (F.remaining feed.new)
            (λ left. TakesLine (unread self.old ++ more) line.new.items (unread self.new ++ left) some))) }
        ensures lines { self.new.lines ≡ lines_after self.old.lines result }
        ensures kept { Keeps (W.contents writer.old) (W.contents writer.new) }
        ensures err { IfErr result (EndsTaking (unread self.old) (F.remaining feed.old) self.old.lines) }
    {
        line.clear();
        for _ in 0..MAX_READS {
            let taken = self.take_whole_line(line);
            if self.count_taken(taken)? {
                return Ok(true);
            }
            if !self.read_on(feed, writer)? {
                let rest = self.take_rest(line);
                return self.count_taken(rest);
            }
        }
        Err(self.fault(Cause::TooManyReads))
    }

    /// The line with this number, of those that were read and not taken.
    pub fn line_at(&self, number: usize) -> &[u8] {
        let mut rest = self.unread();
        let mut at = self.lines;
        while let Some((last, behind)) = split_line(rest) {
            at = at.saturating_add(1);
            if at >= number {
                return without_return(last);
            }
            rest = behind;
        }
        rest
    }
}
