//! Bytes that come in pieces, cut into lines.

ghost use Rattle.std.specs.Prelude.{◌≡◌, ◌+◌, ◌<◌, ◌≤◌, ◌↔◌, [], ◌∷◌, ◌++◌, length, IsOk, OnOk, OnErr, MatchOption};
ghost use Rattle.std.specs.Str.Lines.{strip_carriage_return};
ghost use Rattle.hid_text.specs.Lines.{IsUnbroken, ended_line};

use arrayvec::ArrayVec;
use memchr::memchr;

const LINE_FEED: u8 = b'\n';

/// The bytes before the first line feed, and those after it; nothing where there is none.
pub fn split_line(bytes: &[u8]) -> Option<(&[u8], &[u8])>
    ensures { MatchOption result (IsUnbroken bytes.now)
        (λ parts. IsUnbroken parts.0.now × (bytes.now ≡ parts.0.now ++ 10 ∷ parts.1.now)) }
{
    let end = memchr(LINE_FEED, bytes)?;
    Some((&bytes[..end], &bytes[end + 1..]))
}

/// A line has more bytes than there is room for.
#[derive(Debug, Clone, Copy, PartialEq, Eq)]
pub struct TooLong;

/// The bytes of a line that has begun. A line that comes whole is never copied.
#[derive(Drop)]
pub struct LineBuffer<const ROOM: usize> {
    bytes: ArrayVec<u8, ROOM>,
    ghost unbroken: { IsUnbroken bytes.items },
}

impl<const ROOM: usize> LineBuffer<ROOM> {
    /// Of a line of which nothing has come.
    pub fn new() -> Self
        ensures { result.bytes.items ≡ [] }
    {
        LineBuffer {
            bytes: ArrayVec::new(),
        }
    }

    /// Keeps bytes that don't end the line.
    ///
    /// # Errors
    /// The line has more bytes than there is room for: nothing is kept.
    pub fn keep(&mut self, bytes: &[u8]) -> Result<(), TooLong>
        requires { IsUnbroken bytes.now }
        ensures variant { IsOk result ↔ (length self.old.bytes.items + length bytes.now ≤ ROOM) }
        ensures ok { OnOk result (self.new.bytes.items ≡ self.old.bytes.items ++ bytes.now) }
        ensures err { OnErr result (self.new ≡ self.old) }
        ensures full { OnErr result (ROOM < length self.old.bytes.items + length bytes.now) }
    {
        match self.bytes.try_extend_from_slice(bytes) {
            Ok(()) => Ok(()),
            Err(_) => Err(TooLong),
        }
    }

    /// Takes the last bytes of the line. They are kept only where other bytes came before them.
    ///
    /// # Errors
    /// The line has more bytes than there is room for: nothing is kept.
    pub fn end_line(&mut self, last: &[u8]) -> Result<(), TooLong>
        requires { IsUnbroken last.now }
        ensures variant { IsOk result ↔ (length self.old.bytes.items + length last.now ≤ ROOM) }
        ensures ok { OnOk result (ended_line self.new.bytes.items last.now
            ≡ self.old.bytes.items ++ last.now) }
        ensures err { OnErr result (self.new ≡ self.old) }
        ensures full { OnErr result (ROOM < length self.old.bytes.items + length last.now) }
    {
        if self.bytes.is_empty() && last.len() <= ROOM {
            return Ok(());
        }
        self.keep(last)
    }

    /// The line that these last bytes ended, without the one carriage return at its end, if it has one.
    pub fn line<'a>(&'a self, last: &'a [u8]) -> &'a [u8]
        ensures { result.now ≡ strip_carriage_return (ended_line self.now.bytes.items last.now) }
    {
        if self.bytes.is_empty() {
            return without_return(last);
        }
        without_return(self.bytes.as_slice())
    }

    /// What was kept of the line: all of it, where nothing comes after it.
    pub fn rest(&self) -> &[u8]
        ensures value { result.now ≡ self.now.bytes.items }
        ensures unbroken { IsUnbroken result.now }
    {
        self.bytes.as_slice()
    }

    /// Begins another line.
    pub fn clear(&mut self)
        ensures { self.new.bytes.items ≡ [] }
    {
        self.bytes.clear();
    }
}

/// A line without the one carriage return at its end, if it has one.
fn without_return(line: &[u8]) -> &[u8]
    ensures { result.now ≡ strip_carriage_return line.now }
{
    match line {
        [shorter @ .., b'\r'] => shorter,
        _ => line,
    }
}
