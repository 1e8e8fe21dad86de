//! What a run reads and writes, by traits whose contracts name what each call answered.

ghost use Rattle.std.specs.Prelude.{◌≡◌, ◌<◌, ℕ, List, Option, None, IfOk};
ghost use Rattle.std.specs.Io.{ReadsAtMost, WritesAtMost};
ghost use Rattle.std.specs.Io.KnownBytes.{Keeps, ReadConsumes, WriteAppends};
ghost use Rattle.hid_script.specs.Streams.{Answer, answer_of, read_count, AnswerConsumes, Reply, write_reply, flush_reply, ReplyAppends};

use std::io::{ErrorKind, Read, Write};

/// What a read answered.
#[derive(Clone, Copy)]
pub enum ReadResult {
    /// How many bytes stand first in the buffer. A read of no byte ends a script.
    Bytes(usize),
    /// The read was interrupted, and may be tried again.
    Interrupted,
    /// The read failed.
    Failed,
}

/// A write or a flush failed, or a write took no byte.
#[derive(Clone, Copy)]
pub struct WriteFailed;

/// A reader, of which contracts name what each read answered. Each [`Read`] is a `Source`.
pub trait Source {
    // The bytes that reads will give from here on, where they are known.
    ghost remaining: { Self → Option (List ℕ) } = { λ _. None };

    // A read in one state of the reader may give an answer and leave another state.
    ghost reads: { Self → Answer → Self → Type 0 };

    /// Reads some bytes into the first places of a buffer.
    fn read(&mut self, buf: &mut [u8]) -> ReadResult
        ensures bound { ReadsAtMost (read_count result) buf.new }
        ensures bytes { ReadConsumes (remaining self.old) (remaining self.new)
            (read_count result) buf.new }
        ensures answer { reads self.old (answer_of result buf.new) self.new };
}

impl<R: Read> Source for R {
    ghost remaining = { R.remaining };

    ghost reads = { λ before answer after. AnswerConsumes (R.remaining before) answer (R.remaining after) };

    fn read(&mut self, buf: &mut [u8]) -> ReadResult {
        match Read::read(self, buf) {
            Ok(n) => ReadResult::Bytes(n),
            Err(error) if error.kind() == ErrorKind::Interrupted => ReadResult::Interrupted,
            Err(_) => ReadResult::Failed,
        }
    }
}

/// A writer, of which contracts name what each call answered. Each [`Write`] is a `Sink`.
pub trait Sink {
    // The bytes that the writer holds, where they are known.
    ghost contents: { Self → Option (List ℕ) } = { λ _. None };

    // A call in one state of the writer may give a reply and leave another state.
    ghost calls: { Self → Reply → Self → Type 0 };

    /// Takes some of the first bytes of a text, one at least.
    ///
    /// # Errors
    /// [`WriteFailed`], if the write failed or took no byte.
    fn write(&mut self, text: &[u8]) -> Result<usize, WriteFailed>
        ensures bound { WritesAtMost result text.now }
        ensures some { IfOk result (λ n. 0 < n) }
        ensures bytes { WriteAppends (contents self.old) (contents self.new) result text.now }
        ensures call { calls self.old (write_reply result text.now) self.new };

    /// Hands on all bytes that the writer took.
    ///
    /// # Errors
    /// [`WriteFailed`], if the flush failed.
    fn flush(&mut self) -> Result<(), WriteFailed>
        ensures bytes { Keeps (contents self.old) (contents self.new) }
        ensures call { calls self.old (flush_reply result) self.new };
}

impl<W: Write> Sink for W {
    ghost contents = { W.contents };

    ghost calls = { λ before reply after. ReplyAppends (W.contents before) reply (W.contents after) };

    fn write(&mut self, text: &[u8]) -> Result<usize, WriteFailed> {
        match Write::write(self, text) {
            Ok(0) | Err(_) => Err(WriteFailed),
            Ok(n) => Ok(n),
        }
    }

    fn flush(&mut self) -> Result<(), WriteFailed> {
        match Write::flush(self) {
            Ok(()) => Ok(()),
            Err(_) => Err(WriteFailed),
        }
    }
}
