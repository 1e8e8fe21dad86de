//! Who gives the bytes of lines: a reader, or the body of a `repeat`.

ghost use Rattle.std.specs.Prelude.{◌≡◌, ℕ, List, Option, None, Some, IfOk, IfErr};
ghost use Rattle.lab_session.specs.Calls.{Fed, FedConsumes, FeedAnswers, NeverFails};
ghost use Rattle.lab_session.specs.Feeds.{Feeds, IsOutside};
ghost use Rattle.lab_lines.specs.Bodies.{text_to_come};

use hid_script::Cause;
use lab_lines::Body;
use std::alloc::Global;
use std::io::{self, ErrorKind, Read};

/// How many bytes a read is asked for.
const PIECE: usize = 4096;

/// Who gives bytes, of which contracts name those that are still to come.
pub trait Feed {
    // The bytes that will be given from here on, where they are known.
    ghost remaining: { Self → Option (List ℕ) } = { λ _. None };

    // A feed in one state may answer so, and leave another state.
    ghost feeds: { Self → Fed → Self → Type 0 };

    /// Adds the bytes that come next after those of a room. Whether more may come: at the end none do.
    ///
    /// # Errors
    /// X5 where a read failed; X7.
    fn feed(&mut self, room: &mut Vec<u8>) -> Result<bool, Cause>
        ensures fed { IfOk result (λ more. Feeds (remaining self.old) (remaining self.new)
            room.old.items room.new.items more) }
        ensures outside { IfErr result (λ cause. IsOutside cause) }
        ensures answer { FeedAnswers feeds self.old self.new result };
}

/// A reader, and what the system said where a read of it failed.
#[derive(Drop)]
pub struct Incoming<R> {
    reader: R,
    /// Room for a read, which is used again; none before the first.
    piece: Vec<u8>,
    failure: Option<io::Error>,
}

impl<R> Incoming<R> {
    /// A reader of which nothing was read.
    pub fn new(alloc: Global, reader: R) -> Self {
        Incoming {
            reader,
            piece: Vec::new(alloc),
            failure: None,
        }
    }

    /// What the system said where a read failed.
    pub fn failure(&self) -> Option<io::Error> {
        self.failure
    }
}

impl<R: Read> Feed for Incoming<R> {
    ghost remaining = { λ incoming. R.remaining incoming.reader };

    ghost feeds = { λ before fed after. FedConsumes (R.remaining before.reader) fed (R.remaining after.reader) };

    fn feed(&mut self, room: &mut Vec<u8>) -> Result<bool, Cause> {
        if self.piece.is_empty() {
            self.piece.resize(PIECE, 0)?;
        }
        match self.reader.read(self.piece.as_mut_slice()) {
            Ok(0) => Ok(false),
            Ok(count) => {
                room.extend_from_slice(&self.piece.as_slice()[..count])?;
                Ok(true)
            }
            Err(error) if error.kind() == ErrorKind::Interrupted => Ok(true),
            Err(error) => {
                self.failure = Some(error);
                Err(Cause::Read)
            }
        }
    }
}

impl Feed for Body {
    ghost remaining = { λ body. Some (text_to_come body) };

    ghost feeds = { λ before fed after. NeverFails (Some (text_to_come before)) fed (Some (text_to_come after)) };

    fn feed(&mut self, room: &mut Vec<u8>) -> Result<bool, Cause> {
        match self.give(room) {
            Ok(more) => Ok(more),
            Err(_) => Err(Cause::Memory),
        }
    }
}
