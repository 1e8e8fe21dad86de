//! The blocks of a capture, from bytes that come in pieces.

ghost use Rattle.std.specs.Prelude.{◌≡◌, ◌<◌, ◌≤◌, [], true, None, length, take, option_map, IfOk};
ghost use Rattle.usb_capture.specs.Place.{is_sound};

use super::advance::{Advanced, advance};
use super::fault::{CaptureFault, Cause};
use super::format::{Format, Interface};
use super::frame::Frame;
use super::reading::FrameHead;
use std::alloc::Global;

/// What came of the block that is kept.
#[derive(Clone, Copy, Debug)]
enum Part {
    /// The block isn't whole; it has no byte where none has come.
    Begun,
    /// The block is whole and accepted, with its frame where it has one.
    Whole(Option<FrameHead>),
    /// The block is refused.
    Refused(CaptureFault),
}

/// A capture of which some bytes have come.
#[derive(Drop)]
pub struct Capture {
    format: Format,
    interfaces: Vec<Interface>,
    /// The place of the block in the file.
    at: u64,
    block: Vec<u8>,
    part: Part,
    ghost sound: { is_sound part format block.items ≡ true },
}

impl Capture {
    ghost use Rattle.usb_capture.specs.Capture.{place_of, kept_place, frame_shown, refusal_of, state_of, Takes, end_of};
    ghost use Rattle.usb_capture.specs.Place.{begin};
    ghost use Rattle.usb_capture.specs.Gathering.{IsPartial};
    ghost use Rattle.usb_capture.specs.Blocks.{Advances, with_frame};
    ghost use Rattle.usb_capture.specs.FrameRecord.{frame_record};

    /// A capture of which nothing has come.
    pub fn new(alloc: Global) -> Self
        ensures place { place_of result ≡ begin }
        ensures accepted { refusal_of result.part ≡ None }
    {
        Capture {
            format: Format::Unknown,
            interfaces: Vec::new(alloc),
            at: 0,
            block: Vec::new(alloc),
            part: Part::Begun,
        }
    }

    /// Takes bytes up to the end of the block that they complete, or all of them, and answers how many. Then
    /// [`Capture::frame`] is the frame of that block. Places from 2^64 - 1 on are that number.
    ///
    /// # Errors
    /// Why the block is refused, or [`Cause::Memory`]. Each later call has the same fault, and takes nothing.
    pub fn take(&mut self, bytes: &[u8]) -> Result<usize, CaptureFault>
        ensures taken { Takes (state_of self.old) bytes.now result (state_of self.new) }
        ensures advanced { IfOk result (λ n. Advances (place_of self.old) (take n bytes.now)
            (with_frame (frame_shown self.new) []) (place_of self.new)) }
        ensures within { IfOk result (λ n. n ≤ length bytes.now) }
        ensures more { IfOk result (λ n. 0 < length bytes.now → 0 < n) }
    {
        if let Some(fault) = self.refusal() {
            return Err(fault);
        }
        self.begin_next();
        // (while bytes are taken, nothing is known of the block)
        self.part = Part::Whole(None);
        match advance(
            &mut self.format,
            &mut self.interfaces,
            &mut self.block,
            bytes,
        ) {
            Ok(Advanced::All) => {
                self.part = Part::Begun;
                Ok(bytes.len())
            }
            Ok(Advanced::Whole { taken, frame }) => {
                self.part = Part::Whole(frame);
                Ok(taken)
            }
            Err(cause) => {
                let fault = CaptureFault { at: self.at, cause };
                self.part = Part::Refused(fault);
                Err(fault)
            }
        }
    }

    /// What refused the capture.
    fn refusal(&self) -> Option<CaptureFault>
        ensures { result ≡ refusal_of self.now.part }
    {
        match self.part {
            Part::Refused(fault) => Some(fault),
            Part::Begun | Part::Whole(_) => None,
        }
    }

    /// Leaves a block that is whole.
    fn begin_next(&mut self)
        requires { refusal_of self.old.part ≡ None }
        ensures place { kept_place self.new ≡ place_of self.old }
        ensures part { self.new.part ≡ Part.Begun }
        ensures partial { IsPartial self.new.format self.new.block.items }
    {
        if let Part::Whole(_) = self.part {
            self.at = self.at.saturating_add(self.block.len() as u64);
            self.block.clear();
            self.part = Part::Begun;
        }
    }

    /// The frame of the block that the last [`Capture::take`] completed. None where it completed none, or one that has no
    /// frame.
    pub fn frame(&self) -> Option<Frame<'_>>
        ensures { option_map frame_record result ≡ frame_shown self.now }
    {
        match self.part {
            Part::Whole(Some(head)) => Some(Frame {
                at: self.at,
                time: head.time,
                link: head.link,
                order: head.order,
                original_length: head.original_length,
                bytes: &self.block[head.from..head.from + head.captured],
            }),
            _ => None,
        }
    }

    /// No bytes come any more.
    ///
    /// # Errors
    /// What refused the capture before, or [`Cause::Cut`]: the bytes end in the middle of a block, or before the first.
    pub fn finish(&self) -> Result<(), CaptureFault>
        ensures { result ≡ end_of self.now }
    {
        match self.part {
            Part::Refused(fault) => Err(fault),
            Part::Whole(_) => Ok(()),
            Part::Begun => {
                if self.format != Format::Unknown && self.block.is_empty() {
                    return Ok(());
                }
                Err(CaptureFault {
                    at: self.at,
                    cause: Cause::Cut,
                })
            }
        }
    }
}
