//! Why a capture ends early.

ghost use Rattle.std.specs.Prelude.{◌≡◌};

use std::alloc::AllocError;
use thiserror::Error;

/// Why no further frame can be read: the first of these that applies to a block, and of its options the first that is wrong.
/// A cause is printed as its code, and in words.
#[derive(Clone, Copy, Debug, PartialEq, Eq)]
pub enum Cause {
    /// K1: the first four bytes are those of neither pcap nor pcapng.
    NotCapture,
    /// K2: the byte-order magic of a section is none.
    BadOrder,
    /// K3: the length of a block is under 12, or no multiple of four.
    BadLength,
    /// K4: a block of pcapng, or the frame of a pcap record, of more than 16,777,216 bytes.
    TooLong,
    /// K5: the length at the end of a block isn't that at its beginning.
    BadTrailer,
    /// K6: a block is too short for the fields of its type.
    TooShort,
    /// K7: a pcap file of another version than 2.4, or a section of pcapng of another one than 1.0 and 1.2.
    BadVersion,
    /// K8: a section describes more than 256 interfaces.
    TooManyInterfaces,
    /// K9: an option of an interface ends after its block, or has no length that its kind has.
    BadOption,
    /// K10: the clock of an interface has more than 10^19 or 2^63 ticks a second.
    BadClock,
    /// K11: a frame of an interface that the section hasn't described.
    NoInterface,
    /// K12: a frame is longer than its block.
    CutFrame,
    /// K13: the bytes end in the middle of a block, or before the first.
    Cut,
    /// K14: memory ran out.
    Memory,
}

impl From<AllocError> for Cause {
    ghost use Rattle.usb_capture.specs.declared.fault.Cause.TheVariants.{Memory};

    ghost from_gives = { λ _ cause. cause ≡ Memory };

    fn from(_error: AllocError) -> Cause {
        Cause::Memory
    }
}

/// Where and why a capture ends early.
#[derive(Clone, Copy, Debug, PartialEq, Eq, Error)]
#[error("byte {at}: {cause}")]
pub struct CaptureFault {
    /// The place of the block in the file, in bytes from 0.
    pub at: u64,
    pub cause: Cause,
}
