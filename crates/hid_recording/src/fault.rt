//! What a run refuses, and why it ends early.

ghost use Rattle.std.specs.Prelude.{◌≡◌};

use super::summary::Summary;
use hid_layout::{LayoutFault, LongReport};
use hid_usages::ReportFault;
use std::alloc::AllocError;
use thiserror::Error;

/// Why a line is refused. It is printed as its code, and in words.
#[derive(Clone, Copy, Debug, PartialEq, Eq)]
pub enum Refusal {
    /// R1: no line of a recording.
    Syntax,
    /// R3: a byte isn't two hex digits; this many bytes of its line stand before it.
    BadHex { at: usize },
    /// R4: the count is missing, or no number.
    NoCount,
    /// R4: the count isn't the number of bytes that are there.
    BadCount { said: u64, found: usize },
    /// R4: of a frame fewer bytes were captured than it had.
    Truncated,
    /// R5: the device isn't a number from 0 to 15.
    BadDevice,
    /// R6: the time isn't digits and points, 32 at most.
    BadTime,
    /// R7: a report, where the device has no descriptor that was accepted.
    NoLayout,
    /// R12: a dump begins, and no empty line has ended the one before.
    Unended,
    /// R13: a dump of over 16,384 bytes.
    DumpTooLong,
    /// R14: a dump, or in a capture a descriptor, of a seventeenth interface.
    TooManyDevices,
    /// R15: a chunk of a dump, and a part of its report may be missing.
    PartMissing,
    /// L1 to L16: the descriptor is refused, of L15 for this report.
    Layout(LayoutFault, Option<LongReport>),
    /// U8, U9: the bytes are no Input report of the device.
    Report(ReportFault),
}

/// Why a run ends early.
#[derive(Clone, Copy, Debug, PartialEq, Eq)]
pub enum Cause {
    /// A line of a strict run is refused.
    Refused(Refusal),
    /// R2: a line of over 65,536 bytes, without its end.
    LineTooLong,
    /// R8: the reader failed.
    Read,
    /// R9: the writer failed, or took no byte.
    Write,
    /// R10: memory ran out.
    Memory,
    /// R11: the recording wasn't at its end after 1,000,000,000,000 reads.
    TooManyReads,
    /// R12: no empty line has ended the last dump.
    Unended,
}

impl From<AllocError> for Cause {
    ghost use Rattle.hid_recording.specs.declared.fault.Cause.TheVariants.{Memory};

    ghost from_gives = { λ _ cause. cause ≡ Memory };

    fn from(_error: AllocError) -> Cause {
        Cause::Memory
    }
}

/// Why a text isn't made and written to its end.
#[derive(Clone, Copy, Debug, PartialEq, Eq)]
pub enum TextFault {
    /// R10: memory ran out.
    Memory,
    /// R9: the writer failed, or took no byte.
    Write,
}

impl From<AllocError> for TextFault {
    ghost use Rattle.hid_recording.specs.declared.fault.TextFault.TheVariants.{Memory};

    ghost from_gives = { λ _ fault. fault ≡ Memory };

    fn from(_error: AllocError) -> TextFault {
        TextFault::Memory
    }
}

impl From<TextFault> for Cause {
    ghost use Rattle.hid_recording.specs.Pieces.{cause_of};

    ghost from_gives = { λ fault cause. cause ≡ cause_of fault };

    fn from(fault: TextFault) -> Cause {
        match fault {
            TextFault::Memory => Cause::Memory,
            TextFault::Write => Cause::Write,
        }
    }
}

/// Where and why a run ended early, and what was played before.
#[derive(Clone, Copy, Debug, PartialEq, Eq, Error)]
#[error("line {line}: {cause}")]
pub struct RecordingFault {
    /// The line that was being read or played, from 1.
    pub line: u64,
    pub cause: Cause,
    /// What was played before that line.
    pub played: Summary,
}
