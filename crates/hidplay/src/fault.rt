//! What ended a file early.

ghost use Rattle.std.specs.Prelude.{◌≡◌, Some};
ghost use Rattle.std.specs.Option.{option_map};
ghost use Rattle.hidplay.specs.FileFault.{place_of_file, why_text};

use super::other::OtherFile;
use hid_input::{InputCause, InputFault};
use hid_recording::{
    CaptureCause, CaptureRunFault, Cause, LiveFault, RecordingFault, Refusal, Summary,
};
use std::fmt;
use usb_capture::Cause as FormatCause;

/// Where a file ended.
#[derive(Clone, Copy, Debug)]
pub enum Place {
    /// No line or other part of it: before the first one, or all of it.
    Start,
    /// A line of a recording, from 1.
    Line(u64),
    /// A frame of a capture, from 1.
    Frame(u64),
    /// A block of a capture, by the bytes before it.
    Byte(u64),
    /// A report of a live device, from 1.
    Report(u64),
}

/// Why a file ended early.
#[derive(Clone, Copy, Debug)]
pub enum Why {
    /// What ends a recording; of captures what lies outside of them, and refusals of a strict run.
    Recording(Cause),
    /// The capture can't be read from there on.
    Capture(FormatCause),
    /// The file has a report descriptor that can't be read.
    Descriptor(InputCause),
    /// The file is one that isn't played.
    Other(OtherFile),
}

/// Where and why a file ended early, and what was played of it.
#[derive(Clone, Copy, Debug)]
pub struct FileFault {
    pub place: Place,
    pub why: Why,
    pub played: Summary,
}

/// What ended a file of which nothing was read.
pub fn before_all(cause: Cause) -> FileFault {
    FileFault {
        place: Place::Start,
        why: Why::Recording(cause),
        played: Summary::none(),
    }
}

/// Why a descriptor can't be read, at its line if it is one's fault.
pub fn unread_descriptor(fault: InputFault) -> FileFault {
    if fault.cause == InputCause::Memory {
        return before_all(Cause::Memory);
    }
    let place = match fault.line {
        Some(line) => Place::Line(line),
        None => Place::Start,
    };
    FileFault {
        place,
        why: Why::Descriptor(fault.cause),
        played: Summary::none(),
    }
}

/// What ended a file that isn't played.
pub fn other_file(other: OtherFile) -> FileFault {
    FileFault {
        place: Place::Start,
        why: Why::Other(other),
        played: Summary::none(),
    }
}

impl Place {
    /// What the place counts, and its number; none at the start.
    pub fn counted(&self) -> Option<(&'static str, u64)>
        ensures { option_map (λ counted. (counted.0.now, counted.1)) result ≡ place_of_file self.now }
    {
        match self {
            Place::Start => None,
            Place::Line(number) => Some(("line", *number)),
            Place::Frame(number) => Some(("frame", *number)),
            Place::Byte(number) => Some(("byte", *number)),
            Place::Report(number) => Some(("report", *number)),
        }
    }
}

impl From<RecordingFault> for FileFault {
    ghost use Rattle.hidplay.specs.FileFault.{at_line};

    ghost from_gives = { λ fault ended. ended ≡ at_line fault };

    fn from(fault: RecordingFault) -> FileFault {
        FileFault {
            place: Place::Line(fault.line),
            why: Why::Recording(fault.cause),
            played: fault.played,
        }
    }
}

impl From<CaptureRunFault> for FileFault {
    ghost use Rattle.hidplay.specs.FileFault.{at_frame};

    ghost from_gives = { λ fault ended. ended ≡ at_frame fault };

    fn from(fault: CaptureRunFault) -> FileFault {
        let (place, why) = match fault.cause {
            CaptureCause::Run(cause) => (Place::Frame(fault.frame), Why::Recording(cause)),
            CaptureCause::Format(format) => (Place::Byte(format.at), Why::Capture(format.cause)),
        };
        FileFault {
            place,
            why,
            played: fault.played,
        }
    }
}

impl From<LiveFault> for FileFault {
    ghost use Rattle.hidplay.specs.FileFault.{at_report};

    ghost from_gives = { λ fault ended. ended ≡ at_report fault };

    fn from(fault: LiveFault) -> FileFault {
        let place = match fault.cause {
            // (the descriptor comes before the first report)
            Cause::Refused(Refusal::Layout(_, _)) => Place::Start,
            _ => Place::Report(fault.report),
        };
        FileFault {
            place,
            why: Why::Recording(fault.cause),
            played: fault.played,
        }
    }
}

impl fmt::Display for Why {
    ghost output = { λ why. Some (why_text why) };

    fn fmt<W: fmt::Write>(&self, f: &mut fmt::Formatter<W>) -> fmt::Result {
        match self {
            Why::Recording(cause) => write!(f, "{cause}"),
            Why::Capture(cause) => write!(f, "{cause}"),
            Why::Descriptor(cause) => write!(f, "{cause}"),
            Why::Other(other) => write!(f, "{other}"),
        }
    }
}
