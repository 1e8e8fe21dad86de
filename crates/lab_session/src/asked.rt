//! What the bench doesn't have: lines that come next, and files.

ghost use Rattle.std.specs.Prelude.{◌≡◌};
ghost use Rattle.std.specs.Option.{option_map};
ghost use Rattle.lab_lines.specs.LabLines.{said_of, refusal_of};
ghost use Rattle.lab_session.specs.Asking.{asked_said, asked_by, cause_by};

use hid_requests::Boot;
use hid_script::Cause;
use hid_stack::Start;
use lab_lines::{LabLine, Unread};

/// What a line asks for.
#[derive(Clone, Copy)]
pub enum Asked<'a> {
    /// The lines up to its `end` come next, so often: 1 to 10,000.
    Repeat {
        /// How often.
        count: u16,
    },
    /// The end of a `repeat`.
    End,
    /// The lines of a file come next.
    Include(&'a [u8]),
    /// A device is attached, whose descriptor is in a file.
    Device {
        /// How device and host begin.
        start: Start,
        /// Whether its reports are those of the boot protocol.
        boot: Boot,
        /// The name of the file.
        name: &'a [u8],
    },
}

/// What a line asks for; none where the bench has all that it needs.
pub(crate) fn asked_of(line: LabLine<'_>) -> Option<Asked<'_>>
    ensures { option_map asked_said result ≡ asked_by (said_of line.entry) }
{
    match line {
        LabLine::Repeat { count } => Some(Asked::Repeat { count }),
        LabLine::End => Some(Asked::End),
        LabLine::Include(name) => Some(Asked::Include(name)),
        LabLine::DeviceFile { start, boot, name } => Some(Asked::Device { start, boot, name }),
        LabLine::Nothing
        | LabLine::Script(_)
        | LabLine::Short(_)
        | LabLine::Layout(_)
        | LabLine::Values(_)
        | LabLine::Device { .. }
        | LabLine::Change { .. }
        | LabLine::Click { .. }
        | LabLine::Type { .. }
        | LabLine::Lose { .. }
        | LabLine::Expect(_)
        | LabLine::ExpectNone
        | LabLine::ExpectAny
        | LabLine::Wait { .. } => None,
    }
}

/// The cause of a line that can't be read.
pub(crate) fn unread_cause(unread: Unread<'_>) -> Cause
    ensures { result ≡ cause_by (refusal_of unread.entry) }
{
    match unread {
        Unread::TooLong => Cause::LineTooLong,
        Unread::Word(_, _) => Cause::Syntax,
    }
}
