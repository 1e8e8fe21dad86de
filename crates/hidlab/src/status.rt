//! Exit statuses.

ghost use Rattle.std.specs.Prelude.{◌≡◌};
ghost use Rattle.hidlab.specs.Status.{status_of};

use hid_script::Cause;
use lab_session::LabCause;

/// All lines were carried out.
pub const FINE: u8 = 0;

/// A line is refused.
pub const REFUSED: u8 = 1;

/// The command line is wrong.
pub const WRONG_USAGE: u8 = 2;

/// A file, standard input or output, or memory failed.
pub const OUTSIDE: u8 = 3;

/// What is expected wasn't printed.
pub const UNMET: u8 = 4;

/// The exit status of a run that ended early.
pub fn exit_of(cause: LabCause) -> u8
    ensures { result ≡ status_of cause }
{
    match cause {
        LabCause::Script(cause) => match cause {
            Cause::Syntax | Cause::LineTooLong | Cause::BadHex | Cause::Step(_) | Cause::NoLayout =>
                REFUSED,
            Cause::Read | Cause::Write | Cause::Memory | Cause::TooManyReads => OUTSIDE,
        },
        LabCause::Unpaired | LabCause::TooDeep | LabCause::Unsettled | LabCause::NoDescriptor =>
            REFUSED,
        LabCause::Unmet => UNMET,
        LabCause::Unreadable => OUTSIDE,
    }
}
