//! Exit statuses.

ghost use Rattle.std.specs.Prelude.{◌≡◌};
ghost use Rattle.hidrun.specs.Status.{status_of};

use hid_script::{Cause, ScriptFault};

/// A line of the script is refused.
pub const REFUSED: u8 = 1;

/// The command line is wrong.
pub const WRONG_USAGE: u8 = 2;

/// Memory, the reader or the writer failed.
pub const OUTSIDE: u8 = 3;

/// The exit status of a run that ended early: 1 where a line is refused, 3 where the cause lies outside the script.
pub fn exit_of(fault: &ScriptFault) -> u8
    ensures { result ≡ status_of fault.now.cause }
{
    match fault.cause {
        Cause::Syntax | Cause::LineTooLong | Cause::BadHex | Cause::Step(_) | Cause::NoLayout =>
            REFUSED,
        Cause::Read | Cause::Write | Cause::Memory | Cause::TooManyReads => OUTSIDE,
    }
}
