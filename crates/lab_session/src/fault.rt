//! Why the bench ends early.

ghost use Rattle.std.specs.Prelude.{◌≡◌};

use hid_script::Cause;
use std::alloc::AllocError;
use std::fmt;

/// Why a line is not carried out. It is printed as its codes.
#[derive(Clone, Copy, Debug, PartialEq, Eq)]
pub enum LabCause {
    /// X1 to X9: as in a script.
    Script(Cause),
    /// X10: an `end` without its `repeat`, or the other way round.
    Unpaired,
    /// X11: over eight `repeat` or files in one another, or a body of over 1 MiB.
    TooDeep,
    /// X12: after 100 polls the device still has something to send.
    Unsettled,
    /// X13: another line was printed than the one that is expected.
    Unmet,
    /// X14: a file can't be read.
    Unreadable,
    /// X15: a file has no descriptor.
    NoDescriptor,
}

impl From<Cause> for LabCause {
    ghost use Rattle.lab_session.specs.declared.fault.LabCause.TheVariants.{Script};

    ghost from_gives = { λ cause result. result ≡ Script cause };

    fn from(cause: Cause) -> LabCause {
        LabCause::Script(cause)
    }
}

impl From<AllocError> for LabCause {
    ghost use Rattle.hid_script.specs.declared.fault.Cause.TheVariants.{Memory};
    ghost use Rattle.lab_session.specs.declared.fault.LabCause.TheVariants.{Script};

    ghost from_gives = { λ _ cause. cause ≡ Script Memory };

    fn from(_error: AllocError) -> LabCause {
        LabCause::Script(Cause::Memory)
    }
}

impl fmt::Display for LabCause {
    fn fmt<W: fmt::Write>(&self, f: &mut fmt::Formatter<W>) -> fmt::Result {
        let code = match self {
            LabCause::Script(cause) => return write!(f, "{cause}"),
            LabCause::Unpaired => "X10",
            LabCause::TooDeep => "X11",
            LabCause::Unsettled => "X12",
            LabCause::Unmet => "X13",
            LabCause::Unreadable => "X14",
            LabCause::NoDescriptor => "X15",
        };
        f.write_str(code)
    }
}
