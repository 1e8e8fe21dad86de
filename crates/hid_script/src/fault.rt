//! Why a run ends early.

ghost use Rattle.std.specs.Prelude.{◌≡◌};

use hid_layout::LayoutFault;
use hid_snapshots::ReportFault;
use hid_stack::StackFault;
use hid_text::LineFault;
use std::alloc::AllocError;
use thiserror::Error;

/// Why a valid line is refused when it is carried out.
#[derive(Clone, Copy, Debug, PartialEq, Eq)]
pub enum StepFault {
    /// L1 to L16: the descriptor of a `layout` line is refused.
    Layout(LayoutFault),
    /// U8, U9: the bytes of a `values` line are no Input report of the layout.
    Report(ReportFault),
    /// S1 to S7: a line of devices.
    Stack(StackFault),
}

/// Why a run ends early, in the order of the codes. It is printed as its codes. Of a line by itself X2 is looked for first,
/// then X1 and X3; X9 comes before X4.
#[derive(Clone, Copy, Debug, PartialEq, Eq)]
pub enum Cause {
    /// X1: no line of the script language.
    Syntax,
    /// X2: over 1,024 bytes, without the line's end. A line is looked at no further then.
    LineTooLong,
    /// X3: a word of hex with a bad digit, or with an odd number of digits.
    BadHex,
    /// X4: the descriptor, the report or the step is refused.
    Step(StepFault),
    /// X5: the reader failed.
    Read,
    /// X6: the writer failed, or took no byte.
    Write,
    /// X7: memory ran out.
    Memory,
    /// X8: the script wasn't at its end after 1,000,000 reads.
    TooManyReads,
    /// X9: `values`, where no `layout` line came before.
    NoLayout,
}

impl From<LineFault> for Cause {
    ghost use Rattle.hid_script.specs.LineOutput.{line_cause};

    ghost from_gives = { λ fault cause. cause ≡ line_cause fault };

    fn from(fault: LineFault) -> Cause {
        match fault {
            LineFault::LineTooLong => Cause::LineTooLong,
            LineFault::Syntax => Cause::Syntax,
            LineFault::BadHex => Cause::BadHex,
        }
    }
}

impl From<LayoutFault> for Cause {
    ghost use Rattle.hid_script.specs.LineOutput.{cause_of};

    ghost from_gives = { λ fault cause. cause ≡ cause_of fault };

    fn from(fault: LayoutFault) -> Cause {
        match fault.cause {
            hid_layout::Cause::Memory => Cause::Memory,
            _ => Cause::Step(StepFault::Layout(fault)),
        }
    }
}

impl From<ReportFault> for Cause {
    ghost use Rattle.hid_script.specs.declared.fault.Cause.TheVariants.{Step};
    ghost use Rattle.hid_script.specs.declared.fault.StepFault.TheVariants.{Report};

    ghost from_gives = { λ fault cause. cause ≡ Step (Report fault) };

    fn from(fault: ReportFault) -> Cause {
        Cause::Step(StepFault::Report(fault))
    }
}

impl From<StackFault> for Cause {
    ghost use Rattle.hid_script.specs.LineOutput.{stack_cause};

    ghost from_gives = { λ fault cause. cause ≡ stack_cause fault };

    fn from(fault: StackFault) -> Cause {
        match fault {
            StackFault::Memory => Cause::Memory,
            _ => Cause::Step(StepFault::Stack(fault)),
        }
    }
}

impl From<AllocError> for Cause {
    ghost use Rattle.hid_script.specs.declared.fault.Cause.TheVariants.{Memory};

    ghost from_gives = { λ _ cause. cause ≡ Memory };

    fn from(_error: AllocError) -> Cause {
        Cause::Memory
    }
}

/// Where and why a run ended early.
#[derive(Clone, Copy, Debug, PartialEq, Eq, Error)]
#[error("line {line}: {cause}")]
pub struct ScriptFault {
    /// The line that was being read or run, from 1.
    pub line: usize,
    /// Why the run ended at that line.
    pub cause: Cause,
}
