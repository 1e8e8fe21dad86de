//! Why a control doesn't change, why a report can't be read, and out of memory.

ghost use Rattle.std.specs.Prelude.{Some};
ghost use Rattle.hid_snapshots.specs.Faults.{change_code, report_code, memory_code};

use std::fmt;

/// Why a change is refused: the first of these that stands. It is printed as its code.
#[derive(Clone, Copy, Debug, PartialEq, Eq)]
pub enum ChangeFault {
    /// U1: the layout has no such control.
    NoSuchControl,
    /// U2: the control is of a kind that can't change so.
    WrongKind,
    /// U3: no pattern of the element stands for the value, or it is out of the logical range (HID 1.11, 5.8).
    OutOfRange,
    /// U4: the control has no null (HID 1.11, 5.10).
    NoNull,
    /// U5: no value that can be sent has the sign of the amount.
    NoDirection,
    /// U6: the motion that isn't reported yet would no longer fit an `i32` (our choice).
    MotionFull,
    /// U7: all elements of the array are taken, and it has no code to report that more keys are pressed.
    ArrayFull,
}

impl fmt::Display for ChangeFault {
    ghost output = { λ fault. Some (change_code fault) };

    fn fmt<W: fmt::Write>(&self, f: &mut fmt::Formatter<W>) -> fmt::Result {
        f.write_str(match self {
            ChangeFault::NoSuchControl => "U1",
            ChangeFault::WrongKind => "U2",
            ChangeFault::OutOfRange => "U3",
            ChangeFault::NoNull => "U4",
            ChangeFault::NoDirection => "U5",
            ChangeFault::MotionFull => "U6",
            ChangeFault::ArrayFull => "U7",
        })
    }
}

/// Why the bytes of a report are refused. It is printed as its code.
#[derive(Clone, Copy, Debug, PartialEq, Eq)]
pub enum ReportFault {
    /// U8: fewer bytes than the report has; where reports are numbered also no byte at all (HID 1.11, 5.6).
    Short,
    /// U9: no Input report has the number that the first byte gives, or the layout has no Input report (HID 1.11, 5.6).
    UnknownReport,
}

impl fmt::Display for ReportFault {
    ghost output = { λ fault. Some (report_code fault) };

    fn fmt<W: fmt::Write>(&self, f: &mut fmt::Formatter<W>) -> fmt::Result {
        f.write_str(match self {
            ReportFault::Short => "U8",
            ReportFault::UnknownReport => "U9",
        })
    }
}

/// Memory ran out. It is printed as its code, U10.
#[derive(Clone, Copy, Debug, PartialEq, Eq)]
pub struct MemoryFault;

impl fmt::Display for MemoryFault {
    ghost output = { λ _. Some memory_code };

    fn fmt<W: fmt::Write>(&self, f: &mut fmt::Formatter<W>) -> fmt::Result {
        f.write_str("U10")
    }
}
