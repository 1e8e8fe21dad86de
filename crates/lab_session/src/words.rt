//! Why a line is refused, in words.

use super::controls::RefusedControl;
use super::fault::LabCause;
use hid_layout::ControlKind;
use hid_notation::{UsageText, layout_words};
use hid_requests::DeviceCause;
use hid_script::{Cause, StepFault};
use hid_snapshots::{ChangeFault, ReportFault};
use hid_stack::{DescriptorFault, StackFault};
use std::fmt;
use usb_control::ControlFault;

/// What a control is, and how it changes.
fn kind_words(kind: ControlKind) -> &'static str {
    match kind {
        ControlKind::Switch => "on or off: press or release it",
        ControlKind::Value => "a value: set it",
        ControlKind::NullValue => "a value: set it, or null it",
        ControlKind::Relative => "a motion: move it",
    }
}

/// Why a control doesn't change.
fn change_words(fault: ChangeFault) -> &'static str {
    match fault {
        ChangeFault::NoSuchControl => {
            "the device has no such control: --layout prints those it has"
        }
        ChangeFault::WrongKind => "the control is of another kind",
        ChangeFault::OutOfRange => "the number is out of the control's range",
        ChangeFault::NoNull => "the value has no null: set it",
        ChangeFault::NoDirection => "the control can't move that way",
        ChangeFault::MotionFull =>
            "the motion that isn't reported yet is too long: poll in between",
        ChangeFault::ArrayFull => "no more keys fit in the report: release one",
    }
}

/// Why the rig refuses a line.
fn stack_words(fault: StackFault) -> &'static str {
    match fault {
        StackFault::NoDevice => "no device has this number: they count from 1 as they are attached",
        StackFault::NotReady => {
            "the host isn't at this yet: config, report, configure come first, and a clear has to end"
        }
        StackFault::Refused(fault) => change_words(fault),
        StackFault::Control(ControlFault::Busy) => "another request runs: control it to its end",
        StackFault::Control(_) => "no request runs: begin one",
        StackFault::BadDescriptor(fault) => descriptor_words(fault),
        StackFault::Report(fault) => report_words(fault),
        StackFault::TooManyDevices => "the bus has room for seven devices",
        StackFault::Memory => "out of memory",
    }
}

/// Why there is no virtual device with a descriptor.
fn descriptor_words(fault: DescriptorFault) -> &'static str {
    match fault {
        DescriptorFault::Layout(fault) => layout_words(fault.cause),
        DescriptorFault::Device(fault) => match fault.cause {
            DeviceCause::BadConfig => "not the descriptor of a boot device: call it plain",
            DeviceCause::Layout(cause) => layout_words(cause),
            DeviceCause::NoEmptyCode => "an array that can't say that no key is pressed",
            DeviceCause::RelativeWithoutZero => "a relative control that can't send 0",
            DeviceCause::Memory => "out of memory",
        },
        DescriptorFault::Info(_) | DescriptorFault::ReportLength =>
            "the host can't read the device",
    }
}

/// Why bytes are no report.
fn report_words(fault: ReportFault) -> &'static str {
    match fault {
        ReportFault::Short => "the report is too short",
        ReportFault::UnknownReport => "no Input report has this ID",
    }
}

/// Why a script ends.
fn script_words(cause: Cause) -> &'static str {
    match cause {
        Cause::Syntax => "no line of the bench",
        Cause::LineTooLong => "the line is too long",
        Cause::BadHex => "bytes in hex are pairs of digits, with blanks between them or not",
        Cause::Step(StepFault::Layout(fault)) => layout_words(fault.cause),
        Cause::Step(StepFault::Report(fault)) => report_words(fault),
        Cause::Step(StepFault::Stack(fault)) => stack_words(fault),
        Cause::Read => "the script can't be read",
        Cause::Write => "standard output can't be written",
        Cause::Memory => "out of memory",
        Cause::TooManyReads => "the script has no end, or over 100000000 lines",
        Cause::NoLayout => "no layout line came before",
    }
}

/// Why a line is not carried out, in words. For a control of another kind they say which it is, for a number out of range the range.
#[derive(Clone, Copy)]
pub struct CauseWords {
    cause: LabCause,
    control: Option<RefusedControl>,
}

/// The words of a cause, with the control that the line meant if one is known.
pub fn cause_words(cause: LabCause, control: Option<RefusedControl>) -> CauseWords {
    CauseWords { cause, control }
}

/// Why a change is refused, if a change is.
fn change_fault(cause: LabCause) -> Option<ChangeFault> {
    match cause {
        LabCause::Script(Cause::Step(StepFault::Stack(StackFault::Refused(fault)))) => Some(fault),
        _ => None,
    }
}

impl fmt::Display for CauseWords {
    fn fmt<W: fmt::Write>(&self, f: &mut fmt::Formatter<W>) -> fmt::Result {
        let CauseWords { cause, control } = *self;
        if let Some(RefusedControl { usage, kind, range }) = control {
            let usage = UsageText(usage);
            match (change_fault(cause), range) {
                (Some(ChangeFault::WrongKind), _) => {
                    let words = kind_words(kind);
                    return write!(f, "{usage} is {words}");
                }
                (Some(ChangeFault::OutOfRange), Some((least, greatest))) => {
                    return write!(f, "{usage} takes {least} to {greatest}");
                }
                _ => {}
            }
        }
        f.write_str(match cause {
            LabCause::Script(cause) => script_words(cause),
            LabCause::Unpaired => "repeat and end stand in pairs, in one file",
            LabCause::TooDeep => {
                "over eight repeat or files in one another, or over 1 MiB between repeat and end"
            }
            LabCause::Unsettled => "after 100 polls the device still has something to send",
            LabCause::Unmet => "another line is expected",
            LabCause::Unreadable => "the file can't be read",
            LabCause::NoDescriptor => "the file has no descriptor",
        })
    }
}
