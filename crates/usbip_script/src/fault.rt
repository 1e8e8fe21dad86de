//! Why a script isn't served, and why serving ends early.

ghost use Rattle.std.specs.Prelude.{◌≡◌, Some};
ghost use Rattle.usbip_script.specs.FaultText.{change_words, device_words, line_cause_text, serve_fault_text, text_words};

use hid_notation::layout_words;
use hid_text::LineFault;
use std::fmt;
use usbip_export::{ChangeFault, DeviceCause, DeviceFault, ExportFault};
use usbip_serving::export_words;

/// Why a line is refused.
#[derive(Clone, Copy, Debug, PartialEq, Eq)]
pub enum LineCause {
    /// X1 to X3: it is no line.
    Text(LineFault),
    /// X4 S1: no device has this number.
    NoDevice,
    /// X4 S3: the device has no such control, or it can't change so.
    Change(ChangeFault),
    /// X4 S5: there can be no such device.
    Device(DeviceFault),
    /// X4 S7: there are seven devices already.
    TooManyDevices,
    /// E1: a real host polls and begins requests by itself, and reports no events; layouts and values are printed without one.
    NotServed,
    /// E11: over 1,048,576 lines or actions, or over 16,384 expectations, those of bodies each time.
    TooLong,
    /// X13: what is expected of the host wasn't set.
    Unmet,
}

/// Why nothing is served, or serving ends early.
#[derive(Clone, Copy, Debug, PartialEq, Eq)]
pub enum ServeFault {
    /// A line is refused: its number, from 1, and the cause.
    Line(usize, LineCause),
    /// N1 to N6: a message of the host is refused.
    Message(ExportFault),
    /// E2: the script has no device.
    NoDevices,
    /// E3: the connection ends in the middle of a message.
    HalfMessage,
    /// E4: the script can't be read.
    Script,
    /// E5: memory ran out.
    Memory,
    /// E6: standard input can't be read.
    Input,
    /// E7: standard output can't be written.
    Output,
    /// E8: the host took nothing for ten seconds.
    Full,
    /// E9: what the host sets can't be written.
    Told,
    /// E10: the clock can't be read.
    Clock,
    /// E11: the script has over 16,777,216 bytes.
    TooLong,
    /// E12: no host imported a device before the connection ended.
    NoHost,
}

/// The words for a line that is none.
fn text_words(fault: LineFault) -> &'static str
    ensures { result.now ≡ text_words fault }
{
    match fault {
        LineFault::Syntax => "X1: no line of a script",
        LineFault::LineTooLong => "X2: a line of over 1024 bytes",
        LineFault::BadHex => "X3: a word of hex has a bad digit, or an odd number of digits",
    }
}

/// The words for a change that is refused, after its code.
fn change_words(fault: ChangeFault) -> &'static str
    ensures { result.now ≡ change_words fault }
{
    match fault {
        ChangeFault::NoSuchControl => "the device has no such control",
        ChangeFault::WrongKind => "the control is of a kind that can't change so",
        ChangeFault::OutOfRange => "the value is out of the control's range",
        ChangeFault::NoNull => "the control has no null",
        ChangeFault::NoDirection => "the control doesn't move that way",
        ChangeFault::MotionFull => "too much motion isn't reported yet",
        ChangeFault::ArrayFull => "more keys are pressed than a report has room for",
    }
}

/// The words for a device that can't be, after its code: the same as those of `hidlab` without a real host.
fn device_words(cause: DeviceCause) -> &'static str
    ensures { result.now ≡ device_words cause }
{
    match cause {
        DeviceCause::BadConfig => "not the descriptor of a boot device: call it plain",
        DeviceCause::Layout(cause) => layout_words(cause),
        DeviceCause::NoEmptyCode => "an array that can't say that no key is pressed",
        DeviceCause::RelativeWithoutZero => "a relative control that can't send 0",
        DeviceCause::Memory => "out of memory",
    }
}

impl fmt::Display for LineCause {
    ghost output = { λ cause. Some (line_cause_text cause) };

    fn fmt<W: fmt::Write>(&self, f: &mut fmt::Formatter<W>) -> fmt::Result {
        match self {
            LineCause::Text(fault) => f.write_str(text_words(*fault)),
            LineCause::NoDevice => f.write_str("X4 S1: no device has this number"),
            LineCause::Change(fault) => {
                let words = change_words(*fault);
                write!(f, "X4 S3 {fault}: {words}")
            }
            LineCause::Device(fault) => {
                let words = device_words(fault.cause);
                write!(f, "X4 S5 {fault}: {words}")
            }
            LineCause::TooManyDevices => f.write_str("X4 S7: there are seven devices already"),
            LineCause::NotServed => f.write_str(
                "E1: not with a real host, which polls and asks by itself",
            ),
            LineCause::TooLong => f.write_str("E11: the script is too long"),
            LineCause::Unmet => f.write_str("X13: the host set another report, or none"),
        }
    }
}

impl fmt::Display for ServeFault {
    ghost output = { λ fault. Some (serve_fault_text fault) };

    fn fmt<W: fmt::Write>(&self, f: &mut fmt::Formatter<W>) -> fmt::Result {
        let words = match self {
            ServeFault::Line(number, cause) => return write!(f, "line {number}: {cause}"),
            ServeFault::Message(fault) => {
                let words = export_words(*fault);
                return write!(f, "{fault}: {words}");
            }
            ServeFault::NoDevices => "E2: the script has no device",
            ServeFault::HalfMessage => "E3: the connection ends in the middle of a message",
            ServeFault::Script => "E4: the script can't be read",
            ServeFault::Memory => "E5: out of memory",
            ServeFault::Input => "E6: standard input can't be read",
            ServeFault::Output => "E7: standard output can't be written",
            ServeFault::Full => "E8: the host took nothing for ten seconds",
            ServeFault::Told => "E9: what the host sets can't be written",
            ServeFault::Clock => "E10: the clock can't be read",
            ServeFault::TooLong => "E11: the script has over 16777216 bytes",
            ServeFault::NoHost => "E12: no host imported a device",
        };
        f.write_str(words)
    }
}
