//! Why a file has no descriptor.

ghost use Rattle.std.specs.Prelude.{◌≡◌};

use crate::recorded::RecordedFault;
use crate::text::{column_at, line_at};
use crate::whole::DescriptorFault;
use std::alloc::AllocError;
use std::fmt;

/// Why no descriptor is read.
#[derive(Clone, Copy, Debug, PartialEq, Eq)]
pub enum InputCause {
    /// The bytes aren't one whole report descriptor.
    NotWhole(DescriptorFault),
    /// A character that is neither of a byte nor a separator nor in a comment. Columns count from 1.
    NoByte { column: u64 },
    /// The bytes of an `R:` or `H:` line can't be read.
    Recorded(RecordedFault),
    /// Two descriptors, by the lines in which they begin.
    Several { first: u64, second: u64 },
    /// Other characters beside a list or strings than those that never change its bytes.
    Beside,
    /// A comment, a string or a line of which not all programs agree on the end.
    Unclear,
    /// Words of several bytes in a dump, without characters that show their order.
    WordOrder,
    /// The offset of a line of a dump isn't the number of bytes before it.
    Offset,
    /// A line of a dump that isn't an offset, bytes and their characters.
    DumpLine,
    /// A line in a text whose descriptor a line names, which the program doesn't print that wrote that.
    OtherLine,
    /// lsusb prints that it couldn't read the report descriptor.
    Unavailable,
    /// Text of UTF-16.
    Utf16,
    /// Text in which no descriptor is found.
    NoDescriptor,
    /// Memory ran out.
    Memory,
}

/// Why a file has no descriptor, and in which line.
#[derive(Clone, Copy, Debug, PartialEq, Eq)]
pub struct InputFault {
    /// From 1 on; none if the whole text is meant.
    pub line: Option<u64>,
    /// What is wrong there.
    pub cause: InputCause,
}

impl InputFault {
    ghost use Rattle.hid_input.specs.Faults.{of_text, of_line};

    /// A fault of the whole text.
    pub fn of_text(cause: InputCause) -> InputFault
        ensures { result ≡ of_text cause }
    {
        InputFault { line: None, cause }
    }

    /// A fault of a line.
    pub fn of_line(line: u64, cause: InputCause) -> InputFault
        ensures { result ≡ of_line line cause }
    {
        InputFault {
            line: Some(line),
            cause,
        }
    }

    /// A character at a place of a text that isn't explained.
    pub fn no_byte(text: &[u8], place: usize) -> InputFault {
        let column = column_at(text, place);
        InputFault::of_line(line_at(text, place), InputCause::NoByte { column })
    }
}

impl From<AllocError> for InputFault {
    ghost use Rattle.hid_input.specs.declared.fault.InputCause.TheVariants.{Memory};
    ghost use Rattle.hid_input.specs.Faults.{of_text};

    ghost from_gives = { λ _ fault. fault ≡ of_text Memory };

    fn from(_error: AllocError) -> InputFault {
        InputFault::of_text(InputCause::Memory)
    }
}

/// The way out of each refusal but those of dumps, of which it would take the offsets for bytes.
const OUT: &str = "; convert it: xxd -r -p FILE | hidmap";

impl fmt::Display for InputCause {
    ghost use Rattle.std.specs.Prelude.{Some};
    ghost use Rattle.hid_input.specs.Faults.{cause_text};

    ghost output = { λ cause. Some (cause_text cause) };

    fn fmt<W: fmt::Write>(&self, f: &mut fmt::Formatter<W>) -> fmt::Result {
        let words = match *self {
            InputCause::NotWhole(fault) => {
                return write!(f, "no whole descriptor: {fault}{OUT}");
            }
            InputCause::NoByte { column } => {
                return write!(
                    f,
                    "column {column}: neither a byte nor a comment of // or #{OUT}"
                );
            }
            InputCause::Recorded(fault) => return write!(f, "{fault}{OUT}"),
            InputCause::Several { first, second } => {
                return write!(
                    f,
                    "two descriptors, from lines {first} and {second}: give one alone{OUT}"
                );
            }
            InputCause::Memory => return f.write_str("out of memory"),
            InputCause::WordOrder => {
                return f.write_str("the order of bytes isn't known: try xxd or od -v -A x -t x1");
            }
            InputCause::Offset => {
                return f.write_str("the offset isn't the number of bytes in front of it");
            }
            InputCause::DumpLine => {
                return f.write_str(
                    "neither an offset with bytes nor their characters: try xxd or od -v -A x -t x1",
                );
            }
            InputCause::Beside => {
                "an operator, a call or other bytes beside it: give the bytes alone"
            }
            InputCause::Unclear => "a comment, a string, a line or a directive without a clear end",
            InputCause::OtherLine => "a line that isn't of the program that wrote the others",
            InputCause::Unavailable => {
                "lsusb couldn't read the descriptor: /sys/class/hidraw has it"
            }
            InputCause::Utf16 => "text of UTF-16: write it as UTF-8",
            InputCause::NoDescriptor => "text without a descriptor",
        };
        write!(f, "{words}{OUT}")
    }
}

impl fmt::Display for InputFault {
    ghost use Rattle.std.specs.Prelude.{Some};
    ghost use Rattle.hid_input.specs.Faults.{fault_text};

    ghost output = { λ fault. Some (fault_text fault) };

    fn fmt<W: fmt::Write>(&self, f: &mut fmt::Formatter<W>) -> fmt::Result {
        let cause = self.cause;
        match self.line {
            Some(line) => write!(f, "line {line}: {cause}"),
            None => write!(f, "{cause}"),
        }
    }
}
