//! Refusals as they are printed: their codes, and words.

ghost use Rattle.std.specs.Prelude.{◌≡◌, Some};
ghost use Rattle.hid_recording.specs.Refusals.{report_words, refusal_text, cause_text};

use super::fault::{Cause, Refusal};
use hid_notation::RefusalText;
use hid_usages::ReportFault;
use std::fmt;

/// Why a report is refused, in words.
fn report_words(fault: ReportFault) -> &'static str
    ensures { result.now ≡ report_words fault }
{
    match fault {
        ReportFault::Short => "the report is too short",
        ReportFault::UnknownReport => "the device has no such Input report",
    }
}

impl fmt::Display for Refusal {
    ghost output = { λ refusal. Some (refusal_text refusal) };

    fn fmt<W: fmt::Write>(&self, f: &mut fmt::Formatter<W>) -> fmt::Result {
        let text = match self {
            Refusal::Syntax => "R1: no line of a recording",
            Refusal::BadHex { at } => {
                return write!(f, "R3 at {at}: a byte isn't two hex digits");
            }
            Refusal::NoCount => "R4: the count is missing, or no number",
            Refusal::BadCount { said, found: 1 } => {
                return write!(f, "R4: the count says {said}, there is 1 byte");
            }
            Refusal::BadCount { said, found } => {
                return write!(f, "R4: the count says {said}, there are {found} bytes");
            }
            Refusal::Truncated => "R4: the frame was cut off when it was captured",
            Refusal::BadDevice => "R5: the device isn't a number from 0 to 15",
            Refusal::BadTime => "R6: the time isn't digits and points, 32 at most",
            Refusal::NoLayout => "R7: the device has no descriptor",
            Refusal::Unended => "R12: no empty line ends the dump before",
            Refusal::DumpTooLong => "R13: a dump of over 16384 bytes",
            Refusal::TooManyDevices => "R14: over 16 interfaces",
            Refusal::PartMissing => "R15: a part of the report may be missing",
            Refusal::Layout(fault, report) => {
                let text = RefusalText {
                    fault: *fault,
                    report: *report,
                };
                return write!(f, "{text}");
            }
            Refusal::Report(fault) => {
                let words = report_words(*fault);
                return write!(f, "{fault}: {words}");
            }
        };
        f.write_str(text)
    }
}

impl fmt::Display for Cause {
    ghost output = { λ cause. Some (cause_text cause) };

    fn fmt<W: fmt::Write>(&self, f: &mut fmt::Formatter<W>) -> fmt::Result {
        let text = match self {
            Cause::Refused(refusal) => return write!(f, "{refusal}"),
            Cause::LineTooLong => "R2: a line of over 65536 bytes",
            Cause::Read => "R8: the recording can't be read",
            Cause::Write => "R9: its text can't be written",
            Cause::Memory => "R10: out of memory",
            Cause::TooManyReads => "R11: the end didn't come in 1000000000000 reads",
            Cause::Unended => "R12: no empty line ends the last dump",
        };
        f.write_str(text)
    }
}
