//! Faults as they are printed: their codes, and words.

use super::fault::Cause;
use super::urb_fault::UrbFault;
use std::fmt;

impl fmt::Display for Cause {
    ghost use Rattle.std.specs.Prelude.{Some};
    ghost use Rattle.usb_capture.specs.FaultText.{cause_text};

    ghost output = { λ cause. Some (cause_text cause) };

    fn fmt<W: fmt::Write>(&self, f: &mut fmt::Formatter<W>) -> fmt::Result {
        let text = match self {
            Cause::NotCapture => "K1: the file is neither pcap nor pcapng",
            Cause::BadOrder => "K2: a section without its byte order",
            Cause::BadLength => "K3: the length of a block is under 12, or no multiple of 4",
            Cause::TooLong => "K4: a block of over 16777216 bytes",
            Cause::BadTrailer => "K5: the two lengths of a block differ",
            Cause::TooShort => "K6: a block is too short for its fields",
            Cause::BadVersion => "K7: the version is neither pcap 2.4 nor pcapng 1.0 or 1.2",
            Cause::TooManyInterfaces => "K8: over 256 interfaces",
            Cause::BadOption => "K9: an option of an interface has a wrong length",
            Cause::BadClock => "K10: the ticks of an interface's clock are too short",
            Cause::NoInterface => "K11: a frame of an interface that isn't described",
            Cause::CutFrame => "K12: a frame is longer than its block",
            Cause::Cut => "K13: the file ends in the middle of a block",
            Cause::Memory => "K14: out of memory",
        };
        f.write_str(text)
    }
}

impl fmt::Display for UrbFault {
    ghost use Rattle.std.specs.Prelude.{Some};
    ghost use Rattle.usb_capture.specs.FaultText.{urb_fault_text};

    ghost output = { λ fault. Some (urb_fault_text fault) };

    fn fmt<W: fmt::Write>(&self, f: &mut fmt::Formatter<W>) -> fmt::Result {
        let text = match self {
            UrbFault::OtherLink => "Q1: the frame is of no USB capture",
            UrbFault::TooShort => "Q2: the frame is shorter than its header",
            UrbFault::BadEvent =>
                "Q3: the frame is neither a submission, a completion nor an error",
            UrbFault::BadTransfer => "Q4: the frame has no type of transfer",
        };
        f.write_str(text)
    }
}
