//! The words for each message that is refused.
ghost use Rattle.std.specs.Prelude.{◌≡◌};
ghost use Rattle.usbip_serving.specs.Words.{export_words, message_words};

use usbip::UsbipFault;
use usbip_export::ExportFault;

/// Why bytes are no message, in words: N1 to N5.
fn message_words(fault: UsbipFault) -> &'static str
    ensures { result.now ≡ message_words fault }
{
    match fault {
        UsbipFault::BadVersion => "another version of USB/IP than 1.1.1",
        UsbipFault::UnknownOperation => "an unknown operation",
        UsbipFault::UnknownCommand => "an unknown command",
        UsbipFault::BadDirection => "no direction of a submit",
        UsbipFault::TooLong => "a submit of over 65535 bytes",
    }
}

/// Why a message of a host is refused, in words, which stand after its code: N1 to N6.
pub fn export_words(fault: ExportFault) -> &'static str
    ensures { result.now ≡ export_words fault }
{
    match fault {
        ExportFault::Message(fault) => message_words(fault),
        ExportFault::OtherDevice => "a command for another device than the host has",
    }
}
