//! The words for each refusal.
ghost use Rattle.std.specs.Prelude.{◌≡◌};
ghost use Rattle.usbip_session.specs.Words.{cause_words, driver_words, import_words, interface_words, message_words};

use hid_driver::{DriverFault, InterfaceCause, InterfaceFault};
use hid_notation::layout_words;
use usbip::UsbipFault;
use usbip_import::ImportFault;

/// Why bytes are no message, in words: N1 to N5.
fn message_words(fault: UsbipFault) -> &'static str
    ensures { result.now ≡ message_words fault }
{
    match fault {
        UsbipFault::BadVersion => "another version of USB/IP than 1.1.1",
        UsbipFault::UnknownOperation => "an unknown operation",
        UsbipFault::UnknownCommand => "an unknown command",
        UsbipFault::BadDirection => "no direction of a submit",
        UsbipFault::TooLong => "a submit of over 65535 bytes",
    }
}

/// Why an import ends, in words.
pub fn import_words(fault: ImportFault) -> &'static str
    ensures { result.now ≡ import_words fault }
{
    match fault {
        ImportFault::Message(fault) => message_words(fault),
        ImportFault::Refused => "the server refused the device",
        ImportFault::Busy => "somebody else has the device",
        ImportFault::NoDevice => "the server has no such device",
        ImportFault::UnknownNumber => "an answer to no submit that is in flight",
        ImportFault::TooLong => "an answer with more bytes than were asked for",
        ImportFault::Gone => "the device is gone",
        ImportFault::Memory => "out of memory",
    }
}

/// What is wrong with the descriptors of an interface.
fn interface_words(fault: InterfaceFault) -> &'static str
    ensures { result.now ≡ interface_words fault }
{
    match fault {
        InterfaceFault::SharedNumber => "another interface has its number",
        InterfaceFault::NoReportDescriptor => "it names no report descriptor",
        InterfaceFault::NoEndpoint => "it has no interrupt-IN endpoint",
        InterfaceFault::PacketSize => "packets of 0 bytes, or of over 1024",
        InterfaceFault::SharedEndpoint => "another interface has its endpoint",
    }
}

/// Why an interface can't be read, in words.
pub fn cause_words(cause: InterfaceCause) -> &'static str
    ensures { result.now ≡ cause_words cause }
{
    match cause {
        InterfaceCause::Descriptors(fault) => interface_words(fault),
        InterfaceCause::ReportLength => "a report descriptor of another length than was said",
        InterfaceCause::Layout(fault) => layout_words(fault.cause),
        InterfaceCause::Stalled => "the device refused to give its report descriptor",
        InterfaceCause::Failed => "the transfer of its report descriptor failed",
    }
}

/// Why a driver refuses a device or a call, in words.
pub fn driver_words(fault: DriverFault) -> &'static str
    ensures { result.now ≡ driver_words fault }
{
    match fault {
        DriverFault::NoRequest => "nothing was asked",
        DriverFault::Memory => "out of memory",
        DriverFault::NoInterface => "there is no such interface",
        DriverFault::NotRead => "the interface isn't read",
        DriverFault::Busy => "another request is made",
        DriverFault::NoReport => "the interface has no such report",
        DriverFault::TooLong => "more bytes than the report has",
        DriverFault::Stalled => "the device refused the request",
        DriverFault::Failed => "the transfer failed",
        DriverFault::Device(_) => "the device descriptor can't be read",
        DriverFault::Configuration(_) => "the configuration can't be read",
        DriverFault::Report(_) => "bytes that are no Input report",
        DriverFault::LongTransfer => "more bytes than the report has, by a packet",
        DriverFault::BootProtocol => "the interface may send boot reports",
        DriverFault::NoBootProtocol => "the interface has no boot protocol",
        DriverFault::WrongId => "the bytes don't begin with the Report ID",
    }
}
