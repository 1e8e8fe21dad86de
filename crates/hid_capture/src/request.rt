//! The requests on which it depends what the reports of a device are (USB 2.0, table 9-3 and 11.24.2; HID 1.11, 7.1.1 and 7.2.6).

ghost use Rattle.std.specs.Prelude.{◌≡◌};
ghost use Rattle.hid_capture.specs.Requests.{request_of};

/// The bmRequestType of a standard request that has its data, if any, for the device.
const TO_DEVICE: u8 = 0x00;

/// The bmRequestType of a standard request for data of the device.
const FROM_DEVICE: u8 = 0x80;

/// The bmRequestType of a standard request for data of an interface.
const FROM_INTERFACE: u8 = 0x81;

/// The bmRequestType of a class request that has its data, if any, for an interface.
const CLASS_TO_INTERFACE: u8 = 0x21;

/// The bmRequestType of a class request that has its data, if any, for a port of a hub.
const CLASS_TO_PORT: u8 = 0x23;

/// The bmRequestType of a class request for data of a port of a hub.
const CLASS_FROM_PORT: u8 = 0xA3;

/// The bRequest of SET_ADDRESS.
const SET_ADDRESS: u8 = 0x05;

/// The bRequest of GET_DESCRIPTOR.
const GET_DESCRIPTOR: u8 = 0x06;

/// The bRequest of SET_CONFIGURATION.
const SET_CONFIGURATION: u8 = 0x09;

/// The bRequest of SET_PROTOCOL.
const SET_PROTOCOL: u8 = 0x0B;

/// The descriptor type of a configuration.
const CONFIGURATION: u8 = 0x02;

/// The descriptor type of a report descriptor.
const REPORT: u8 = 0x22;

/// The boot protocol, as SET_PROTOCOL has it.
const BOOT_PROTOCOL: u8 = 0;

/// What a SETUP packet asks for.
#[derive(Clone, Copy, Debug, PartialEq, Eq)]
pub enum Request {
    /// The device gets this address.
    SetAddress { address: u8 },
    /// The device has the configuration with this value; 0 is none.
    SetConfiguration { value: u8 },
    /// The descriptor of a configuration, and all that belongs to it.
    GetConfigurationDescriptor,
    /// The report descriptor of an interface.
    GetReportDescriptor { interface: u8 },
    /// The interface is put into the boot protocol, or into the report protocol.
    SetProtocol { interface: u8, is_boot: bool },
    /// A request to a port: the device is a hub.
    HubPort,
    /// Anything else.
    Other,
}

/// What a SETUP packet asks for.
#[tactic(auto, unfolding(crate::specs::Requests::request_of))]
pub(crate) fn request_of(setup: [u8; 8]) -> Request
    ensures { result ≡ request_of setup }
{
    let kind = setup[0];
    let code = setup[1];
    let low = setup[2];
    let high = setup[3];
    let interface = setup[4];
    if kind == TO_DEVICE && code == SET_ADDRESS {
        Request::SetAddress { address: low }
    } else if kind == TO_DEVICE && code == SET_CONFIGURATION {
        Request::SetConfiguration { value: low }
    } else if kind == FROM_DEVICE && code == GET_DESCRIPTOR && high == CONFIGURATION {
        Request::GetConfigurationDescriptor
    } else if kind == FROM_INTERFACE && code == GET_DESCRIPTOR && high == REPORT {
        Request::GetReportDescriptor { interface }
    } else if kind == CLASS_TO_INTERFACE && code == SET_PROTOCOL {
        Request::SetProtocol {
            interface,
            is_boot: low == BOOT_PROTOCOL,
        }
    } else if kind == CLASS_TO_PORT || kind == CLASS_FROM_PORT {
        Request::HubPort
    } else {
        Request::Other
    }
}
