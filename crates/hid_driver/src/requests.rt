//! The requests that a driver makes (USB 2.0, 9.4; HID 1.11, 7.1 and 7.2).
ghost use Rattle.std.specs.Prelude.{◌≡◌, position, Some, length, IfSome, ◌<◌};
ghost use Rattle.hid_driver.specs.Interfaces.{has_halt, is_waiting};
ghost use Rattle.hid_driver.specs.Requests.{clear_setup, endpoint_number, idle_setup, length_of, next_state, packet_size_of, protocol_number, protocol_setup, report_setup, request, setup_awaited};

use crate::interface::Interface;
use crate::state::DriverState;
use hid_interfaces::InterfaceInfo;
use usb_control::Setup;

/// bmRequestType: a read of the device (USB 2.0, table 9-2).
const OF_DEVICE: u8 = 0x80;

/// bmRequestType: a read of an interface.
const OF_INTERFACE: u8 = 0x81;

/// bmRequestType: a write to the device.
const TO_DEVICE: u8 = 0x00;

/// bmRequestType: a write to an endpoint.
const TO_ENDPOINT: u8 = 0x02;

/// bmRequestType: a read of an interface, by its class (HID 1.11, 7.2).
pub(crate) const OF_CLASS: u8 = 0xA1;

/// bmRequestType: a write to an interface, by its class.
pub(crate) const TO_CLASS: u8 = 0x21;

/// bRequest (USB 2.0, table 9-4).
const CLEAR_FEATURE: u8 = 0x01;

/// bRequest.
const GET_DESCRIPTOR: u8 = 0x06;

/// bRequest.
const SET_CONFIGURATION: u8 = 0x09;

/// bRequest of a class request (HID 1.11, 7.2).
pub(crate) const GET_REPORT: u8 = 0x01;

/// bRequest of a class request.
pub(crate) const SET_REPORT: u8 = 0x09;

/// bRequest of a class request.
pub(crate) const SET_IDLE: u8 = 0x0A;

/// bRequest of a class request.
const SET_PROTOCOL: u8 = 0x0B;

/// A request by the fields of its setup data.
pub(crate) fn request(request_type: u8, number: u8, value: u16, index: u16, length: u16) -> Setup
    ensures { result ≡ request request_type number value index length }
{
    Setup {
        request_type,
        request: number,
        value,
        index,
        length,
    }
}

/// In bytes, the report descriptor of an interface, 0 where it names none.
pub(crate) fn length_of(info: &InterfaceInfo) -> u16
    ensures { result ≡ length_of info.now }
{
    match info.report_length {
        Some(length) => length,
        None => 0,
    }
}

/// In bytes, a full packet of an interface's endpoint, at least 1.
pub(crate) fn packet_size_of(info: &InterfaceInfo) -> u16
    ensures size { result ≡ packet_size_of info.now }
    ensures some { 0 < result }
{
    match info.endpoint {
        Some(endpoint) => endpoint.packet_size.max(1),
        None => 1,
    }
}

/// The number of an interface's endpoint, 0 where it has none.
fn endpoint_number(info: &InterfaceInfo) -> u8
    ensures { result ≡ endpoint_number info.now }
{
    match info.endpoint {
        Some(endpoint) => endpoint.number,
        None => 0,
    }
}

/// SET_IDLE of an interface: its reports come on change alone (HID 1.11, 7.2.4).
fn idle_setup(info: &InterfaceInfo) -> Setup
    ensures { result ≡ idle_setup info.now }
{
    request(TO_CLASS, SET_IDLE, 0, u16::from(info.number), 0)
}

/// GET_DESCRIPTOR for the report descriptor of an interface (HID 1.11, 7.1.1).
fn report_setup(info: &InterfaceInfo) -> Setup
    ensures { result ≡ report_setup info.now }
{
    request(
        OF_INTERFACE,
        GET_DESCRIPTOR,
        0x2200,
        u16::from(info.number),
        length_of(info),
    )
}

/// The number of a protocol in requests (HID 1.11, 7.2.5): 0 boot, 1 report.
fn protocol_number(boot: bool) -> u16
    ensures { result ≡ protocol_number boot }
{
    if boot { 0 } else { 1 }
}

/// SET_PROTOCOL of an interface (HID 1.11, 7.2.6).
fn protocol_setup(info: &InterfaceInfo, boot: bool) -> Setup
    ensures { result ≡ protocol_setup info.now boot }
{
    request(
        TO_CLASS,
        SET_PROTOCOL,
        protocol_number(boot),
        u16::from(info.number),
        0,
    )
}

/// CLEAR_FEATURE of the halt of an interface's endpoint (USB 2.0, 9.4.1).
fn clear_setup(info: &InterfaceInfo) -> Setup
    ensures { result ≡ clear_setup info.now }
{
    request(
        TO_ENDPOINT,
        CLEAR_FEATURE,
        0,
        0x80 + u16::from(endpoint_number(info)),
        0,
    )
}

/// The request that a state waits for, by the interfaces that are known.
pub(crate) fn setup_awaited(state: DriverState, interfaces: &[Interface]) -> Option<Setup>
    ensures { result ≡ setup_awaited state interfaces.now }
{
    match state {
        DriverState::Device => Some(request(OF_DEVICE, GET_DESCRIPTOR, 0x0100, 0, 18)),
        DriverState::Length => Some(request(OF_DEVICE, GET_DESCRIPTOR, 0x0200, 0, 9)),
        DriverState::Configuration { length } => Some(request(
            OF_DEVICE,
            GET_DESCRIPTOR,
            0x0200,
            0,
            length,
        )),
        DriverState::Configure { number } => Some(request(
            TO_DEVICE,
            SET_CONFIGURATION,
            u16::from(number),
            0,
            0,
        )),
        DriverState::Idle { interface } => match interfaces.get(interface) {
            Some(interface) => Some(idle_setup(&interface.info)),
            None => None,
        },
        DriverState::Report { interface } => match interfaces.get(interface) {
            Some(interface) => Some(report_setup(&interface.info)),
            None => None,
        },
        DriverState::Clear { interface } => match interfaces.get(interface) {
            Some(interface) => Some(clear_setup(&interface.info)),
            None => None,
        },
        DriverState::Protocol {
            interface,
            boot,
            ..
        } => match interfaces.get(interface) {
            Some(interface) => Some(protocol_setup(&interface.info, boot)),
            None => None,
        },
        DriverState::Asked { setup } => Some(setup),
        DriverState::Ready | DriverState::Refused => None,
    }
}

/// The place of the first interface whose report descriptor is still to be asked for.
fn first_waiting(interfaces: &[Interface]) -> Option<usize>
    ensures { result ≡ position is_waiting interfaces.now }
{
    interfaces
        .iter()
        .position(|interface| interface.is_waiting())
}

/// The place of the first interface whose endpoint is halted.
fn first_halted(interfaces: &[Interface]) -> Option<usize>
    ensures { result ≡ position has_halt interfaces.now }
{
    interfaces.iter().position(|interface| interface.has_halt())
}

/// What a driver waits for next: the first interface whose report descriptor wasn't asked for; else the first whose endpoint
/// is halted; else nothing.
pub(crate) fn next_state(interfaces: &[Interface]) -> DriverState
    ensures { result ≡ next_state interfaces.now }
{
    if let Some(interface) = first_waiting(interfaces) {
        return DriverState::Idle { interface };
    }
    match first_halted(interfaces) {
        Some(interface) => DriverState::Clear { interface },
        None => DriverState::Ready,
    }
}
