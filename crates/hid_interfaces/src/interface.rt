//! What the descriptors of an interface say, and why one can't be read.
ghost use Rattle.std.specs.Prelude.{◌≡◌, List, ℕ, IsTrue, find, option_and_then, option_map};
ghost use Rattle.usb_control.specs.Descriptors.{IsWalk, is_hid, report_length};
ghost use Rattle.hid_interfaces.specs.Interfaces.{endpoint_of, has_endpoint, interface_of, is_listed, is_report_endpoint, is_shared, is_taken, own_descriptors};
ghost use Rattle.hid_interfaces.specs.Readable.{endpoint_fault, interface_fault};

use crate::descriptors::{Wanted, first_own, report_length};
use crate::fault::InterfaceFault;

/// The most bytes of a packet of an interrupt endpoint (USB 2.0, 5.7.3).
pub const MAX_PACKET_SIZE: u16 = 1024;

/// What the descriptor of an interrupt-IN endpoint says (USB 2.0, table 9-13).
#[derive(Clone, Copy, Debug, PartialEq, Eq)]
pub struct EndpointInfo {
    /// Its number, 1 to 15.
    pub number: u8,
    /// In bytes, a full packet: bits 0 to 10 of wMaxPacketSize.
    pub packet_size: u16,
    /// bInterval, at least 1: in frames of 1 ms at low and full speed, else as the exponent of a number of microframes.
    pub interval: u8,
}

/// What the descriptors of a HID interface say (USB 2.0, table 9-12; HID 1.11, 6.2.1).
#[derive(Clone, Copy, Debug, PartialEq, Eq)]
pub struct InterfaceInfo {
    /// bInterfaceNumber: wIndex of its requests.
    pub number: u8,
    /// bInterfaceSubClass: 1 where it has the boot protocol (HID 1.11, 4.2).
    pub subclass: u8,
    /// bInterfaceProtocol: of a boot interface, 1 for a keyboard and 2 for a mouse (HID 1.11, 4.3).
    pub protocol: u8,
    /// In bytes, the report descriptor: wDescriptorLength. None where no HID descriptor names one.
    pub report_length: Option<u16>,
    /// Its first interrupt-IN endpoint of a number other than 0, if it has one.
    pub endpoint: Option<EndpointInfo>,
}

/// What an endpoint descriptor of seven bytes at least says.
fn endpoint_info(descriptor: &[u8]) -> EndpointInfo
    requires { IsTrue (is_report_endpoint descriptor.now) }
    ensures { result ≡ endpoint_of descriptor.now }
{
    EndpointInfo {
        number: descriptor[2] % 16,
        packet_size: u16::from_le_bytes([descriptor[4], descriptor[5]]) % 2048,
        interval: descriptor[6].max(1),
    }
}

/// The first interrupt-IN endpoint of an interface, by the descriptors after it.
fn first_endpoint(behind: &[u8]) -> Option<EndpointInfo>
    ensures { (descriptors : List (List ℕ)) → IsWalk behind.now descriptors
        → result ≡ option_map endpoint_of (find is_report_endpoint (own_descriptors descriptors)) }
{
    match first_own(behind, Wanted::InterruptIn) {
        Some(descriptor) => Some(endpoint_info(descriptor)),
        None => None,
    }
}

/// The length of the report descriptor of an interface, by the descriptors after it.
fn first_length(behind: &[u8]) -> Option<u16>
    ensures { (descriptors : List (List ℕ)) → IsWalk behind.now descriptors
        → result ≡ option_and_then report_length (find is_hid (own_descriptors descriptors)) }
{
    match first_own(behind, Wanted::Hid) {
        Some(hid) => report_length(hid),
        None => None,
    }
}

/// What the descriptors of a HID interface say, which stands before these.
pub(crate) fn interface_info(interface: &[u8], behind: &[u8]) -> InterfaceInfo
    requires { IsTrue (is_listed interface.now) }
    ensures { (descriptors : List (List ℕ)) → IsWalk behind.now descriptors
        → result ≡ interface_of interface.now (own_descriptors descriptors) }
{
    InterfaceInfo {
        number: interface[2],
        subclass: interface[6],
        protocol: interface[7],
        report_length: first_length(behind),
        endpoint: first_endpoint(behind),
    }
}

/// Whether an interface has the endpoint of this number.
fn has_endpoint(number: u8, info: &InterfaceInfo) -> bool
    ensures { result ≡ has_endpoint number info.now }
{
    match info.endpoint {
        Some(endpoint) => endpoint.number == number,
        None => false,
    }
}

/// Whether one of these interfaces has the endpoint of this number.
fn is_shared(earlier: &[InterfaceInfo], number: u8) -> bool
    ensures { result ≡ is_shared earlier.now number }
{
    earlier.iter().any(|info| has_endpoint(number, info))
}

/// Whether one of these interfaces has this number.
fn is_taken(earlier: &[InterfaceInfo], number: u8) -> bool
    ensures { result ≡ is_taken earlier.now number }
{
    earlier.iter().any(|info| info.number == number)
}

/// Why an endpoint can't be read, where these interfaces, which can be read, stand before its own.
fn endpoint_fault(earlier: &[InterfaceInfo], endpoint: &EndpointInfo) -> Option<InterfaceFault>
    ensures { result ≡ endpoint_fault earlier.now endpoint.now }
{
    if endpoint.packet_size == 0 || endpoint.packet_size > MAX_PACKET_SIZE {
        return Some(InterfaceFault::PacketSize);
    }
    if is_shared(earlier, endpoint.number) {
        return Some(InterfaceFault::SharedEndpoint);
    }
    None
}

/// Why an interface can't be read, where these, which can be read, stand before it in its configuration: the first cause in the
/// order of [`InterfaceFault`]. None where it can.
pub fn interface_fault(earlier: &[InterfaceInfo], info: &InterfaceInfo) -> Option<InterfaceFault>
    ensures { result ≡ interface_fault earlier.now info.now }
{
    if is_taken(earlier, info.number) {
        return Some(InterfaceFault::SharedNumber);
    }
    let Some(length) = info.report_length else {
        return Some(InterfaceFault::NoReportDescriptor);
    };
    if length == 0 {
        return Some(InterfaceFault::NoReportDescriptor);
    }
    match &info.endpoint {
        Some(endpoint) => endpoint_fault(earlier, endpoint),
        None => Some(InterfaceFault::NoEndpoint),
    }
}
