//! The descriptors of a device (USB 2.0, 9.5 and 9.6; HID 1.11, 6.2.1).
ghost use Rattle.std.specs.Prelude.{◌≡◌, ◌≤◌};
ghost use Rattle.hid_requests.specs.Descriptors.{configuration_bytes, configuration_descriptor, device_bytes, endpoint_descriptor, hid_bytes, interface_descriptor};

use crate::codes::{CONFIGURATION, DEVICE, ENDPOINT, HID, INTERFACE, REPORT};
use arrayvec::ArrayVec;
use usb_control::{ConfigInfo, DeviceInfo};

/// The device descriptor (USB 2.0, table 9-8): USB 2.00, no class of the whole device, 8 bytes a packet at endpoint 0,
/// release 1.00, no strings, one configuration.
pub fn device_descriptor(info: &DeviceInfo) -> [u8; 18]
    ensures { result ≡ device_bytes info.now }
{
    let [vendor_low, vendor_high] = info.vendor.to_le_bytes();
    let [product_low, product_high] = info.product.to_le_bytes();
    [
        18,
        DEVICE,
        0x00,
        0x02,
        0,
        0,
        0,
        8,
        vendor_low,
        vendor_high,
        product_low,
        product_high,
        0x00,
        0x01,
        0,
        0,
        0,
        1,
    ]
}

/// The answer to GET_DESCRIPTOR for a configuration: its descriptor, and that of its one interface, of the class of human
/// interface devices, with the HID descriptor and the interrupt-IN endpoint (USB 2.0, 9.6.3; HID 1.11, 7.1). The interval
/// is in frames.
pub fn configuration(info: &ConfigInfo, interval: u8) -> ArrayVec<u8, 34>
    requires endpoint { info.now.endpoint ≤ 15 }
    ensures { result.items ≡ configuration_bytes info.now interval }
{
    let mut bytes = ArrayVec::new();
    bytes
        .try_extend_from_slice(&configuration_descriptor())
        .unwrap();
    bytes
        .try_extend_from_slice(&interface(info.subclass, info.protocol))
        .unwrap();
    bytes
        .try_extend_from_slice(&hid_descriptor(info.report_length))
        .unwrap();
    bytes
        .try_extend_from_slice(&endpoint(info.endpoint, interval))
        .unwrap();
    bytes
}

/// The HID descriptor (HID 1.11, 6.2.1): HID 1.11, no country, one descriptor, of reports, with this length.
pub fn hid_descriptor(report_length: u16) -> [u8; 9]
    ensures { result ≡ hid_bytes report_length }
{
    let [low, high] = report_length.to_le_bytes();
    [9, HID, 0x11, 0x01, 0, 1, REPORT, low, high]
}

/// The descriptor of the configuration itself (USB 2.0, table 9-10): 34 bytes in all, one interface, number 1, no string,
/// powered by the bus, 100 mA.
fn configuration_descriptor() -> [u8; 9]
    ensures { result ≡ configuration_descriptor }
{
    [9, CONFIGURATION, 34, 0, 1, 1, 0, 0x80, 50]
}

/// The interface (USB 2.0, table 9-12): number 0, no other setting, one endpoint beside endpoint 0, class 03, no string.
fn interface(subclass: u8, protocol: u8) -> [u8; 9]
    ensures { result ≡ interface_descriptor subclass protocol }
{
    [9, INTERFACE, 0, 0, 1, 3, subclass, protocol, 0]
}

/// The endpoint (USB 2.0, table 9-13): to the host, interrupt, 64 bytes a packet.
fn endpoint(endpoint: u8, interval: u8) -> [u8; 7]
    requires { endpoint ≤ 15 }
    ensures { result ≡ endpoint_descriptor endpoint interval }
{
    [7, ENDPOINT, 0x80 + endpoint, 3, 64, 0, interval]
}
