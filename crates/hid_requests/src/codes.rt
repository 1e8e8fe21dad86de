//! Numbers of requests and descriptors (USB 2.0, tables 9-2 and 9-4 to 9-6; HID 1.11, 7.1 and 7.2).

/// bmRequestType: a read of the device.
pub const OF_DEVICE: u8 = 0x80;

/// bmRequestType: a read of an interface.
pub const OF_INTERFACE: u8 = 0x81;

/// bmRequestType: a read of an endpoint.
pub const OF_ENDPOINT: u8 = 0x82;

/// bmRequestType: a write to the device.
pub const TO_DEVICE: u8 = 0x00;

/// bmRequestType: a write to an endpoint.
pub const TO_ENDPOINT: u8 = 0x02;

/// bmRequestType: a read of an interface, by its class (HID 1.11, 7.2).
pub const OF_CLASS: u8 = 0xA1;

/// bmRequestType: a write to an interface, by its class.
pub const TO_CLASS: u8 = 0x21;

/// bRequest.
pub const GET_STATUS: u8 = 0x00;

/// bRequest.
pub const CLEAR_FEATURE: u8 = 0x01;

/// bRequest.
pub const SET_FEATURE: u8 = 0x03;

/// bRequest.
pub const GET_DESCRIPTOR: u8 = 0x06;

/// bRequest.
pub const GET_CONFIGURATION: u8 = 0x08;

/// bRequest.
pub const SET_CONFIGURATION: u8 = 0x09;

/// bRequest.
pub const GET_INTERFACE: u8 = 0x0A;

/// bRequest of a class request (HID 1.11, 7.2).
pub const GET_REPORT: u8 = 0x01;

/// bRequest of a class request.
pub const GET_IDLE: u8 = 0x02;

/// bRequest of a class request.
pub const GET_PROTOCOL: u8 = 0x03;

/// bRequest of a class request.
pub const SET_REPORT: u8 = 0x09;

/// bRequest of a class request.
pub const SET_IDLE: u8 = 0x0A;

/// bRequest of a class request.
pub const SET_PROTOCOL: u8 = 0x0B;

/// The type of a device descriptor.
pub const DEVICE: u8 = 0x01;

/// The type of a configuration descriptor.
pub const CONFIGURATION: u8 = 0x02;

/// The type of an interface descriptor.
pub const INTERFACE: u8 = 0x04;

/// The type of an endpoint descriptor.
pub const ENDPOINT: u8 = 0x05;

/// The type of a HID descriptor.
pub const HID: u8 = 0x21;

/// The type of a report descriptor.
pub const REPORT: u8 = 0x22;

/// The number of the interrupt-IN endpoint of a virtual device, out of which its Input reports come (our choice).
pub const REPORT_ENDPOINT: u8 = 1;

/// wValue of SET_FEATURE and CLEAR_FEATURE: the halt of an endpoint (table 9-6).
pub const ENDPOINT_HALT: u16 = 0;

/// wValue of GET_DESCRIPTOR: the type in the high byte, and the first of its type in the low one.
pub const FIRST_DEVICE: u16 = 0x0100;

/// wValue of GET_DESCRIPTOR.
pub const FIRST_CONFIGURATION: u16 = 0x0200;

/// wValue of GET_DESCRIPTOR.
pub const FIRST_HID: u16 = 0x2100;

/// wValue of GET_DESCRIPTOR.
pub const FIRST_REPORT: u16 = 0x2200;
