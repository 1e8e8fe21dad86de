//! What a device is asked.
ghost use Rattle.std.specs.Prelude.{◌≡◌};
ghost use Rattle.hid_requests.specs.RequestKinds.{class_row, is_bare_class, is_bare_row, is_class, is_row, request_kind_of, standard_row};

use crate::class::{Protocol, kind_of};
use crate::codes::{
    CLEAR_FEATURE, ENDPOINT_HALT, FIRST_CONFIGURATION, FIRST_DEVICE, FIRST_HID, FIRST_REPORT,
    GET_CONFIGURATION, GET_DESCRIPTOR, GET_IDLE, GET_INTERFACE, GET_PROTOCOL, GET_REPORT,
    GET_STATUS, OF_CLASS, OF_DEVICE, OF_ENDPOINT, OF_INTERFACE, SET_CONFIGURATION, SET_FEATURE,
    SET_IDLE, SET_PROTOCOL, SET_REPORT, TO_CLASS, TO_DEVICE, TO_ENDPOINT,
};
use hid_report_descriptor::ReportKind;
use usb_control::Setup;

/// What a device is asked: a row of the requests that it answers (USB 2.0, 9.4; HID 1.11, 7.1 and 7.2).
#[derive(Clone, Copy)]
pub enum RequestKind {
    /// GET_STATUS of the device.
    Status,
    /// GET_STATUS of interface 0.
    InterfaceStatus,
    /// GET_STATUS of endpoint 0, by either of its directions.
    ControlStatus,
    /// GET_STATUS of endpoint 1, to the host.
    ReportStatus,
    /// GET_DESCRIPTOR: the device's.
    DeviceDescriptor,
    /// GET_DESCRIPTOR: the first configuration's, with all that belong to it.
    Configuration,
    /// GET_DESCRIPTOR: the HID descriptor of interface 0.
    HidDescriptor,
    /// GET_DESCRIPTOR: the report descriptor of interface 0.
    ReportDescriptor,
    /// GET_CONFIGURATION.
    GetConfiguration,
    /// GET_INTERFACE of interface 0.
    GetInterface,
    /// SET_CONFIGURATION with 1.
    SetConfiguration,
    /// CLEAR_FEATURE of ENDPOINT_HALT, of endpoint 1, to the host.
    ClearFeature,
    /// SET_FEATURE of ENDPOINT_HALT, of the same endpoint.
    SetFeature,
    /// GET_REPORT (HID 1.11, 7.2.1).
    GetReport {
        kind: ReportKind,
        /// Its Report ID, 0 where it has none.
        id: u8,
    },
    /// GET_IDLE (7.2.3).
    GetIdle {
        /// The Report ID, 0 for the lowest Input report.
        id: u8,
    },
    /// GET_PROTOCOL (7.2.5).
    GetProtocol,
    /// SET_REPORT (7.2.2).
    SetReport {
        kind: ReportKind,
        /// Its Report ID, 0 where it has none.
        id: u8,
        /// In bytes, the data that come with it.
        length: u16,
    },
    /// SET_IDLE (7.2.4).
    SetIdle {
        /// The Report ID, 0 for all Input reports.
        id: u8,
        /// In units of 4 ms; 0 is none: the report is sent on change alone.
        time: u8,
    },
    /// SET_PROTOCOL (7.2.6).
    SetProtocol {
        protocol: Protocol,
    },
}

/// A request of this type and number, with this value and index.
fn is_row(setup: &Setup, request_type: u8, request: u8, value: u16, index: u16) -> bool
    ensures { result ≡ is_row setup.now request_type request value index }
{
    setup.request_type == request_type
        && setup.request == request
        && (setup.value == value && setup.index == index)
}

/// A request of this type and number, with this value and index, and no data.
fn is_bare_row(setup: &Setup, request_type: u8, request: u8, value: u16, index: u16) -> bool
    ensures { result ≡ is_bare_row setup.now request_type request value index }
{
    is_row(setup, request_type, request, value, index) && setup.length == 0
}

/// A request of interface 0 of this type and number, whatever its value.
fn is_class(setup: &Setup, request_type: u8, request: u8) -> bool
    ensures { result ≡ is_class setup.now request_type request }
{
    setup.request_type == request_type && setup.request == request && setup.index == 0
}

/// A request of interface 0 of this type and number, without data.
fn is_bare_class(setup: &Setup, request_type: u8, request: u8) -> bool
    ensures { result ≡ is_bare_class setup.now request_type request }
{
    is_class(setup, request_type, request) && setup.length == 0
}

/// Its row among the standard requests.
fn standard_row(setup: &Setup) -> Option<RequestKind>
    ensures { result ≡ standard_row setup.now }
{
    if is_row(setup, OF_DEVICE, GET_STATUS, 0, 0) {
        Some(RequestKind::Status)
    } else if is_row(setup, OF_INTERFACE, GET_STATUS, 0, 0) {
        Some(RequestKind::InterfaceStatus)
    } else if is_row(setup, OF_ENDPOINT, GET_STATUS, 0, 0x00) {
        Some(RequestKind::ControlStatus)
    } else if is_row(setup, OF_ENDPOINT, GET_STATUS, 0, 0x80) {
        Some(RequestKind::ControlStatus)
    } else if is_row(setup, OF_ENDPOINT, GET_STATUS, 0, 0x81) {
        Some(RequestKind::ReportStatus)
    } else if is_row(setup, OF_DEVICE, GET_DESCRIPTOR, FIRST_DEVICE, 0) {
        Some(RequestKind::DeviceDescriptor)
    } else if is_row(setup, OF_DEVICE, GET_DESCRIPTOR, FIRST_CONFIGURATION, 0) {
        Some(RequestKind::Configuration)
    } else if is_row(setup, OF_INTERFACE, GET_DESCRIPTOR, FIRST_HID, 0) {
        Some(RequestKind::HidDescriptor)
    } else if is_row(setup, OF_INTERFACE, GET_DESCRIPTOR, FIRST_REPORT, 0) {
        Some(RequestKind::ReportDescriptor)
    } else if is_row(setup, OF_DEVICE, GET_CONFIGURATION, 0, 0) {
        Some(RequestKind::GetConfiguration)
    } else if is_row(setup, OF_INTERFACE, GET_INTERFACE, 0, 0) {
        Some(RequestKind::GetInterface)
    } else if is_bare_row(setup, TO_DEVICE, SET_CONFIGURATION, 1, 0) {
        Some(RequestKind::SetConfiguration)
    } else if is_bare_row(setup, TO_ENDPOINT, CLEAR_FEATURE, ENDPOINT_HALT, 0x81) {
        Some(RequestKind::ClearFeature)
    } else if is_bare_row(setup, TO_ENDPOINT, SET_FEATURE, ENDPOINT_HALT, 0x81) {
        Some(RequestKind::SetFeature)
    } else {
        None
    }
}

/// Its row among the class requests. wValue has an ID in its low byte, and the type of a report or an idle time in its high
/// one.
fn class_row(setup: &Setup) -> Option<RequestKind>
    ensures { result ≡ class_row setup.now }
{
    let [id, high] = setup.value.to_le_bytes();
    if is_class(setup, OF_CLASS, GET_REPORT) {
        let kind = kind_of(high)?;
        Some(RequestKind::GetReport { kind, id })
    } else if is_row(setup, OF_CLASS, GET_IDLE, u16::from(id), 0) {
        Some(RequestKind::GetIdle { id })
    } else if is_row(setup, OF_CLASS, GET_PROTOCOL, 0, 0) {
        Some(RequestKind::GetProtocol)
    } else if is_class(setup, TO_CLASS, SET_REPORT) {
        let kind = kind_of(high)?;
        Some(RequestKind::SetReport {
            kind,
            id,
            length: setup.length,
        })
    } else if is_bare_class(setup, TO_CLASS, SET_IDLE) {
        Some(RequestKind::SetIdle { id, time: high })
    } else if is_bare_row(setup, TO_CLASS, SET_PROTOCOL, 0, 0) {
        Some(RequestKind::SetProtocol {
            protocol: Protocol::Boot,
        })
    } else if is_bare_row(setup, TO_CLASS, SET_PROTOCOL, 1, 0) {
        Some(RequestKind::SetProtocol {
            protocol: Protocol::Report,
        })
    } else {
        None
    }
}

/// What a setup asks, where it is of a row that a device answers. Whether it is answered may rest on how the device
/// stands: see `hid_device`.
#[tactic(auto, unfolding(crate::specs::RequestKinds::request_kind_of))]
pub fn request_kind(setup: &Setup) -> Option<RequestKind>
    ensures { result ≡ request_kind_of setup.now }
{
    match standard_row(setup) {
        Some(asked) => Some(asked),
        None => class_row(setup),
    }
}
