//! What a host asks.
ghost use Rattle.std.specs.Prelude.{◌≡◌};
ghost use Rattle.usb_control.specs.SetupBytes.{IsEncoded};
ghost use Rattle.hid_requests.specs.RequestSetup.{FitsRequest, asks, endpoint_setup, protocol_of, sends_of, setup_for, word_of};

use crate::class::{Protocol, type_of};
use crate::codes::{
    CLEAR_FEATURE, FIRST_CONFIGURATION, FIRST_DEVICE, FIRST_REPORT, GET_CONFIGURATION,
    GET_DESCRIPTOR, GET_IDLE, GET_PROTOCOL, GET_REPORT, GET_STATUS, OF_CLASS, OF_DEVICE,
    OF_ENDPOINT, OF_INTERFACE, SET_CONFIGURATION, SET_FEATURE, SET_IDLE, SET_PROTOCOL, SET_REPORT,
    TO_CLASS, TO_DEVICE, TO_ENDPOINT,
};
use arrayvec::ArrayVec;
use hid_report_descriptor::ReportKind;
use usb_control::Setup;

/// A request of a host, by what it is for. The first four bring a device up, in their order. [`Request::setup`] has the setup
/// data, and [`RequestKind`] is the request as a device understands it.
#[derive(Debug, Drop, PartialEq, Eq)]
pub enum Request {
    /// GET_DESCRIPTOR: the device descriptor (USB 2.0, 9.4.3).
    Device,
    /// GET_DESCRIPTOR: the first configuration, with all descriptors that belong to it (9.4.3).
    Config,
    /// GET_DESCRIPTOR: the report descriptor, as many bytes as the configuration says (HID 1.11, 7.1.1).
    Report,
    /// SET_CONFIGURATION with 1: to be configured (USB 2.0, 9.4.7).
    Configure,
    /// GET_STATUS of the device (9.4.5).
    Status,
    /// GET_CONFIGURATION: whether the device is configured (9.4.2).
    GetConfiguration,
    /// SET_IDLE: to send a report again when this time is over without a change (HID 1.11, 7.2.4).
    Idle {
        /// The Report ID, 0 for all Input reports.
        id: u8,
        /// In units of 4 ms; 0 is none: the report is sent on change alone.
        time: u8,
    },
    /// GET_IDLE: the time after which a report is sent again (7.2.3).
    GetIdle {
        /// The Report ID, 0 for the lowest Input report.
        id: u8,
    },
    /// SET_PROTOCOL: to send boot reports, or the device's own (7.2.6).
    Protocol {
        /// Whether boot reports are asked for.
        boot: bool,
    },
    /// GET_PROTOCOL: whether the device sends boot reports or its own (7.2.5).
    GetProtocol,
    /// GET_REPORT: a report as it is now (7.2.1).
    GetReport {
        kind: ReportKind,
        /// Its Report ID, 0 where it has none.
        id: u8,
    },
    /// SET_REPORT: to take a report (7.2.2).
    SetReport {
        kind: ReportKind,
        /// Its Report ID, 0 where it has none.
        id: u8,
        /// The report, its ID first where it has one.
        bytes: ArrayVec<u8, 256>,
    },
    /// SET_FEATURE of ENDPOINT_HALT: to halt the endpoint of the Input reports (USB 2.0, 9.4.9).
    Halt,
    /// CLEAR_FEATURE of ENDPOINT_HALT: to end a halt of the endpoint of the Input reports, which begins at DATA0 again (9.4.1
    /// and 9.4.5).
    Clear,
    /// GET_STATUS of the endpoint of the Input reports: whether it is halted (9.4.5).
    EndpointStatus,
}

/// What a host knows of a device when it makes a request.
#[derive(Clone, Copy, Debug, PartialEq, Eq)]
pub struct Asking {
    /// In bytes, the report descriptor, by the configuration; 0 before that was read, and of a host that is ready.
    pub report_length: u16,
    /// The number of the endpoint of its Input reports, by the configuration; 0 before that was read.
    pub endpoint: u8,
}

impl Request {
    /// The setup data of the request (USB 2.0, 9.4; HID 1.11, 7.2). A configuration is asked for once, with 255 bytes, and a
    /// report with 256 (our choice).
    pub fn setup(&self, asking: &Asking) -> Setup
        ensures setup { result ≡ setup_for self.now asking.now }
        ensures encoded { IsEncoded result }
        ensures fits { FitsRequest self.now }
    {
        match self {
            Request::Device => asks(OF_DEVICE, GET_DESCRIPTOR, FIRST_DEVICE, 18),
            Request::Config => asks(OF_DEVICE, GET_DESCRIPTOR, FIRST_CONFIGURATION, 255),
            Request::Report => asks(
                OF_INTERFACE,
                GET_DESCRIPTOR,
                FIRST_REPORT,
                asking.report_length,
            ),
            Request::Configure => asks(TO_DEVICE, SET_CONFIGURATION, 1, 0),
            Request::Status => asks(OF_DEVICE, GET_STATUS, 0, 2),
            Request::GetConfiguration => asks(OF_DEVICE, GET_CONFIGURATION, 0, 1),
            Request::Idle { id, time } => asks(TO_CLASS, SET_IDLE, word_of(*time, *id), 0),
            Request::GetIdle { id } => asks(OF_CLASS, GET_IDLE, u16::from(*id), 1),
            Request::Protocol { boot } => asks(
                TO_CLASS,
                SET_PROTOCOL,
                u16::from(protocol_of(*boot).number()),
                0,
            ),
            Request::GetProtocol => asks(OF_CLASS, GET_PROTOCOL, 0, 1),
            Request::GetReport { kind, id } => asks(
                OF_CLASS,
                GET_REPORT,
                word_of(type_of(*kind), *id),
                256,
            ),
            Request::SetReport { kind, id, bytes } => asks(
                TO_CLASS,
                SET_REPORT,
                word_of(type_of(*kind), *id),
                bytes.len() as u16,
            ),
            Request::Halt => endpoint_setup(TO_ENDPOINT, SET_FEATURE, asking.endpoint, 0),
            Request::Clear => endpoint_setup(TO_ENDPOINT, CLEAR_FEATURE, asking.endpoint, 0),
            Request::EndpointStatus => endpoint_setup(OF_ENDPOINT, GET_STATUS, asking.endpoint, 2),
        }
    }

    /// The data that go with it: those of the report that is set, and none with any other.
    pub fn sends(&self) -> &[u8]
        ensures { result.now ≡ sends_of self.now }
    {
        match self {
            Request::SetReport { bytes, .. } => bytes,
            _ => &[],
        }
    }

    /// A copy of the request.
    pub fn copied(&self) -> Request
        ensures { result ≡ self.now }
    {
        match self {
            Request::Device => Request::Device,
            Request::Config => Request::Config,
            Request::Report => Request::Report,
            Request::Configure => Request::Configure,
            Request::Status => Request::Status,
            Request::GetConfiguration => Request::GetConfiguration,
            Request::Idle { id, time } => Request::Idle {
                id: *id,
                time: *time,
            },
            Request::GetIdle { id } => Request::GetIdle { id: *id },
            Request::Protocol { boot } => Request::Protocol { boot: *boot },
            Request::GetProtocol => Request::GetProtocol,
            Request::GetReport { kind, id } => Request::GetReport {
                kind: *kind,
                id: *id,
            },
            Request::SetReport { kind, id, bytes } => Request::SetReport {
                kind: *kind,
                id: *id,
                bytes: ArrayVec::try_from(bytes.as_slice()).unwrap(),
            },
            Request::Halt => Request::Halt,
            Request::Clear => Request::Clear,
            Request::EndpointStatus => Request::EndpointStatus,
        }
    }
}

/// The boot protocol, or the report protocol.
fn protocol_of(boot: bool) -> Protocol
    ensures { result ≡ protocol_of boot }
{
    if boot {
        Protocol::Boot
    } else {
        Protocol::Report
    }
}

/// A word of this high and low byte.
fn word_of(high: u8, low: u8) -> u16
    ensures { result ≡ word_of high low }
{
    u16::from_le_bytes([low, high])
}

/// A request with wIndex 0.
fn asks(request_type: u8, request: u8, value: u16, length: u16) -> Setup
    ensures setup { result ≡ asks request_type request value length }
    ensures encoded { IsEncoded result }
{
    Setup {
        request_type,
        request,
        value,
        index: 0,
        length,
    }
}

/// A request of an endpoint to the host, with wValue 0: of SET_FEATURE and CLEAR_FEATURE that is ENDPOINT_HALT (table 9-6).
fn endpoint_setup(request_type: u8, request: u8, endpoint: u8, length: u16) -> Setup
    ensures setup { result ≡ endpoint_setup request_type request endpoint length }
    ensures encoded { IsEncoded result }
{
    Setup {
        request_type,
        request,
        value: 0,
        index: 0x80 + u16::from(endpoint),
        length,
    }
}
