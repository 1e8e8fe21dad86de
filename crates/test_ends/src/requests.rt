//! Requests and descriptors, of no device:
//! ```text
//!   asks: 80 00 00 00 00 00 02 00    what setup data ask: a variant of `RequestKind` and what it holds, or `no_dump`
//!   encodes: get-idle 255             what a host sends for a request, where the report descriptor has 306 bytes and the
//!                                    endpoint is 1: the setup data, the data after them, and what they ask
//!   describes: 63 1 1 1 10           the configuration of these: length of the report descriptor, endpoint, subclass,
//!                                    protocol, interval; and what is read of it again, but for the interval
//!   describes: hid 4660              the HID descriptor of a report descriptor of this length
//!   describes: device 65279 513      the device descriptor of this vendor and product, and what is read of it again
//! ```
//! Requests are encoded as in docs/SCRIPT.md.

use crate::output::Output;
use crate::words::{request_of, small, words_in};
use arrayvec::ArrayVec;
use hid_report_descriptor::ReportKind;
use hid_requests::{
    Asking, Request, RequestKind, configuration, device_descriptor, hid_descriptor, request_kind,
};
use test_rows::{RowFault, Table};
use usb_control::{ConfigInfo, DeviceInfo, Setup};

/// The name of a row.
fn name_of(asked: RequestKind) -> &'static str {
    match asked {
        RequestKind::Status => "Status",
        RequestKind::InterfaceStatus => "InterfaceStatus",
        RequestKind::ControlStatus => "ControlStatus",
        RequestKind::ReportStatus => "ReportStatus",
        RequestKind::DeviceDescriptor => "DeviceDescriptor",
        RequestKind::Configuration => "Configuration",
        RequestKind::HidDescriptor => "HidDescriptor",
        RequestKind::ReportDescriptor => "ReportDescriptor",
        RequestKind::GetConfiguration => "GetConfiguration",
        RequestKind::GetInterface => "GetInterface",
        RequestKind::SetConfiguration => "SetConfiguration",
        RequestKind::ClearFeature => "ClearFeature",
        RequestKind::SetFeature => "SetFeature",
        RequestKind::GetReport { .. } => "GetReport",
        RequestKind::GetIdle { .. } => "GetIdle",
        RequestKind::GetProtocol => "GetProtocol",
        RequestKind::SetReport { .. } => "SetReport",
        RequestKind::SetIdle { .. } => "SetIdle",
        RequestKind::SetProtocol { .. } => "SetProtocol",
    }
}

fn print_report(kind: ReportKind, id: u8, printed: &mut Output) {
    printed.show(format_args!("{kind:?} {id}"));
}

/// Appends a row: its name, and what it has.
fn print_row(asked: RequestKind, printed: &mut Output) {
    printed.show(name_of(asked));
    match asked {
        RequestKind::GetReport { kind, id } => print_report(kind, id, printed),
        RequestKind::GetIdle { id } => printed.show(id),
        RequestKind::SetReport { kind, id, length } => {
            print_report(kind, id, printed);
            printed.show(length);
        }
        RequestKind::SetIdle { id, time } => {
            printed.show(id);
            printed.show(time);
        }
        RequestKind::SetProtocol { protocol } => printed.show(format_args!("{protocol:?}")),
        _ => {}
    }
}

/// Appends what setup data ask.
fn print_asked(setup: &Setup, printed: &mut Output) {
    match request_kind(setup) {
        Some(asked) => print_row(asked, printed),
        None => printed.add("nothing"),
    }
}

/// Appends what the setup data ask that these bytes encode.
fn print_asked_by(bytes: &[u8], printed: &mut Output) {
    match bytes.as_array::<8>() {
        Some(bytes) => print_asked(&Setup::from_bytes(bytes), printed),
        None => printed.unread(),
    }
}

/// Appends what a host sends for a request, and whether its copy is another.
fn print_sent(request: &Request, printed: &mut Output) {
    let setup = request.setup(&Asking {
        report_length: 306,
        endpoint: 1,
    });
    printed.hex(&setup.to_bytes());
    printed.hex(request.sends());
    print_asked(&setup, printed);
    if request.copied() != *request {
        printed.add("copied otherwise");
    }
}

fn print_encoded(request: Option<Request>, printed: &mut Output) {
    match request {
        Some(request) => print_sent(&request, printed),
        None => printed.unread(),
    }
}

/// Appends what is read of a configuration.
fn print_read(bytes: &[u8], printed: &mut Output) {
    match ConfigInfo::read(bytes) {
        Ok(info) => printed.show(format_args!(
            "{} {} {} {}",
            info.report_length, info.endpoint, info.subclass, info.protocol
        )),
        Err(fault) => printed.show(fault),
    }
}

/// The configuration of such a device; nothing for an endpoint that there isn't.
fn configuration_of(info: &ConfigInfo, interval: u8) -> ArrayVec<u8, 34> {
    if info.endpoint > 15 {
        return ArrayVec::new();
    }
    configuration(info, interval)
}

fn print_configuration(info: &ConfigInfo, interval: u8, printed: &mut Output) {
    let bytes = configuration_of(info, interval);
    printed.hex(&bytes);
    print_read(&bytes, printed);
}

fn info_of(length: &str, endpoint: &str, subclass: &str, protocol: &str) -> Option<ConfigInfo> {
    Some(ConfigInfo {
        report_length: length.parse().ok()?,
        endpoint: small(endpoint)?,
        subclass: small(subclass)?,
        protocol: small(protocol)?,
    })
}

fn print_described(info: Option<ConfigInfo>, interval: Option<u8>, printed: &mut Output) {
    match (info, interval) {
        (Some(info), Some(interval)) => print_configuration(&info, interval, printed),
        _ => printed.unread(),
    }
}

fn print_hid(length: Option<u16>, printed: &mut Output) {
    match length {
        Some(length) => printed.hex(&hid_descriptor(length)),
        None => printed.unread(),
    }
}

/// Appends a device descriptor, and what is read from it again.
fn print_device(vendor: Option<u16>, product: Option<u16>, printed: &mut Output) {
    let (Some(vendor), Some(product)) = (vendor, product) else {
        return printed.unread();
    };
    let bytes = device_descriptor(&DeviceInfo { vendor, product });
    printed.hex(&bytes);
    match DeviceInfo::read(&bytes) {
        Ok(info) => printed.show(format_args!("{} {}", info.vendor, info.product)),
        Err(fault) => printed.show(fault),
    }
}

fn print_described_by(words: &[&str], printed: &mut Output) {
    match *words {
        ["hid", length] => print_hid(length.parse().ok(), printed),
        ["device", vendor, product] => print_device(
            vendor.parse().ok(),
            product.parse().ok(),
            printed,
        ),
        [length, endpoint, subclass, protocol, interval] => print_described(
            info_of(length, endpoint, subclass, protocol),
            small(interval),
            printed,
        ),
        _ => printed.unread(),
    }
}

/// What setup data ask.
pub fn print_asks(printed: &mut String, table: &Table<'_>, bytes: &[u8]) -> Result<(), RowFault> {
    let mut row = Output::new(table.alloc);
    print_asked_by(bytes, &mut row);
    row.give(printed)
}

/// What a host sends for a request.
pub fn print_encodes(printed: &mut String, table: &Table<'_>, given: &str) -> Result<(), RowFault> {
    let words = words_in(table.alloc, given)?;
    let mut bytes = Vec::new(table.alloc);
    let mut row = Output::new(table.alloc);
    print_encoded(request_of(&words, &mut bytes), &mut row);
    row.give(printed)
}

/// A descriptor, and what is read of it again.
pub fn print_describes(
    printed: &mut String,
    table: &Table<'_>,
    given: &str,
) -> Result<(), RowFault> {
    let words = words_in(table.alloc, given)?;
    let mut row = Output::new(table.alloc);
    print_described_by(&words, &mut row);
    row.give(printed)
}
