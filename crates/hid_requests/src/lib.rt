//! The requests of endpoint 0, at both ends, and the descriptors that answer them (USB 2.0, 9.4 to 9.6; HID 1.11, 6.2.1, 7.1
//! and 7.2).
//! ```text
//!   host                                          device
//!   Request --setup--> Setup, 8 bytes ----------> request_kind --> RequestKind, or nothing that it answers
//!
//!   Device     80 06 00 01 00 00 12 00            DeviceDescriptor   device_descriptor: 18 bytes
//!   Config     80 06 00 02 00 00 FF 00            Configuration      configuration: 34 bytes, four descriptors
//!   Report     81 06 00 22 00 00 length           ReportDescriptor   the descriptor of the device's reports
//!   Configure  00 09 01 00 00 00 00 00            SetConfiguration   it takes effect
//!   Idle       21 0A id time 00 00 00 00          SetIdle            of the class: wValue is two bytes
//!   Halt       02 03 00 00 81 00 00 00            SetFeature         of endpoint 1, to the host
//! ```
//! The rule to know: a standard row has one wValue and one wIndex (two for the status of endpoint 0), and a device answers no
//! request with others. A row of the class has wIndex 0, and in wValue a Report ID with the type of that report or its idle
//! time, or a protocol. wLength matters in a write only; the answer to a read is cut to it when it is sent.
//!
//! The promise: [`request_kind`] gives the row of the standard's tables. Each request of a host has a row
//! ([`laws::requests_have_rows`]) and as much data as it says ([`laws::data_are_announced`]). A host reads of a device's
//! configuration what the device was made of ([`laws::configurations_are_read`]). No call takes memory, and none is refused.
//!
//! Both ends and the lines of a script share the kind of a device ([`Boot`]), why there is none ([`DeviceFault`]), and the
//! endpoint of a device's reports ([`REPORT_ENDPOINT`]).
//! ```text
//!   let setup = Request::Configure.setup(&Asking { report_length: 63, endpoint: 1 });    // 00 09 01 00 00 00 00 00
//!   request_kind(&setup)                                                                 // Some(RequestKind::SetConfiguration)
//! ```
#![tactic(auto)]

mod boot;
mod class;
mod codes;
mod descriptors;
mod fault;
pub mod laws;
mod request;
mod request_kinds;

pub use boot::Boot;
pub use class::Protocol;
pub use codes::REPORT_ENDPOINT;
pub use descriptors::{configuration, device_descriptor, hid_descriptor};
pub use fault::{DeviceCause, DeviceFault};
pub use request::{Asking, Request};
pub use request_kinds::{RequestKind, request_kind};
