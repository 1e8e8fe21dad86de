//! What a program asks of an interface, beside its reports (HID 1.11, 7.2).
ghost use Rattle.std.specs.Prelude.{◌≡◌, ◌≤◌, ◌<◌, length, position, IfOk, IfSome, Some, unwrap_or};
ghost use Rattle.hid_report_descriptor.specs.declared.limits.TheConstants.{MAX_REAL_REPORT_BYTES};
ghost use Rattle.hid_layout.specs.Reports.{report_bytes};
ghost use Rattle.hid_driver.specs.Asking.{ask_setup, begins_with_id, class_setup, data_of, get_setup, is_report, report_size, report_type, set_setup, time_setup, word_of};

use crate::fault::DriverFault;
use crate::requests::{GET_REPORT, OF_CLASS, SET_IDLE, SET_REPORT, TO_CLASS, request};
use hid_interfaces::InterfaceInfo;
use hid_layout::{Layout, Report, ReportKind};
use usb_control::Setup;

/// What is asked of an interface (HID 1.11, 7.2). A protocol is asked for by `Driver::set_protocol`.
#[derive(Clone, Copy, Debug)]
pub enum Ask<'a> {
    /// GET_REPORT: a report as it is now (7.2.1).
    GetReport {
        kind: ReportKind,
        /// Its Report ID, 0 where it has none.
        id: u8,
    },
    /// SET_REPORT: to take a report, as LEDs (7.2.2).
    SetReport {
        kind: ReportKind,
        /// Its Report ID, 0 where it has none.
        id: u8,
        /// The report, its ID first where it has one: at most as many bytes as it has.
        bytes: &'a [u8],
    },
    /// SET_IDLE: to send a report again when this time is over without a change (7.2.4).
    Idle {
        /// The ID of an Input report, 0 for all of them.
        id: u8,
        /// In units of 4 ms; 0 is none: the report is sent on change alone.
        time: u8,
    },
}

/// The type of a report in requests (HID 1.11, 7.2.1).
fn report_type(kind: ReportKind) -> u8
    ensures { result ≡ report_type kind }
{
    match kind {
        ReportKind::Input => 1,
        ReportKind::Output => 2,
        ReportKind::Feature => 3,
    }
}

/// A word of this high and low byte.
fn word_of(high: u8, low: u8) -> u16
    ensures { result ≡ word_of high low }
{
    u16::from_le_bytes([low, high])
}

/// A request of an interface, by its class.
fn class_setup(info: &InterfaceInfo, request_type: u8, number: u8, value: u16, length: u16) -> Setup
    ensures { result ≡ class_setup info.now request_type number value length }
{
    request(request_type, number, value, u16::from(info.number), length)
}

/// Whether it is a report of this kind with this ID.
fn is_report(kind: ReportKind, id: u8, report: &Report) -> bool
    ensures { result ≡ is_report kind id report.now }
{
    report.kind.is(kind) && report.id == id
}

/// The place of the report of this kind with this ID.
fn place_of(layout: &Layout, kind: ReportKind, id: u8) -> Option<usize>
    ensures place { result ≡ position (is_report kind id) layout.now.reports }
    ensures within { IfSome result (λ r. r < length layout.now.reports) }
{
    layout
        .reports()
        .iter()
        .position(|report| is_report(kind, id, report))
}

/// In bytes, the report of this kind with this ID.
pub(crate) fn report_size(layout: &Layout, kind: ReportKind, id: u8) -> Option<u16>
    ensures { result ≡ report_size layout.now kind id }
{
    // For the prover: what holds of every layout, as that its reports are short.
    let _ = layout.items();

    match place_of(layout, kind, id) {
        Some(report) => Some(layout.report_bytes(report) as u16),
        None => None,
    }
}

/// GET_REPORT of a report.
fn get_setup(
    info: &InterfaceInfo,
    kind: ReportKind,
    id: u8,
    size: Option<u16>,
) -> Result<Setup, DriverFault>
    ensures { result ≡ get_setup info.now kind id size }
{
    match size {
        Some(size) => Ok(class_setup(
            info,
            OF_CLASS,
            GET_REPORT,
            word_of(report_type(kind), id),
            size,
        )),
        None => Err(DriverFault::NoReport),
    }
}

/// Whether the bytes of a report begin with its ID, where it has one.
fn begins_with_id(id: u8, bytes: &[u8]) -> bool
    ensures { result ≡ begins_with_id id bytes.now }
{
    if id == 0 {
        return true;
    }
    match bytes.first() {
        Some(first) => *first == id,
        None => false,
    }
}

/// SET_REPORT of a report, with these bytes.
fn set_setup(
    info: &InterfaceInfo,
    kind: ReportKind,
    id: u8,
    bytes: &[u8],
    size: Option<u16>,
) -> Result<Setup, DriverFault>
    ensures { result ≡ set_setup info.now kind id bytes.now size }
{
    match size {
        Some(size) => {
            if bytes.len() > usize::from(size) {
                return Err(DriverFault::TooLong);
            }
            if !begins_with_id(id, bytes) {
                return Err(DriverFault::WrongId);
            }
            Ok(class_setup(
                info,
                TO_CLASS,
                SET_REPORT,
                word_of(report_type(kind), id),
                bytes.len() as u16,
            ))
        }
        None => Err(DriverFault::NoReport),
    }
}

/// SET_IDLE of the Input report with this ID, if there is one, or of all of them.
fn time_setup(
    info: &InterfaceInfo,
    id: u8,
    time: u8,
    size: Option<u16>,
) -> Result<Setup, DriverFault>
    ensures { result ≡ time_setup info.now id time size }
{
    if id == 0 || size.is_some() {
        return Ok(class_setup(info, TO_CLASS, SET_IDLE, word_of(time, id), 0));
    }
    Err(DriverFault::NoReport)
}

/// The request of what is asked of an interface with this layout.
pub(crate) fn ask_setup(
    info: &InterfaceInfo,
    layout: &Layout,
    ask: &Ask<'_>,
) -> Result<Setup, DriverFault>
    ensures { result ≡ ask_setup info.now layout.now ask.now }
{
    match *ask {
        Ask::GetReport { kind, id } => get_setup(info, kind, id, report_size(layout, kind, id)),
        Ask::SetReport { kind, id, bytes } => set_setup(
            info,
            kind,
            id,
            bytes,
            report_size(layout, kind, id),
        ),
        Ask::Idle { id, time } => {
            time_setup(info, id, time, report_size(layout, ReportKind::Input, id))
        }
    }
}

impl<'a> Ask<'a> {
    /// The data that go with it: those of the report that is set, and none with any other.
    pub(crate) fn data(&self) -> &[u8]
        ensures { result.now ≡ data_of self.now }
    {
        match self {
            Ask::SetReport { bytes, .. } => bytes,
            _ => &[],
        }
    }
}
