//! Which report a host sets.
ghost use Rattle.std.specs.Prelude.{◌≡◌};
ghost use Rattle.usbip_serving.specs.SetReports.{awaited_report, named_report, set_by};

use hid_layout::ReportKind;
use hid_requests::{RequestKind, request_kind};
use usb_control::Setup;
use usbip::{Status, Submit};
use usbip_export::{Answer, Stage};

/// A report that a host set: SET_REPORT took effect (HID 1.11, 7.2.2).
#[derive(Clone, Copy, Debug, PartialEq, Eq)]
pub struct SetReport {
    /// The place of the device among those that are served.
    pub place: usize,
    /// Output or Feature.
    pub kind: ReportKind,
    /// Its Report ID, 0 where it has none.
    pub id: u8,
}

/// What came of bytes.
#[derive(Clone, Copy, Debug, PartialEq, Eq)]
pub struct Taken {
    /// In bytes, the answer at the front of the room; 0 where nothing is to be sent yet.
    pub length: usize,
    /// The report that the bytes set, if they do.
    pub set: Option<SetReport>,
}

/// The report that a submit names, if it is SET_REPORT.
#[tactic(auto, unfolding(hid_requests::specs::RequestKinds::request_kind_of))]
fn named_report(place: usize, submit: &Submit) -> Option<SetReport>
    ensures { result ≡ named_report place submit.now }
{
    match request_kind(&Setup::from_bytes(&submit.setup)) {
        Some(RequestKind::SetReport { kind, id, .. }) => Some(SetReport { place, kind, id }),
        _ => None,
    }
}

/// The report that the data which come next set, if they are accepted.
pub(crate) fn awaited_report(stage: &Stage) -> Option<SetReport>
    ensures { result ≡ awaited_report stage.now }
{
    match stage {
        Stage::Data(place, submit) => named_report(*place, submit),
        Stage::Operation | Stage::BusId | Stage::Command(_) | Stage::Over => None,
    }
}

/// The report that an answer says was set, where this one is awaited: its submit is done.
pub(crate) fn set_by(awaited: Option<SetReport>, answer: &Answer) -> Option<SetReport>
    ensures { result ≡ set_by awaited answer.now.status }
{
    match answer.status {
        Some(Status::Success) => awaited,
        _ => None,
    }
}
