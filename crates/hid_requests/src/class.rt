//! What class requests speak of: the types of reports, and protocols (HID 1.11, 7.2).
ghost use Rattle.std.specs.Prelude.{◌≡◌};
ghost use Rattle.hid_requests.specs.Class.{kind_of, protocol_number, type_of};

use hid_report_descriptor::ReportKind;

/// In which form a boot device sends its reports (HID 1.11, 7.2.5).
#[derive(Clone, Copy, Debug, PartialEq, Eq)]
pub enum Protocol {
    /// The boot protocol.
    Boot,
    /// The report protocol.
    Report,
}

impl Protocol {
    /// Its number in requests: 0 boot, 1 report.
    pub fn number(self) -> u8
        ensures { result ≡ protocol_number self }
    {
        match self {
            Protocol::Boot => 0,
            Protocol::Report => 1,
        }
    }
}

/// The type of a report in requests (HID 1.11, 7.2.1).
pub(crate) fn type_of(kind: ReportKind) -> u8
    ensures { result ≡ type_of kind }
{
    match kind {
        ReportKind::Input => 1,
        ReportKind::Output => 2,
        ReportKind::Feature => 3,
    }
}

/// The reports of a type, where there are such.
pub(crate) fn kind_of(report_type: u8) -> Option<ReportKind>
    ensures { result ≡ kind_of report_type }
{
    match report_type {
        1 => Some(ReportKind::Input),
        2 => Some(ReportKind::Output),
        3 => Some(ReportKind::Feature),
        _ => None,
    }
}
