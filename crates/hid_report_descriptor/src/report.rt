//! The reports that a device has (HID 1.11, 5.6).

/// Which way a report goes, and what for.
#[derive(Clone, Copy, Debug, PartialEq, Eq)]
pub enum ReportKind {
    /// From the device to the host.
    Input,
    /// From the host to the device.
    Output,
    /// Settings, either way.
    Feature,
}

impl ReportKind {
    ghost use Rattle.std.specs.Prelude.{◌≡◌};
    ghost use Rattle.hid_report_descriptor.specs.Kinds.{same_kind, rank};

    /// Whether this is that kind.
    pub fn is(self, other: ReportKind) -> bool
        ensures { result ≡ same_kind self other }
    {
        match (self, other) {
            (ReportKind::Input, ReportKind::Input) => true,
            (ReportKind::Output, ReportKind::Output) => true,
            (ReportKind::Feature, ReportKind::Feature) => true,
            _ => false,
        }
    }

    /// Its place in the order of kinds.
    pub(crate) fn rank(self) -> u8
        ensures { result ≡ rank self }
    {
        match self {
            ReportKind::Input => 0,
            ReportKind::Output => 1,
            ReportKind::Feature => 2,
        }
    }
}

/// A report that has at least one bit.
#[derive(Clone, Copy, Debug, PartialEq, Eq)]
pub struct Report {
    /// Which way it goes, and what for.
    pub kind: ReportKind,
    /// The Report ID in force at its items, 0 where none is.
    pub id: u8,
    /// The bits of all its items, without those of the ID byte.
    pub bits: u32,
}
