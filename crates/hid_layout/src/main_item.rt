//! The items that put fields into a report, and their elements (HID 1.11, 6.2.2.4 and 6.2.2.5).

ghost use Rattle.std.specs.Prelude.{◌≡◌, ◌+◌, ◌*◌, ◌≤◌};
ghost use Rattle.hid_layout.specs.Reports.{field_at, element_in};

use hid_report_descriptor::{MAX_REAL_REPORT_BYTES, MainFlags, Shape};

/// An Input, Output or Feature item that has at least one bit.
#[derive(Clone, Copy, Debug, PartialEq, Eq)]
pub struct MainItem {
    /// The place of its report among the layout's reports.
    pub report: usize,
    /// Where its first field begins in the report, in bits after the ID byte.
    pub offset: usize,
    /// Report Size: the bits of a field.
    pub size: u32,
    /// Report Count: the number of fields.
    pub count: u32,
    /// The flags of the item.
    pub flags: MainFlags,
    /// Logical Minimum. Where it is negative, fields are in two's complement.
    pub min: i64,
    /// Logical Maximum, read without sign where the minimum isn't negative.
    pub max: i64,
    /// Whether its fields are padding, controls of their own or an array.
    pub shape: Shape,
}

/// A data field of a main item.
#[derive(Clone, Copy, Debug, PartialEq, Eq)]
pub struct Element {
    /// Where it begins in its report, in bits after the ID byte.
    pub bit: usize,
    /// In bits, 1 to 32.
    pub width: u32,
    /// Whether its pattern is read in two's complement.
    pub signed: bool,
    /// Logical Minimum.
    pub min: i64,
    /// Logical Maximum.
    pub max: i64,
}

impl MainItem {
    /// The field at a place.
    fn field(&self, j: usize) -> Element
        requires { self.now.offset + (j + 1) * self.now.size ≤ 8 * MAX_REAL_REPORT_BYTES }
        ensures { result ≡ field_at self.now j }
    {
        Element {
            bit: self.offset + j * self.size as usize,
            width: self.size,
            signed: self.min < 0,
            min: self.min,
            max: self.max,
        }
    }

    /// The data field at a place; none of padding, and none past the last.
    pub(crate) fn element(&self, j: usize) -> Option<Element>
        requires { self.now.offset + self.now.size * self.now.count ≤ 8 * MAX_REAL_REPORT_BYTES }
        ensures { result ≡ element_in self.now j }
    {
        if j >= self.count as usize {
            return None;
        }
        match self.shape {
            Shape::Padding => None,
            Shape::Variable | Shape::Array => Some(self.field(j)),
        }
    }
}
