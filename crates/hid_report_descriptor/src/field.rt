//! The fields that an Input, Output or Feature item describes (HID 1.11, 6.2.2.4 and 6.2.2.7).

ghost use Rattle.std.specs.Prelude.{◌≡◌, ◌≤◌, ◌<◌, ◌+◌, ◌*◌, ◌==◌, nat_lt, ℕ, [], length, map, if◌then◌else◌};
ghost use Rattle.std.specs.Bool.{OnFalse};
ghost use Rattle.hid_report_descriptor.specs.Fields.{is_padding, shape_of, shown_entries};
ghost use Rattle.hid_report_descriptor.specs.Usages.{is_range, are_ranges};
ghost use Rattle.hid_report_descriptor.specs.Locals.{entry_on_page};
ghost use Rattle.hid_report_descriptor.specs.Faults.{report_limit, has_value, first_met, value_tests, checked_values, IsCauseOf};

use crate::fault::Cause;
use crate::flags::MainFlags;
use crate::limits::{Limits, MAX_REAL_REPORT_BYTES, MAX_WIDTH};
use crate::locals::{Locals, NamedUsage, entry_on_page};
use crate::report::ReportKind;
use crate::shape::Shape;
use crate::usage::Usage;
use crate::values::{greatest_value, least_value};

/// The fields of an item by what is in force at it, without their usages and collections.
#[derive(Clone, Copy)]
pub struct KeptField {
    /// The kind of its report.
    pub kind: ReportKind,
    /// The Report ID in force at the item, 0 where none is.
    pub id: u8,
    /// The bits of the earlier fields of the same report, without those of the ID byte.
    pub offset: u32,
    /// Report Size: the bits of a field.
    pub size: u32,
    /// Report Count: the number of fields.
    pub count: u32,
    /// The flags of the item.
    pub flags: MainFlags,
    /// Logical Minimum. Where it is negative, fields are in two's complement.
    pub min: i64,
    /// Logical Maximum, read without sign where the minimum isn't negative.
    pub max: i64,
    /// Whether the fields are padding, controls of their own or an array.
    pub shape: Shape,
}

impl KeptField {
    ghost use Rattle.hid_report_descriptor.specs.KeptFields.{whole_field};

    /// How many data fields there are.
    pub(crate) fn elements(&self) -> u32
        ensures { result ≡ (if is_padding self.now.shape then 0 else self.now.count) }
    {
        match self.shape {
            Shape::Padding => 0,
            Shape::Variable | Shape::Array => self.count,
        }
    }

    /// Whether the report is too long with these fields.
    pub(crate) fn is_too_long(&self, limits: Limits) -> bool
        ensures value { result ≡ nat_lt (report_limit limits self.now.id)
            (self.now.offset + self.now.size * self.now.count) }
        ensures short { OnFalse result (self.now.offset + self.now.size * self.now.count
            ≤ 8 * MAX_REAL_REPORT_BYTES) }
    {
        let id_bytes = if self.id == 0 { 0 } else { 1 };
        let limit = 8 * (limits.report_bytes() - id_bytes);
        match self.size.checked_mul(self.count) {
            Some(bits) => u64::from(self.offset) + u64::from(bits) > u64::from(limit),
            None => true,
        }
    }

    /// Whether some pattern of the fields stands for a value of the range.
    fn has_value(&self) -> bool
        requires some { 0 < self.now.size }
        requires narrow { self.now.size ≤ MAX_WIDTH }
        ensures { result ≡ has_value self.now.min self.now.max self.now.size }
    {
        self.min <= self.max
            && least_value(self.min, self.size) <= self.max
            && self.min <= greatest_value(self.min, self.size)
    }

    /// Checks the usages, the size and the range, and returns the first fault.
    fn test_values(&self, limits: Limits, locals: &Locals, page: u16) -> Result<(), Cause>
        ensures { IsCauseOf result (first_met
            (value_tests limits (whole_field self.now [] [])
            (length locals.now.minima == length locals.now.maxima)
            (map (entry_on_page page) locals.now.entries.items))) }
    {
        if !locals.are_paired() {
            return Err(Cause::UnpairedUsage);
        }
        if !are_ranges(&locals.entries, page) {
            return Err(Cause::BadUsageRange);
        }
        if locals.entries.is_empty() {
            return Ok(());
        }
        if self.size == 0 || self.size > limits.width() {
            return Err(Cause::BadSize);
        }
        if self.size > MAX_WIDTH || self.has_value() {
            Ok(())
        } else {
            Err(Cause::BadRange)
        }
    }

    /// Refuses wrong usages, a wrong size and a wrong range, unless the item is Constant or has no fields.
    #[inline(always)] // a call costs more than its few tests
    pub(crate) fn check_values(
        &self,
        limits: Limits,
        locals: &Locals,
        page: u16,
    ) -> Result<(), Cause>
        ensures { IsCauseOf result (first_met
            (checked_values limits (whole_field self.now [] [])
            (length locals.now.minima == length locals.now.maxima)
            (map (entry_on_page page) locals.now.entries.items))) }
    {
        if self.flags.is_constant() || self.count == 0 {
            return Ok(());
        }
        self.test_values(limits, locals, page)
    }
}

/// Whether each range has its minimum at most at its maximum, and the two on one page, with this page in force.
fn are_ranges(entries: &[(NamedUsage, NamedUsage)], page: u16) -> bool
    ensures { result ≡ are_ranges (map (entry_on_page page) entries.now) }
{
    for e in entries {
        if !is_range(&entry_on_page(e, page)) {
            return false;
        }
    }
    true
}

/// Whether the ends are on one page, and the first isn't above the last.
fn is_range(e: &(Usage, Usage)) -> bool
    ensures { result ≡ is_range e.now }
{
    e.0.page == e.1.page && e.0.id <= e.1.id
}

/// What the fields are: padding, where the item is Constant or has no fields or no usage, or they are wider than a number.
pub(crate) fn shape_of(
    flags: MainFlags,
    size: u32,
    count: u32,
    entries: &[(NamedUsage, NamedUsage)],
) -> Shape
    ensures { (page : ℕ) → result ≡ shape_of flags.0 size count (map (entry_on_page page) entries.now) }
{
    if entries.is_empty() {
        return Shape::Padding;
    }
    if flags.is_constant() || count == 0 || size > MAX_WIDTH {
        Shape::Padding
    } else if flags.is_variable() {
        Shape::Variable
    } else {
        Shape::Array
    }
}

/// The usages that a layout shows: none of padding.
pub(crate) fn shown_entries(
    shape: Shape,
    entries: &[(NamedUsage, NamedUsage)],
) -> &[(NamedUsage, NamedUsage)]
    ensures { (page : ℕ)
        → map (entry_on_page page) result.now
        ≡ shown_entries shape (map (entry_on_page page) entries.now) }
{
    match shape {
        Shape::Padding => &entries[..0],
        Shape::Variable | Shape::Array => entries,
    }
}
