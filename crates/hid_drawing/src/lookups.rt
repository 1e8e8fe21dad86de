//! Items and reports of a layout by their places.

ghost use Rattle.std.specs.Prelude.{◌≡◌, ◌+◌, ◌*◌, ◌<◌, ◌≤◌, length, slice_get, Some};
ghost use Rattle.hid_layout.specs.Reports.{first_bit, report_bytes};
ghost use Rattle.hid_drawing.specs.Pieces.{SliceLiesIn};
ghost use Rattle.hid_report_descriptor.specs.declared.limits.TheConstants.{MAX_REAL_REPORT_BYTES};

use hid_layout::{Layout, MainItem, Report};

/// The listed item at a place.
pub fn item_at(layout: &Layout, i: usize) -> &MainItem
    requires { i < length layout.now.items }
    ensures at { slice_get layout.now.items i ≡ Some result.now }
    ensures lies { SliceLiesIn layout.now result.now }
{
    &layout.items()[i]
}

/// The report at a place.
pub fn report_at(layout: &Layout, r: usize) -> &Report
    requires { r < length layout.now.reports }
    ensures at { slice_get layout.now.reports r ≡ Some result.now }
    ensures short { result.now.bits ≤ 8 * MAX_REAL_REPORT_BYTES }
    ensures bytes { report_bytes layout.now r ≤ MAX_REAL_REPORT_BYTES }
{
    // For the prover: what holds of every layout, as that its reports are short.
    let _ = layout.items();

    &layout.reports()[r]
}

/// The first bit after the ID.
pub(crate) fn first_bit(layout: &Layout) -> u32
    ensures { result ≡ first_bit layout.now }
{
    if layout.numbered() { 8 } else { 0 }
}

/// Where an item begins, in bits of its report with the ID (HID 1.11, 5.6 and 8).
pub fn first_bit_of(layout: &Layout, item: &MainItem) -> u32
    requires { SliceLiesIn layout.now item.now }
    ensures { result ≡ first_bit layout.now + item.now.offset }
{
    first_bit(layout) + item.offset as u32
}
