//! Whether the arrays of a layout can send that an element is empty.

ghost use Rattle.std.specs.Prelude.{◌≡◌, ◌<◌, List, length, slice_get, Some};
ghost use Rattle.hid_layout.specs.declared.main_item.MainItem.{MainItem as ItemValue};
ghost use Rattle.hid_report_descriptor.specs.Usages.{Entry};
ghost use Rattle.hid_snapshots.specs.Codes.{has_empty_code, has_empty_codes};

use crate::items::{is_input, item_at, item_count};
use hid_layout::{Layout, Shape};

/// Whether a listed item is no Input array, or has a code that names nothing.
fn has_empty_code(layout: &Layout, i: usize) -> bool
    requires { i < length layout.now.items }
    ensures { (item : ItemValue) (es : List Entry) → slice_get layout.now.items i ≡ Some item
        → slice_get layout.now.entries i ≡ Some es
        → result ≡ has_empty_code layout.now.reports item es }
{
    let item = item_at(layout, i);
    match item.shape {
        Shape::Array => !is_input(layout, item.report) || layout.codes(i).empty.is_some(),
        Shape::Variable | Shape::Padding => true,
    }
}

/// Whether every Input array has a code that names neither a key nor an error: the condition on which it can send fewer
/// keys than it has elements.
pub fn has_empty_codes(layout: &Layout) -> bool
    ensures { result ≡ has_empty_codes layout.now }
{
    for i in 0..item_count(layout) {
        if !has_empty_code(layout, i) {
            return false;
        }
    }
    true
}
