//! What a layout keeps beside its items, so that they are read without a search: the codes of arrays.

ghost use Rattle.std.specs.Prelude.{◌≡◌, ◌<◌, ◌≤◌, ℕ, List, false, length, slice_get, IfOk, Some};
ghost use Rattle.hid_report_descriptor.specs.Usages.{Entry, usage_list};
ghost use Rattle.hid_report_descriptor.specs.Fields.{is_padding};
ghost use Rattle.hid_layout.specs.Reports.{HasElements};
ghost use Rattle.hid_layout.specs.Codes.{AreCodes};
ghost use Rattle.hid_layout.specs.ArrayCodes.{AreArrayCodes};

use crate::codes::{Codes, NO_CODES, codes_of};
use crate::main_item::MainItem;
use hid_report_descriptor::{ItemLists, MAX_ENTRIES, Shape, Usage};
use std::alloc::{AllocError, Global};

/// The codes of an array; none of another item.
fn array_codes(item: &MainItem, entries: &[(Usage, Usage)]) -> Codes
    requires elements { is_padding item.now.shape ≡ false → HasElements item.now }
    requires few { length entries.now ≤ MAX_ENTRIES }
    ensures { item.now.shape ≡ Shape.Array → AreCodes item.now (usage_list entries.now) result }
{
    match item.shape {
        Shape::Padding | Shape::Variable => NO_CODES,
        Shape::Array => codes_of(item, entries),
    }
}

/// The place after the last array.
fn after_arrays(items: &[MainItem]) -> usize
    ensures within { result ≤ length items.now }
    ensures all { (i : ℕ) (item : MainItem) → slice_get items.now i ≡ Some item
        → item.shape ≡ Shape.Array → i < result }
{
    let mut end = 0;
    for (i, item) in items.iter().enumerate() {
        match item.shape {
            Shape::Array => end = i + 1,
            Shape::Variable | Shape::Padding => {}
        }
    }
    end
}

/// The codes of the arrays, at their places. Those of other items are worked out where they are asked for.
pub(crate) fn all_codes(
    alloc: Global,
    items: &[MainItem],
    lists: &ItemLists,
) -> Result<Vec<Codes>, AllocError>
    requires elements { (i : ℕ) (item : MainItem) → slice_get items.now i ≡ Some item
        → is_padding item.shape ≡ false → HasElements item }
    requires few { (i : ℕ) (es : List Entry) → slice_get lists.now.entries i ≡ Some es
        → length es ≤ MAX_ENTRIES }
    requires one_each { length lists.now.entries ≡ length items.now }
    ensures { IfOk result (λ codes. AreArrayCodes items.now lists.now.entries codes.items) }
{
    let count = after_arrays(items);
    let mut codes = Vec::with_capacity(alloc, count)?;
    for i in 0..count {
        codes.push_reserved(array_codes(&items[i], lists.entries(i)));
    }
    Ok(codes)
}
