//! The controls of a usage, which may have several: two fingers of a touch screen have the same usages.

ghost use Rattle.std.specs.Prelude.{◌≡◌, ◌+◌, ◌≤◌, ◌<◌, true, length};
ghost use Rattle.hid_layout.specs.Controls.{items_of};
ghost use Rattle.hidstack_device.specs.Finding.{IsNth, IsNthIn, has_usage, places_of};

use hid_layout::{ControlId, Controls, Layout, Usage};

/// Whether a control has a usage.
fn has_usage(layout: &Layout, control: ControlId, usage: Usage) -> bool
    ensures { result ≡ has_usage (items_of layout.now) usage control }
{
    match layout.control(control) {
        Some(found) => found.usage.page == usage.page && found.usage.id == usage.id,
        None => false,
    }
}

/// At how many places of a listed item a control can stand.
pub(crate) fn place_count(layout: &Layout, item: usize) -> usize
    requires { item < length layout.now.items }
    ensures { result ≡ places_of (items_of layout.now) item }
{
    match layout.controls(item) {
        Controls::None => 0,
        Controls::Elements { count, .. } => count,
        Controls::Keys { count, .. } => count,
    }
}

/// Where one of the controls of a usage stands in a listed item.
enum InItem {
    /// At this place.
    At(usize),
    /// Not there: of all that are asked for, this many come after the item's.
    After(u64),
}

/// The control of a listed item that has a usage, and comes after this many of the item that have it.
fn nth_in(layout: &Layout, item: usize, usage: Usage, nth: u64) -> InItem
    requires { item < length layout.now.items }
    ensures { IsNthIn (items_of layout.now) usage item nth result }
{
    let mut left = nth;
    for index in 0..place_count(layout, item) {
        if has_usage(layout, ControlId { item, index }, usage) {
            if left == 0 {
                return InItem::At(index);
            }
            left -= 1;
        }
    }
    InItem::After(left)
}

/// The control that has a usage and comes after this many that have it, by item and then by place in the item; none where no
/// more have it.
pub fn find_nth(layout: &Layout, usage: Usage, nth: u64) -> Option<ControlId>
    ensures { IsNth (items_of layout.now) usage (length layout.now.items) nth result }
{
    let mut left = nth;
    for item in 0..layout.items().len() {
        match nth_in(layout, item, usage, left) {
            InItem::At(index) => return Some(ControlId { item, index }),
            InItem::After(rest) => left = rest,
        }
    }
    None
}
