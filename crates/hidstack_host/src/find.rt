//! The data elements of an interface by their usage, which several may have.

ghost use Rattle.std.specs.Prelude.{◌≡◌, ◌<◌, length};
ghost use Rattle.hidstack_session.specs.Tables.{elements_below, elements_of_item, one_or_none};
ghost use Rattle.hidstack_host.specs.Finding.{IsNth, element_found, is_sought, nth_element};

use crate::reading::layout_at;
use hid_driver::{Driver, Layout};
use hid_layout::Usage;
use hidstack_session::{HidElement, element_at};

/// Whether an element stands in a report of this kind and has this usage.
fn is_sought(element: &HidElement, kind: u32, usage: Usage) -> bool
    ensures { result ≡ is_sought kind usage element.now }
{
    u32::from(element.kind) == kind && element.page == usage.page && element.id == usage.id
}

/// One of the elements that are sought, or how many of them come after those that were looked at.
enum Sought {
    /// It is this one.
    Found(HidElement),
    /// It comes after this many more.
    Left(u64),
}

/// Of the first elements of a listed item that are sought, the one that comes after this many.
fn nth_of_first(
    layout: &Layout,
    item: usize,
    count: usize,
    kind: u32,
    usage: Usage,
    nth: u64,
) -> Sought
    ensures { IsNth (is_sought kind usage) (elements_below layout.now item count) nth result }
{
    let mut left = nth;
    for index in 0..count {
        left = match next_of(element_at(layout, item, index), kind, usage, left) {
            Sought::Found(element) => return Sought::Found(element),
            Sought::Left(rest) => rest,
        };
    }
    Sought::Left(left)
}

/// Whether an element that may be there is the one that is sought and comes after this many.
fn next_of(element: Option<HidElement>, kind: u32, usage: Usage, nth: u64) -> Sought
    ensures { IsNth (is_sought kind usage) (one_or_none element) nth result }
{
    match element {
        Some(found) => {
            if !is_sought(&found, kind, usage) {
                return Sought::Left(nth);
            }
            if nth == 0 {
                Sought::Found(found)
            } else {
                Sought::Left(nth - 1)
            }
        }
        None => Sought::Left(nth),
    }
}

/// Of the elements of a listed item that are sought, the one that comes after this many.
#[tactic(auto, unfolding(hidstack_session::specs::Tables::elements_of_item))]
fn nth_of_item(layout: &Layout, item: usize, kind: u32, usage: Usage, nth: u64) -> Sought
    ensures { IsNth (is_sought kind usage) (elements_of_item layout.now item) nth result }
{
    match layout.items().get(item) {
        Some(main) => nth_of_first(layout, item, main.count as usize, kind, usage, nth),
        None => Sought::Left(nth),
    }
}

/// Of the elements of a layout that stand in reports of this kind and have this usage, item by item, the one that comes after this
/// many.
fn nth_element(layout: &Layout, kind: u32, usage: Usage, nth: u64) -> Option<HidElement>
    ensures { result ≡ nth_element layout.now kind usage nth }
{
    let mut left = nth;
    for item in 0..layout.items().len() {
        left = match nth_of_item(layout, item, kind, usage, left) {
            Sought::Found(element) => return Some(element),
            Sought::Left(rest) => rest,
        };
    }
    None
}

/// The record of the data element of an interface that stands in a report of this kind, has this usage, and comes after this many
/// that do. None where no more do, and where no report descriptor is read.
pub fn find_element(
    driver: &Driver,
    place: usize,
    kind: u32,
    usage: Usage,
    nth: u64,
) -> Option<HidElement>
    ensures { result ≡ element_found driver.now place kind usage nth }
{
    match layout_at(driver, place) {
        Some(layout) => nth_element(layout, kind, usage, nth),
        None => None,
    }
}
