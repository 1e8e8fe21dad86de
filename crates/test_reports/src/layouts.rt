//! Readers of a layout, and refusals of descriptors.

use hid_layout::{Element, Layout, LayoutFault, Usage};
use std::alloc::Global;
use test_rows::{
    RowFault, add, add_shown, number_of, print, print_debug, print_shown, print_whether, split,
};

fn item_count(layout: &Layout) -> usize {
    layout.items().len()
}

/// How many items are listed.
pub fn print_count(printed: &mut String, layout: &Layout) -> Result<(), RowFault> {
    add_shown(printed, &item_count(layout))?;
    add(printed, " items")
}

fn usage(layout: &Layout, item: usize, index: usize) -> Option<Usage> {
    if item < layout.items().len() {
        layout.usage(item, index)
    } else {
        None
    }
}

fn element(layout: &Layout, item: usize, index: usize) -> Option<Element> {
    if item < layout.items().len() {
        layout.element(item, index)
    } else {
        None
    }
}

/// The usage and the element at a place of an item.
pub fn print_element(printed: &mut String, layout: &Layout, words: &str) -> Result<(), RowFault> {
    let (item, index) = split(words, ' ');
    let (item, index) = (number_of(item)?, number_of(index)?);
    print_debug(printed, &usage(layout, item, index))?;
    print_debug(printed, &element(layout, item, index))
}

fn entries(layout: &Layout) -> &[(Usage, Usage)] {
    if layout.items().is_empty() {
        &[]
    } else {
        layout.entries(0)
    }
}

fn collections(layout: &Layout) -> usize {
    if layout.items().is_empty() {
        0
    } else {
        layout.path(0).len()
    }
}

fn report_bytes(layout: &Layout) -> usize {
    if layout.reports().is_empty() {
        0
    } else {
        layout.report_bytes(0)
    }
}

/// Of the first item, its entries and how many collections it is in; of the first report, its bytes and whether it has an ID.
pub fn print_lists(printed: &mut String, layout: &Layout) -> Result<(), RowFault> {
    print_debug(printed, &entries(layout))?;
    print_shown(printed, &collections(layout))?;
    print_shown(printed, &report_bytes(layout))?;
    print_whether(printed, layout.numbered(), "with an ID", "without an ID")
}

/// Why a descriptor is refused.
fn fault_of(alloc: Global, descriptor: &[u8]) -> Option<LayoutFault> {
    Layout::parse(alloc, descriptor).err()
}

fn print_part(printed: &mut String, alloc: Global, descriptor: &[u8]) -> Result<(), RowFault> {
    match fault_of(alloc, descriptor) {
        Some(fault) => print_shown(printed, &fault),
        None => print(printed, "accepted"),
    }
}

/// Why the first bytes of a descriptor are refused, by how many there are.
pub fn print_parts(
    printed: &mut String,
    alloc: Global,
    descriptor: &[u8],
    words: &str,
) -> Result<(), RowFault> {
    for word in words.split_whitespace() {
        match descriptor.get(..number_of(word)?) {
            Some(front) => print_part(printed, alloc, front)?,
            None => return Err(RowFault::Unread),
        }
    }
    Ok(())
}
