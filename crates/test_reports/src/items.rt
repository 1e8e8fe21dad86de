//! Items of `hid_items`, and names of `hid_names`.

use crate::words::usage_of;
use hid_items::{Item, ItemFault, ItemKind, Items};
use hid_layout::Usage;
use hid_names::usage_name;
use test_rows::{RowFault, add, add_hex, add_shown, print_bytes, print_shown};

/// Where an item begins, its sort, and its prefix or its tag.
fn print_head(printed: &mut String, at: usize, sort: &str, code: u8) -> Result<(), RowFault> {
    add(printed, " at ")?;
    add_shown(printed, &at)?;
    add(printed, sort)?;
    add_hex(printed, u32::from(code))
}

/// The data of the first item without and with a sign, where it is a short one.
fn numbers(bytes: &[u8]) -> Option<(u64, i64)> {
    match Items::new(bytes).next() {
        Some(Ok(item)) => match item.kind {
            ItemKind::Short { .. } => Some((item.unsigned(), item.signed())),
            ItemKind::Long { .. } => None,
        },
        _ => None,
    }
}

fn print_data(printed: &mut String, bytes: &[u8]) -> Result<(), RowFault> {
    match numbers(bytes) {
        Some((unsigned, signed)) => {
            add(printed, " ")?;
            add_shown(printed, &unsigned)?;
            add(printed, " ")?;
            add_shown(printed, &signed)
        }
        None => add(printed, " no data"),
    }
}

/// Its bytes, its place, and of a short item its prefix and its data without and with a sign, of a long one its tag.
fn print_item(printed: &mut String, item: &Item<'_>) -> Result<(), RowFault> {
    print_bytes(printed, item.bytes)?;
    let at = item.at;
    match item.kind {
        ItemKind::Short { prefix } => {
            print_head(printed, at, " short ", prefix)?;
            print_data(printed, item.bytes)
        }
        ItemKind::Long { tag } => print_head(printed, at, " long ", tag),
    }
}

fn print_answer(
    printed: &mut String,
    answer: &Result<Item<'_>, ItemFault>,
) -> Result<(), RowFault> {
    match answer {
        Ok(item) => print_item(printed, item),
        Err(fault) => print_shown(printed, fault),
    }
}

/// The items of these bytes.
pub fn print_items(printed: &mut String, bytes: &[u8]) -> Result<(), RowFault> {
    for answer in Items::new(bytes) {
        print_answer(printed, &answer)?;
    }
    Ok(())
}

/// The name of a usage, `PAGE:ID`.
pub fn print_name(printed: &mut String, words: &str) -> Result<(), RowFault> {
    let Usage { page, id } = usage_of(words)?;
    match usage_name(page, id) {
        Some(name) => add_shown(printed, &name),
        None => add(printed, "no name"),
    }
}
