//! The items of a descriptor as a table.

ghost use Rattle.std.specs.Prelude.{◌≡◌, ◌++◌, ◌+◌, ◌<◌, ◌^◌, All, codes, length, slice_get, Some, OnOk, string_bytes};
ghost use Rattle.hid_notation.specs.Text.{concat_below};
ghost use Rattle.hid_drawing.specs.Escape.{escaped_words};
ghost use Rattle.hid_drawing.specs.Items.{IsWholeItem};
ghost use Rattle.hid_drawing.specs.Label.{usage_label};
ghost use Rattle.hid_page.specs.ItemTable.{name_in_table, names_of, item_name, first_of, name_of_item, next_main, page_place, page_at, usage_on, is_item_signed, is_usage, page_words, number_text, data_text, item_row_head, item_words, item_row, item_rows, item_table};

use crate::item_numbers::{LONG, exponent_of, number_at, number_of, signed_number, whole_at};
use crate::units::{UNIT, print_unit};
use hid_drawing::{
    UsageLabel, collection_name, global_place, is_field, is_main, prefix_of, print_flags,
    push_escaped, round_at,
};
use hid_items::Item;
use hid_layout::{MainFlags, Usage};
use hid_names::page_name;
use hid_notation::{HexText, print_bytes};
use hid_report_descriptor::prefix;
use std::alloc::{AllocError, Global};

/// The names of short items by their prefix (HID 1.11, 6.2.2).
#[rattlefmt::skip]
pub static ITEM_NAMES: [(u8, &str); 27] = [
    (0x04, "Usage Page"), (0x08, "Usage"), (0x14, "Logical Minimum"), (0x18, "Usage Minimum"),
    (0x24, "Logical Maximum"), (0x28, "Usage Maximum"), (0x34, "Physical Minimum"), (0x38, "Designator Index"),
    (0x44, "Physical Maximum"), (0x48, "Designator Minimum"), (0x54, "Unit Exponent"), (0x58, "Designator Maximum"),
    (0x64, "Unit"), (0x74, "Report Size"), (0x78, "String Index"), (0x80, "Input"), (0x84, "Report ID"),
    (0x88, "String Minimum"), (0x90, "Output"), (0x94, "Report Count"), (0x98, "String Maximum"), (0xA0, "Collection"),
    (0xA4, "Push"), (0xA8, "Delimiter"), (0xB0, "Feature"), (0xB4, "Pop"), (0xC0, "End Collection"),
];

/// What the table begins with.
pub const ITEMS_HEAD: &str =
    "<h2 id='items'>Items of the descriptor</h2>\n<div class='x'><table><thead><tr><th scope='col'>At</th><th scope='col'>Bytes</th><th scope='col'>Item</th></tr></thead><tbody>\n";

/// What a table ends with.
pub const TABLE_END: &str = "</tbody></table></div>\n";

/// What rows of names have under a prefix.
fn name_in_table(rows: &[(u8, &'static str)], prefix: u8) -> &'static str
    ensures { result.now ≡ name_in_table (names_of rows.now) prefix }
{
    for row in rows {
        let (of, name) = *row;
        if prefix == of {
            return name;
        }
    }
    "Reserved"
}

/// The name of the item with this prefix.
#[tactic(auto, unfolding(crate::specs::ItemTable::item_name))]
fn item_name(prefix: u8) -> &'static str
    ensures { result.now ≡ item_name prefix }
{
    name_in_table(&ITEM_NAMES, prefix)
}

/// The first byte of an item.
fn first_of(bytes: &[u8]) -> u8
    ensures { result ≡ first_of bytes.now }
{
    match bytes {
        [] => 0,
        [first, ..] => *first,
    }
}

/// What an item is called.
fn words_of(bytes: &[u8]) -> &'static str
    ensures { result.now ≡ name_of_item bytes.now }
{
    if first_of(bytes) == 0xFE {
        return "Long item";
    }
    item_name(prefix_of(bytes))
}

/// The next main item, where these are the items from a place on.
fn next_main(rest: &[Item], place: usize) -> Option<usize>
    requires { place + length rest.now < 2 ^ 64 }
    ensures { result ≡ next_main place rest.now }
{
    let mut at = place;
    for item in rest {
        if is_main(item.bytes) {
            return Some(at);
        }
        at += 1;
    }
    None
}

/// Where the page of a usage is looked up: at the next main item, or at the usage where none follows.
fn page_place(items: &[Item], k: usize) -> usize
    requires { k < length items.now }
    ensures { result ≡ page_place items.now k }
{
    match next_main(&items[k..], k) {
        None => k,
        Some(m) => m,
    }
}

/// The page in force there.
fn page_at(items: &[Item], k: usize) -> u16
    requires there { k < length items.now }
    requires whole { All IsWholeItem items.now }
    ensures { result ≡ page_at items.now k }
{
    let place = global_place(items, page_place(items, k), prefix::USAGE_PAGE);
    (number_at(items, place) % 0x1_0000) as u16
}

/// The usage that a local item names.
fn usage_on(page: u16, item: &Item) -> Usage
    requires { IsWholeItem item.now }
    ensures { result ≡ usage_on page item.now.bytes.now }
{
    let number = number_of(item);
    let id = (number % 0x1_0000) as u16;
    if item.bytes.len() == 5 {
        Usage {
            page: (number / 0x1_0000) as u16,
            id,
        }
    } else {
        Usage { page, id }
    }
}

/// A minimum or a maximum.
fn is_signed(prefix: u8) -> bool
    ensures { result ≡ is_item_signed prefix }
{
    matches!(
        prefix,
        prefix::LOGICAL_MINIMUM
            | prefix::LOGICAL_MAXIMUM
            | prefix::PHYSICAL_MINIMUM
            | prefix::PHYSICAL_MAXIMUM
    )
}

/// A usage, or an end of a range of usages.
fn is_usage(prefix: u8) -> bool
    ensures { result ≡ is_usage prefix }
{
    matches!(
        prefix,
        prefix::USAGE | prefix::USAGE_MINIMUM | prefix::USAGE_MAXIMUM
    )
}

/// Adds a page by its number and its name: `01: Generic Desktop`.
fn print_page(text: &mut String, page: u16) -> Result<(), AllocError>
    ensures { OnOk result (string_bytes text.new ≡ string_bytes text.old ++ page_words page) }
{
    let number = HexText(page);
    match page_name(page) {
        Some(name) => write!(text, "{number}: {name}"),
        None => write!(text, "{number}"),
    }
}

/// Adds the number of an item.
fn print_number(text: &mut String, prefix: u8, item: &Item) -> Result<(), AllocError>
    requires { IsWholeItem item.now }
    ensures { OnOk result (string_bytes text.new
        ≡ string_bytes text.old ++ number_text prefix item.now.bytes.now) }
{
    if is_signed(prefix) {
        let number = signed_number(item);
        return write!(text, "{number}");
    }
    if prefix == prefix::UNIT_EXPONENT {
        let exponent = exponent_of(number_of(item), signed_number(item));
        return write!(text, "{exponent}");
    }
    if prefix == prefix::USAGE_PAGE {
        return print_page(text, (number_of(item) % 0x1_0000) as u16);
    }
    let number = number_of(item);
    if prefix == UNIT {
        write!(text, "{number:X}")?;
        return print_unit(text, number);
    }
    write!(text, "{number}")
}

/// Adds a usage, as it stands in a page.
fn print_usage(alloc: Global, text: &mut String, usage: Usage) -> Result<(), AllocError>
    ensures { OnOk result (string_bytes text.new
        ≡ string_bytes text.old ++ escaped_words (usage_label usage)) }
{
    let mut name = String::new(alloc);
    let label = UsageLabel(usage);
    write!(name, "{label}")?;
    push_escaped(text, name.as_bytes())
}

/// Adds what the data of an item say.
#[tactic(auto, unfolding(crate::specs::ItemTable::data_text))]
fn print_data(alloc: Global, text: &mut String, page: u16, item: &Item) -> Result<(), AllocError>
    requires { IsWholeItem item.now }
    ensures { OnOk result (string_bytes text.new
        ≡ string_bytes text.old ++ data_text page item.now.bytes.now) }
{
    let prefix = prefix_of(item.bytes);
    if item.bytes.len() <= 1 {
        return Ok(());
    }
    if is_field(item.bytes) {
        text.push_str(" ")?;
        return print_flags(
            text,
            prefix == prefix::INPUT,
            MainFlags((number_of(item) % 0x200) as u16),
        );
    }
    if prefix == prefix::COLLECTION {
        text.push_str(" ")?;
        return text.push_str(collection_name((number_of(item) % 0x100) as u8));
    }
    if is_usage(prefix) {
        text.push_str(" ")?;
        return print_usage(alloc, text, usage_on(page, item));
    }
    if prefix == LONG {
        return Ok(());
    }
    text.push_str(" ")?;
    print_number(text, prefix, item)
}

/// Adds what the row of an item begins with.
#[tactic(auto, unfolding(crate::specs::ItemTable::item_row_head))]
fn print_item_head(text: &mut String, at: usize) -> Result<(), AllocError>
    ensures { OnOk result (string_bytes text.new ≡ string_bytes text.old ++ item_row_head at) }
{
    write!(text, "<tr id='at{at}'><th scope='row'>{at}</th><td><code>")
}

/// Adds a space for each collection round an item.
fn print_indentation(text: &mut String, count: usize) -> Result<(), AllocError>
    ensures { OnOk result (string_bytes text.new
        ≡ string_bytes text.old ++ concat_below count (λ i. codes "&emsp;")) }
{
    for _i in 0..count {
        text.push_str("&emsp;")?;
    }
    Ok(())
}

/// Adds what an item is.
#[tactic(auto, unfolding(crate::specs::ItemTable::item_words))]
fn print_item_words(
    alloc: Global,
    text: &mut String,
    items: &[Item],
    k: usize,
    item: &Item,
) -> Result<(), AllocError>
    requires there { k < length items.now }
    requires items { All IsWholeItem items.now }
    requires whole { IsWholeItem item.now }
    ensures { OnOk result (string_bytes text.new
        ≡ string_bytes text.old ++ item_words items.now k item.now.bytes.now) }
{
    print_indentation(text, round_at(items, k))?;
    text.push_str(words_of(item.bytes))?;
    print_data(alloc, text, page_at(items, k), item)
}

/// Adds the row of an item.
#[tactic(auto, unfolding(crate::specs::ItemTable::item_row))]
fn print_item_row(
    alloc: Global,
    text: &mut String,
    items: &[Item],
    k: usize,
    item: &Item,
) -> Result<(), AllocError>
    requires there { k < length items.now }
    requires items { All IsWholeItem items.now }
    requires whole { IsWholeItem item.now }
    ensures { OnOk result (string_bytes text.new
        ≡ string_bytes text.old ++ item_row items.now k item.now) }
{
    print_item_head(text, item.at)?;
    print_bytes(text, item.bytes)?;
    text.push_str("</code></td><td>")?;
    print_item_words(alloc, text, items, k, item)?;
    text.push_str("</td></tr>\n")
}

/// Adds the rows of items.
#[tactic(auto, unfolding(crate::specs::ItemTable::item_rows))]
fn print_item_rows(alloc: Global, text: &mut String, items: &[Item]) -> Result<(), AllocError>
    requires { All IsWholeItem items.now }
    ensures { OnOk result (string_bytes text.new ≡ string_bytes text.old ++ item_rows items.now) }
{
    for k in 0..items.len() {
        print_item_row(alloc, text, items, k, whole_at(items, k))?;
    }
    Ok(())
}

/// Adds the first items of a descriptor as a table.
///
/// # Errors
/// Out of memory; part of the text may be added then.
#[tactic(auto, unfolding(crate::specs::ItemTable::item_table))]
pub fn print_item_table(alloc: Global, text: &mut String, items: &[Item]) -> Result<(), AllocError>
    requires { All IsWholeItem items.now }
    ensures { OnOk result (string_bytes text.new ≡ string_bytes text.old ++ item_table items.now) }
{
    text.push_str(ITEMS_HEAD)?;
    print_item_rows(alloc, text, items)?;
    text.push_str(TABLE_END)
}
